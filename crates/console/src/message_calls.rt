// The finder, Init messages and frames: each call is made with the words of its line, and its reply's words are put.
ghost use Rattle.std.specs.Prelude.{◌≤◌, length};

use crate::message_replies;
use crate::text::Line;
use crate::words::{Said, enabled_in};
use answer_numbers::by_finder;
use finder::FindStatus;

// A line's buffer of 10,000 bytes has at most this many ciphers.
const CIPHERS: usize = 5000;

// The ciphers that bytes list, two bytes each, and how many there are: there is no heap here, so that the caller lends the list.
pub fn listed(bytes: &[u8], into: &mut [u16]) -> usize
    ensures { result ≤ length into.old }
{
    let count = into.len().min(bytes.len() / 2);
    for (place, cipher) in into.iter_mut().zip(bytes.chunks_exact(2)) {
        *place = wire_numbers::read_u16(cipher, 0);
    }
    count
}

pub fn find(said: &Said, line: &mut Line) {
    let syn = said.flag(0);
    let area = said.taken(1);
    let status = finder::find_status(area, syn);
    match status {
        FindStatus::Found => {
            line.put(b"found");
            line.hex(finder::find_option(area, syn));
        }
        FindStatus::Nothing => line.put(b"none"),
        FindStatus::Unreadable { place, kind } => {
            line.put(b"unreadable");
            line.fault(place, kind);
        }
        FindStatus::Refused => line.refuse(by_finder(status)),
    }
}

pub fn init1_write(said: &Said, lent: &mut [u8], line: &mut Line) {
    let mut list = [0u16; CIPHERS];
    let count = listed(said.taken(1), &mut list);
    let nonce = said.taken(2);
    let key = said.taken(3);
    let answer = init::init1_write(said.small(0), &list[..count], nonce, key, lent);
    message_replies::init_written(line, answer);
}

pub fn init1_read(said: &Said, line: &mut Line) {
    let tep = said.small(0);
    let Some(enabled) = enabled_in(said.taken(1)) else {
        return;
    };
    let answer = init::init1_read(tep, enabled, said.taken(2));
    message_replies::init1_read(line, tep, answer);
}

pub fn init2_write(said: &Said, lent: &mut [u8], line: &mut Line) {
    let cipher = wire_numbers::read_u16(said.taken(1), 0);
    let nonce = said.taken(2);
    let key = said.taken(3);
    let answer = init::init2_write(said.small(0), cipher, nonce, key, lent);
    message_replies::init_written(line, answer);
}

pub fn init2_read(said: &Said, line: &mut Line) {
    let tep = said.small(0);
    let mut list = [0u16; CIPHERS];
    let count = listed(said.taken(1), &mut list);
    let answer = init::init2_read(tep, &list[..count], said.taken(2));
    message_replies::init2_read(line, tep, answer);
}

pub fn header_write(said: &Said, lent: &mut [u8], line: &mut Line) {
    let length = said.number(1) as usize;
    let answer = frame::write_header(said.flag(0), length, said.number(2), lent);
    message_replies::header_written(line, answer);
}

pub fn header_read(said: &Said, line: &mut Line) {
    let read = frame::read_header(said.taken(1), said.number(0));
    message_replies::header_read(line, read);
}

pub fn nonce(said: &Said, line: &mut Line) {
    let offset = said.number(0);
    let made = frame::nonce(said.taken(1), offset);
    message_replies::nonce(line, offset, made);
}

pub fn plaintext_write(said: &Said, lent: &mut [u8], line: &mut Line) {
    let payload = said.taken(3);
    let answer = frame::write_plaintext(said.flag(0), said.flag(1), said.short(2), payload, lent);
    message_replies::plaintext_written(line, answer);
}

pub fn plaintext_read(said: &Said, line: &mut Line) {
    let whole = said.taken(0);
    let read = frame::read_plaintext(whole);
    message_replies::plaintext_read(line, read, whole);
}
