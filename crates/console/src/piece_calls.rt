// The reader of messages in pieces that the console holds: each call is made with the words of its line, and its reply's words are put.
use crate::message_calls::listed;
use crate::piece_replies;
use crate::text::Line;
use crate::words::{Said, enabled_in};

// As many ciphers as a line's bytes may list.
const CIPHERS: usize = 5000;

// The reader's memory.
#[derive(Drop)]
pub struct Reader {
    numbers: [u64; 4],
    gathered: [u8; 4608],
}

impl Reader {
    // Zeros read frames, from position 0.
    pub fn of_frames() -> Reader {
        Reader {
            numbers: [0; 4],
            gathered: [0; 4608],
        }
    }
}

pub fn start_init1(reader: &mut Reader, said: &Said, line: &mut Line) {
    let Some(enabled) = enabled_in(said.taken(1)) else {
        return;
    };
    let answer = pieces::start_init1(said.small(0), enabled, &mut reader.numbers);
    piece_replies::started(line, answer);
}

pub fn start_init2(reader: &mut Reader, said: &Said, line: &mut Line) {
    let mut list = [0u16; CIPHERS];
    let count = listed(said.taken(1), &mut list);
    let answer = pieces::start_init2(
        said.small(0),
        &list[..count],
        &mut reader.numbers,
        &mut reader.gathered,
    );
    piece_replies::started(line, answer);
}

pub fn start_frames(reader: &mut Reader, line: &mut Line) {
    let answer = pieces::start_frames(&mut reader.numbers);
    piece_replies::started(line, answer);
}

pub fn feed(reader: &mut Reader, said: &Said, line: &mut Line) {
    let fed = pieces::feed(&mut reader.numbers, &mut reader.gathered, said.taken(0));
    piece_replies::fed(line, fed, &reader.gathered);
}
