// Lines that are calls of the frame library on headers, offsets and nonces.
use crate::said::Answer;
use crate::{read, said, say, word};
use frame::{Header, HeaderReadRefusal, HeaderWriteRefusal, OtherLength};
use std::io;
use std::io::Stdout;

// The offset and the ciphertext length of a line.
fn offset(line: &[u8]) -> u64 {
    read::number(line, word::OFFSET)
}

fn clen(line: &[u8]) -> usize {
    read::number(line, word::LENGTH) as usize
}

fn next_answer(came: Option<u64>) -> Answer {
    match came {
        Some(next) => said::one(said::NEXT, next),
        None => said::refused(11),
    }
}

pub fn next_offset(to: Stdout, line: &[u8]) -> io::Result<()> {
    let came = frame::next_offset(offset(line), clen(line));
    say::compared(to, line, next_answer(came), true)
}

fn written_answer(came: Result<u64, HeaderWriteRefusal>) -> Answer {
    match came {
        Ok(next) => said::one(said::NEXT, next),
        Err(HeaderWriteRefusal::NoRoom) => said::refused(5),
        Err(HeaderWriteRefusal::NoFrame) => said::refused(11),
    }
}

fn write_header(line: &[u8], lent: &mut [u8]) -> Result<u64, HeaderWriteRefusal> {
    let rekey = read::flag(line, word::REKEY);
    let room = read::at_most(line, word::INTO, lent.len());
    frame::write_header(rekey, clen(line), offset(line), &mut lent[0..room])
}

pub fn header_written(to: Stdout, line: &[u8]) -> io::Result<()> {
    let mut lent = [say::FILL; say::LENT];
    let came = write_header(line, &mut lent);
    say::check(to, line, written_answer(came), &lent, say::FILL)
}

fn header_answer(came: Result<Header, HeaderReadRefusal>) -> Answer {
    match came {
        Ok(header) => said::four(
            said::HEADER,
            said::flag(header.rekey),
            header.clen as u64,
            header.next,
            0,
        ),
        Err(HeaderReadRefusal::Incomplete) => said::refused(9),
        Err(HeaderReadRefusal::NoFrame) => said::refused(11),
    }
}

// The associated data, zeros beside a refusal, stand behind the colon.
pub fn header_read(to: Stdout, line: &[u8]) -> io::Result<()> {
    let mut bytes = [0u8; 8];
    let k = read::list(line, word::BYTES, &mut bytes);
    let came = frame::read_header(text_words::first(&bytes, k), offset(line));
    let associated = match came {
        Ok(header) => header.associated,
        Err(_) => [0; 3],
    };
    say::told(to, line, header_answer(came), &associated)
}

fn nonce_answer(came: Result<[u8; 12], OtherLength>) -> Answer {
    match came {
        Ok(_) => said::plain(said::MADE),
        Err(OtherLength) => said::refused(3),
    }
}

pub fn nonce(to: Stdout, line: &[u8]) -> io::Result<()> {
    let mut fixed = [0u8; 16];
    let k = read::list(line, word::FIXED, &mut fixed);
    let came = frame::nonce(text_words::first(&fixed, k), offset(line));
    let nonce = match came {
        Ok(made) => made,
        Err(OtherLength) => [0; 12],
    };
    say::told(to, line, nonce_answer(came), &nonce)
}

pub fn frame_id(to: Stdout, line: &[u8]) -> io::Result<()> {
    let id = frame::frame_id(offset(line));
    say::told(to, line, said::plain(said::MADE), &id)
}
