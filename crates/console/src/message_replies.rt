// The words that an answer of an Init message or of a frame becomes.
use crate::text::Line;
use eno::Tep;
use frame::{
    Header, HeaderReadRefusal, HeaderWriteRefusal, OtherLength, Plaintext, PlaintextWriteRefusal,
    TooShort,
};
use init::{InitMessage, InitRefusal, InitWriteRefusal};

pub fn init_written(line: &mut Line, answer: Result<usize, InitWriteRefusal>) {
    match answer {
        Ok(n) => line.counted(b"written", n as u64),
        Err(_) => line.refuse(answer_numbers::by_init_writer(answer)),
    }
}

// The words that both messages end with; of the key as many bytes as the TEP's keys have.
fn put_init(line: &mut Line, tep: u8, message: InitMessage) {
    line.cipher(message.cipher);
    line.hex(&message.nonce);
    line.hex(text_words::first(&message.key, Tep::key_length_of(tep)));
}

pub fn init1_read(line: &mut Line, tep: u8, answer: Result<InitMessage, InitRefusal>) {
    match answer {
        Ok(message) => {
            line.put(b"init1");
            line.numbers(&[message.length as u64, message.count as u64]);
            put_init(line, tep, message);
        }
        Err(_) => line.refuse(answer_numbers::by_init_reader(answer)),
    }
}

pub fn init2_read(line: &mut Line, tep: u8, answer: Result<InitMessage, InitRefusal>) {
    match answer {
        Ok(message) => {
            line.counted(b"init2", message.length as u64);
            put_init(line, tep, message);
        }
        Err(_) => line.refuse(answer_numbers::by_init_reader(answer)),
    }
}

// A header has three bytes.
pub fn header_written(line: &mut Line, answer: Result<u64, HeaderWriteRefusal>) {
    match answer {
        Ok(next) => line.counted(b"written 3", next),
        Err(_) => line.refuse(answer_numbers::by_header_writer(answer)),
    }
}

pub fn header_read(line: &mut Line, read: Result<Header, HeaderReadRefusal>) {
    match read {
        Ok(header) => {
            line.put(b"header");
            line.numbers(&[u64::from(header.rekey), header.clen as u64, header.next]);
            line.hex(&header.associated);
        }
        Err(_) => line.refuse(answer_numbers::by_header_reader(read)),
    }
}

// The frame ID at an offset, and the nonce that was made of it.
pub fn nonce(line: &mut Line, offset: u64, made: Result<[u8; 12], OtherLength>) {
    match made {
        Ok(bytes) => {
            line.put(b"nonce");
            line.hex(&frame::frame_id(offset));
            line.hex(&bytes);
        }
        Err(_) => line.refuse(answer_numbers::by_nonce(made)),
    }
}

pub fn plaintext_written(line: &mut Line, answer: Result<usize, PlaintextWriteRefusal>) {
    match answer {
        Ok(n) => line.counted(b"written", n as u64),
        Err(_) => line.refuse(answer_numbers::by_plaintext_writer(answer)),
    }
}

pub fn plaintext_read(line: &mut Line, answer: Result<Plaintext, TooShort>, bytes: &[u8]) {
    match answer {
        Ok(plaintext) => {
            line.put(b"plaintext");
            line.numbers(&[
                u64::from(plaintext.fin),
                u64::from(plaintext.urg),
                u64::from(plaintext.urgent),
            ]);
            line.hex(text_words::from(bytes, plaintext.data_at));
        }
        Err(_) => line.refuse(answer_numbers::by_plaintext_reader(answer)),
    }
}
