// Lines that write or read an Init message.
use crate::said::Answer;
use crate::{read, said, say, word};
use init::{Enabled, InitMessage, InitRefusal, InitWriteRefusal};
use std::io;
use std::io::Stdout;

// Reads the ciphers behind a word, two bytes each, of which there are at most eight. Gives how many.
pub fn ciphers(line: &[u8], word: u32, out: &mut [u16]) -> usize {
    let mut list = [0u8; 16];
    let n = read::list(line, word, &mut list) / 2;
    let mut i = 0;
    while i < 8 {
        if out.len() <= i {
            return n;
        }
        out[i] = wire_numbers::read_u16(&list, 2 * i);
        i += 1;
    }
    n
}

// The first n ciphers; all where there are fewer.
pub fn first(ciphers: &[u16], n: usize) -> &[u16] {
    if ciphers.len() < n {
        return ciphers;
    }
    &ciphers[0..n]
}

fn written_answer(came: Result<usize, InitWriteRefusal>) -> Answer {
    match came {
        Ok(n) => said::one(said::WROTE, n as u64),
        Err(InitWriteRefusal::Unfit) => said::refused(3),
        Err(InitWriteRefusal::NoRoom) => said::refused(5),
    }
}

fn taken(line: &[u8]) -> u16 {
    let mut cipher = [0u8; 2];
    read::list(line, word::TAKEN, &mut cipher);
    wire_numbers::read_u16(&cipher, 0)
}

fn write1(
    line: &[u8],
    nonce: &[u8],
    key: &[u8],
    lent: &mut [u8],
) -> Result<usize, InitWriteRefusal> {
    let tep = read::byte(line, word::TEP);
    let mut offered = [0u16; 8];
    let n = ciphers(line, word::CIPHERS, &mut offered);
    init::init1_write(tep, first(&offered, n), nonce, key, lent)
}

// Init2 where the line names the cipher that is taken, else Init1.
fn write(line: &[u8], lent: &mut [u8]) -> Result<usize, InitWriteRefusal> {
    let room = read::at_most(line, word::INTO, lent.len());
    let part = &mut lent[0..room];
    let mut nonce = [0u8; 64];
    let nonces = read::list(line, word::NONCE, &mut nonce);
    let mut key = [0u8; 64];
    let keys = read::list(line, word::KEY, &mut key);
    let sent = text_words::first(&nonce, nonces);
    let public = text_words::first(&key, keys);
    if read::has(line, word::TAKEN) {
        let tep = read::byte(line, word::TEP);
        return init::init2_write(tep, taken(line), sent, public, part);
    }
    write1(line, sent, public, part)
}

pub fn written(to: Stdout, line: &[u8]) -> io::Result<()> {
    let mut lent = [say::FILL; say::LENT];
    let came = write(read::given(line), &mut lent);
    say::check(to, line, written_answer(came), &lent, say::FILL)
}

fn read_answer(came: Result<InitMessage, InitRefusal>) -> Answer {
    match came {
        Ok(message) => said::four(
            said::CIPHER,
            (message.cipher / 256) as u64,
            (message.cipher % 256) as u64,
            message.count as u64,
            message.length as u64,
        ),
        Err(InitRefusal::Unfit) => said::refused(3),
        Err(InitRefusal::Unreadable) => said::refused(8),
        Err(InitRefusal::Incomplete) => said::refused(9),
        Err(InitRefusal::NoCommonCipher) => said::refused(10),
    }
}

pub fn enabled(line: &[u8]) -> Enabled {
    Enabled {
        aes128: read::has(line, word::AES128),
        aes256: read::has(line, word::AES256),
        chacha20: read::has(line, word::CHACHA20),
    }
}

// Init2 where the line says which ciphers this end offered, else Init1.
fn read_message(line: &[u8]) -> Result<InitMessage, InitRefusal> {
    let tep = read::byte(line, word::TEP);
    let mut message = [0u8; 128];
    let n = read::list(line, word::BYTES, &mut message);
    if read::has(line, word::OFFERED) {
        let mut own = [0u16; 8];
        let k = ciphers(line, word::OFFERED, &mut own);
        return init::init2_read(tep, first(&own, k), text_words::first(&message, n));
    }
    init::init1_read(tep, enabled(line), text_words::first(&message, n))
}

// What is read: the nonce and the key, as its array has it, stand behind the colon; zeros beside a refusal.
pub fn told(to: Stdout, line: &[u8]) -> io::Result<()> {
    let came = read_message(read::given(line));
    let mut given = [0u8; 88];
    if let Ok(message) = came {
        let nonce = message.nonce;
        let key = message.key;
        wire::copy(&mut given, 0, &nonce);
        wire::copy(&mut given, 32, &key);
    }
    say::told(to, line, read_answer(came), &given)
}
