// Lines that write and read plaintexts, up to 70,000 bytes.
use crate::said::Answer;
use crate::{read, said, say, word};
use frame::{Plaintext, PlaintextWriteRefusal, TooShort};
use std::io;
use std::io::Stdout;

// How long the longest data and the longest lent buffer are.
const LONG: usize = 70016;

// Fills a buffer with bytes that tell a place from its neighbours.
fn count_up(s: &mut [u8]) {
    let mut i = 0;
    let mut x: u8 = 0;
    while i < s.len() {
        s[i] = x;
        x = x.wrapping_add(1);
        i += 1;
    }
}

fn read_answer(came: Result<Plaintext, TooShort>) -> Answer {
    match came {
        Ok(plaintext) => said::four(
            said::PLAINTEXT,
            said::flag(plaintext.fin),
            said::flag(plaintext.urg),
            plaintext.urgent as u64,
            plaintext.data_at as u64,
        ),
        Err(TooShort) => said::refused(12),
    }
}

// An answer behind how much was written.
fn behind_wrote(n: usize, read: Answer) -> Answer {
    if read.form == said::PLAINTEXT {
        return said::five(
            said::WROTE_PLAINTEXT,
            n as u64,
            read.a,
            read.b,
            read.c,
            read.d,
        );
    }
    read
}

// A plaintext that was written is read back.
fn written_answer(came: Result<usize, PlaintextWriteRefusal>, lent: &[u8]) -> Answer {
    match came {
        Ok(n) => {
            let back = frame::read_plaintext(text_words::first(lent, n));
            behind_wrote(n, read_answer(back))
        }
        Err(PlaintextWriteRefusal::NoRoom) => said::refused(5),
        Err(PlaintextWriteRefusal::TooLong) => said::refused(11),
    }
}

// What a lent buffer must hold: what the line expects before the data, then the data; nothing where the line expects no byte.
fn expect(line: &[u8], data: &[u8], out: &mut [u8]) {
    let mut heading = [0u8; 8];
    let n = say::bytes_expected(line, &mut heading);
    if n == 0 {
        return;
    }
    wire::copy(out, 0, text_words::first(&heading, n));
    wire::copy(out, n, data);
}

fn write(line: &[u8], data: &[u8], lent: &mut [u8]) -> Result<usize, PlaintextWriteRefusal> {
    let fin = read::flag(line, word::FIN);
    let urg = read::flag(line, word::URG);
    let urgent = read::at_most(line, word::URGENT, 65535) as u16;
    let room = read::at_most(line, word::INTO, lent.len());
    frame::write_plaintext(fin, urg, urgent, data, &mut lent[0..room])
}

// Writes the plaintext of a line, whose data are the first bytes of a buffer, and holds it against what is expected.
fn compare(
    to: Stdout,
    line: &[u8],
    bytes: &mut [u8],
    lent: &mut [u8],
    expected: &mut [u8],
) -> io::Result<()> {
    count_up(bytes);
    let data = text_words::first(bytes, read::number(line, word::DATA) as usize);
    let came = write(line, data, lent);
    expect(line, data, expected);
    let alike = wire::same(lent, expected);
    say::compared(to, line, written_answer(came, lent), alike)
}

pub fn written(to: Stdout, line: &[u8]) -> io::Result<()> {
    let mut bytes = [0u8; LONG];
    let mut lent = [say::FILL; LONG];
    let mut expected = [say::FILL; LONG];
    compare(to, line, &mut bytes, &mut lent, &mut expected)
}

pub fn told(to: Stdout, line: &[u8]) -> io::Result<()> {
    let mut bytes = [0u8; 16];
    let k = read::list(line, word::BYTES, &mut bytes);
    let came = frame::read_plaintext(text_words::first(&bytes, k));
    say::compared(to, line, read_answer(came), true)
}
