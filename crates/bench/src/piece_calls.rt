// Lines that start a reader of pieces, feed it, or lend it other numbers.
use crate::said::Answer;
use crate::{init_calls, read, said, say, word};
use pieces_layout::{Fed, PieceSays, PieceStart};
use std::io;
use std::io::Stdout;

fn start_answer(came: PieceStart) -> Answer {
    match came {
        PieceStart::Started => said::plain(said::STARTED),
        PieceStart::Unfit => said::refused(3),
        PieceStart::NoRoom => said::refused(5),
    }
}

fn start_init2(line: &[u8], numbers: &mut [u64], gathered: &mut [u8]) -> PieceStart {
    let mut own = [0u16; 8];
    let k = init_calls::ciphers(line, word::OFFERED, &mut own);
    let tep = read::byte(line, word::TEP);
    pieces::start_init2(tep, init_calls::first(&own, k), numbers, gathered)
}

// Init2 where the line says which ciphers this end offered, else Init1; frames where it names neither.
fn start(line: &[u8], numbers: &mut [u64], gathered: &mut [u8]) -> PieceStart {
    if read::has(line, word::OFFERED) {
        return start_init2(line, numbers, gathered);
    }
    if read::has(line, word::INIT) {
        let tep = read::byte(line, word::TEP);
        return pieces::start_init1(tep, init_calls::enabled(line), numbers);
    }
    pieces::start_frames(numbers)
}

pub fn started(
    to: Stdout,
    line: &[u8],
    numbers: &mut [u64],
    gathered: &mut [u8],
) -> io::Result<()> {
    let came = start(read::given(line), numbers, gathered);
    say::compared(to, line, start_answer(came), true)
}

fn init_answer(form: usize, used: usize, cipher: u16, count: usize, length: usize) -> Answer {
    said::five(
        form,
        used as u64,
        (cipher / 256) as u64,
        (cipher % 256) as u64,
        count as u64,
        length as u64,
    )
}

fn refused_at(number: u64, position: u64) -> Answer {
    said::four(said::REFUSED_AT, number, position, 0, 0)
}

fn fed_answer(fed: Fed) -> Answer {
    let used = fed.used;
    let says = fed.says;
    match says {
        PieceSays::Waiting => said::one(said::WAITING, used as u64),
        PieceSays::Init1 {
            cipher,
            count,
            length,
            keys: _,
        } => init_answer(said::INIT1, used, cipher, count, length),
        PieceSays::Init2 {
            cipher,
            length,
            keys: _,
        } => init_answer(said::INIT2, used, cipher, length, 0),
        PieceSays::Header {
            rekey,
            clen,
            next,
            control: _,
            high: _,
            low: _,
        } => said::four(
            said::FED_HEADER,
            used as u64,
            said::flag(rekey),
            clen as u64,
            next,
        ),
        PieceSays::Body { begins, ends } => { said::four(said::BODY, used as u64, begins, ends, 0) }
        PieceSays::Unreadable(position) => refused_at(8, position),
        PieceSays::NoCommonCipher(position) => refused_at(10, position),
        PieceSays::NoFrame(position) => refused_at(11, position),
        PieceSays::NoRoom => refused_at(5, 0),
    }
}

// The bytes of a message from its nonce on: nonce and key.
fn put_fields(given: &mut [u8], fields: &[u8], keys: usize) {
    wire::copy(given, 0, text_words::first(fields, 32));
    let key = text_words::from(fields, 32);
    wire::copy(given, 32, text_words::first(key, keys));
}

// What is told stands behind the colon: nonce and key, as they were gathered, or the associated data.
fn put_told(given: &mut [u8], says: PieceSays, gathered: &[u8]) {
    match says {
        PieceSays::Init1 {
            cipher: _,
            count,
            length: _,
            keys,
        } => {
            let half = text_words::from(text_words::from(gathered, 9), count);
            put_fields(given, text_words::from(half, count), keys);
        }
        PieceSays::Init2 {
            cipher: _,
            length: _,
            keys,
        } => {
            put_fields(given, text_words::from(gathered, 10), keys);
        }
        PieceSays::Header {
            rekey: _,
            clen: _,
            next: _,
            control,
            high,
            low,
        } => {
            let associated = [control, high, low];
            wire::copy(given, 0, &associated);
        }
        _ => {}
    }
}

fn feed(line: &[u8], numbers: &mut [u64], gathered: &mut [u8]) -> Fed {
    let mut piece = [0u8; 128];
    let n = read::list(line, word::FEED, &mut piece);
    pieces::feed(numbers, gathered, text_words::first(&piece, n))
}

pub fn fed(to: Stdout, line: &[u8], numbers: &mut [u64], gathered: &mut [u8]) -> io::Result<()> {
    let came = feed(read::given(line), numbers, gathered);
    let says = came.says;
    let mut given = [0u8; 88];
    put_told(&mut given, says, gathered);
    say::told(to, line, fed_answer(came), &given)
}

fn set(numbers: &mut [u64], k: usize, value: u64) {
    if k < numbers.len() {
        numbers[k] = value;
    }
}

// The numbers that a line lends in place of those that there are.
pub fn lent(line: &[u8], numbers: &mut [u64]) {
    set(numbers, 0, read::number(line, word::POSITION));
    set(numbers, 1, read::number(line, word::FIRST));
    set(numbers, 2, read::number(line, word::SECOND));
    set(numbers, 3, read::number(line, word::STAGE));
}
