// The words that an answer of the reader of pieces becomes.
use crate::text::Line;
use pieces_layout::{Fed, PieceSays, PieceStart};

// Where the ciphers of an Init1 begin, and the nonce of an Init2.
const CIPHERS: usize = 9;

const SECOND_NONCE: usize = 10;

const NONCE: usize = 32;

pub fn started(line: &mut Line, answer: PieceStart) {
    match answer {
        PieceStart::Started => line.put(b"started"),
        _ => line.refuse(pieces_numbers::by_start(answer)),
    }
}

// How many bytes were used, and what was finished.
fn put_used(line: &mut Line, used: usize, word: &[u8]) {
    line.counted(b"fed", used as u64);
    line.put(word);
}

// The words that both messages end with: cipher, nonce and key, which stand in the bytes from the nonce on.
fn put_fields(line: &mut Line, cipher: u16, fields: &[u8], keys: usize) {
    line.cipher(cipher);
    line.hex(text_words::first(fields, NONCE));
    line.hex(text_words::first(text_words::from(fields, NONCE), keys));
}

// The bytes of an Init1 from its nonce on, behind ciphers of two bytes each.
fn behind_ciphers(gathered: &[u8], count: usize) -> &[u8] {
    let half = text_words::from(text_words::from(gathered, CIPHERS), count);
    text_words::from(half, count)
}

pub fn fed(line: &mut Line, fed: Fed, gathered: &[u8]) {
    let used = fed.used;
    let says = fed.says;
    match says {
        PieceSays::Waiting => put_used(line, used, b" waiting"),
        PieceSays::Init1 {
            cipher,
            count,
            length,
            keys,
        } => {
            put_used(line, used, b" init1");
            line.numbers(&[length as u64, count as u64]);
            put_fields(line, cipher, behind_ciphers(gathered, count), keys);
        }
        PieceSays::Init2 {
            cipher,
            length,
            keys,
        } => {
            put_used(line, used, b" init2");
            line.number(length as u64);
            let fields = text_words::from(gathered, SECOND_NONCE);
            put_fields(line, cipher, fields, keys);
        }
        PieceSays::Header {
            rekey,
            clen,
            next,
            control,
            high,
            low,
        } => {
            put_used(line, used, b" header");
            line.numbers(&[u64::from(rekey), clen as u64, next]);
            line.hex(&[control, high, low]);
        }
        PieceSays::Body { begins, ends } => {
            put_used(line, used, b" body");
            line.numbers(&[begins, ends]);
        }
        _ => {
            line.refuse(pieces_numbers::by_piece(says));
            line.number(pieces_numbers::position_of(says));
        }
    }
}
