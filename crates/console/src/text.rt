// A line that is written: a word behind each space. What does not fit is left out; a reply always fits.
use text_words::{put_hex, put_number};

// A reply has at most one word without a bound of its own, a lent buffer or a part of the line's bytes: under 20,000 digits, as the line has. All its other words, the longest
// being a nonce of 32 and a key of 56 bytes, stay under 200 bytes.
const ROOM: usize = 24576;

// There is no heap here: the bytes of a line stand in an array, and `end` says where they end.
#[derive(Drop)]
pub struct Line {
    bytes: [u8; ROOM],
    end: usize,
}

impl Line {
    pub fn empty() -> Line {
        Line {
            bytes: [0; ROOM],
            end: 0,
        }
    }

    // Nothing stands in it any more: what is behind `end` is no part of a line.
    pub fn clear(&mut self) {
        self.end = 0;
    }

    pub fn text(&self) -> &[u8] {
        text_words::first(&self.bytes, self.end)
    }

    pub fn put(&mut self, text: &[u8]) {
        self.end = text_words::put(&mut self.bytes, self.end, text);
    }

    // Each of these puts a space, then the word.
    pub fn number(&mut self, n: u64) {
        self.put(b" ");
        self.end = put_number(&mut self.bytes, self.end, n);
    }

    pub fn numbers(&mut self, numbers: &[u64]) {
        for n in numbers {
            self.number(*n);
        }
    }

    pub fn hex(&mut self, bytes: &[u8]) {
        self.put(b" ");
        self.end = put_hex(&mut self.bytes, self.end, bytes);
    }

    // A cipher is four hex digits.
    pub fn cipher(&mut self, cipher: u16) {
        self.hex(&cipher.to_be_bytes());
    }

    // The option that makes an area unreadable: where it begins, and its kind in two hex digits.
    pub fn fault(&mut self, place: u8, kind: u8) {
        self.number(u64::from(place));
        self.hex(&[kind]);
    }

    // A word and a number.
    pub fn counted(&mut self, word: &[u8], n: u64) {
        self.put(word);
        self.number(n);
    }

    pub fn refuse(&mut self, number: u64) {
        self.counted(b"refused", number);
    }
}
