// The words of a line by their kinds. Of a number its value is kept; bytes are put into a buffer as long as the line, at their word's own place, and their count and place are kept.
// The lent buffer, BUF, has room of its own.
use crate::forms::Kind;
use crate::unfit::Unfit;
use init::Enabled;
use link_unit::ROW;
use text_words::number_said;

// A line has at most this many words behind the first.
const MOST: usize = 8;

// The value of a word, or how many bytes it says, and its place in the line.
#[derive(Clone, Copy)]
struct Word {
    value: u64,
    place: usize,
}

// What the words of a line say. There is no heap here: the bytes of all words stand in one array, and each word says where its own are.
#[derive(Drop)]
pub struct Said {
    words: [Word; MOST],
    bytes: [u8; 20000],
}

// The ciphers that are enabled, if a list has no other.
pub fn enabled_in(ciphers: &[u8]) -> Option<Enabled> {
    let mut enabled = Enabled {
        aes128: false,
        aes256: false,
        chacha20: false,
    };
    for cipher in ciphers.chunks(2) {
        match cipher {
            [0x00, 0x01] => enabled.aes128 = true,
            [0x00, 0x02] => enabled.aes256 = true,
            [0x00, 0x10] => enabled.chacha20 = true,
            _ => return None,
        }
    }
    Some(enabled)
}

// Whether bytes are of a kind: two of them, an even number of them, ciphers that can be enabled, a record or none, or any.
fn are_of(kind: Kind, bytes: &[u8]) -> bool {
    match kind {
        Kind::Cipher => bytes.len() == 2,
        Kind::Ciphers => bytes.len() % 2 == 0,
        Kind::Enabled => enabled_in(bytes).is_some(),
        Kind::Record => bytes.is_empty() || bytes.len() == ROW,
        _ => true,
    }
}

fn at_most(most: u64, word: &[u8]) -> Option<u64> {
    number_said(word).filter(|value| *value <= most)
}

// Two hex digits.
fn octet(word: &[u8]) -> Option<u64> {
    match word {
        [high, low] => text_words::byte_said(*high, *low).map(u64::from),
        _ => None,
    }
}

// How many bytes a word says; they are put into a buffer from a place on.
fn bytes_at(word: &[u8], into: &mut [u8], at: usize) -> Option<u64> {
    let start = at.min(into.len());
    let count = text_words::bytes_said(word, &mut into[start..])?;
    Some(count as u64)
}

// The same, where the bytes are of a kind.
fn bytes_of(kind: Kind, word: &[u8], into: &mut [u8], at: usize) -> Option<u64> {
    let count = bytes_at(word, into, at)?;
    let bytes = text_words::first(text_words::from(into, at), count as usize);
    are_of(kind, bytes).then_some(count)
}

// What a word says by its kind: a number, or how many bytes; they are put into `bytes` at the word's place, and those of BUF into `lent`.
fn word_said(kind: Kind, word: &[u8], at: usize, bytes: &mut [u8], lent: &mut [u8]) -> Option<u64> {
    match kind {
        Kind::Number => number_said(word),
        Kind::Short => at_most(65535, word),
        Kind::Small => at_most(255, word),
        Kind::Flag => at_most(1, word),
        Kind::Octet => octet(word),
        Kind::Lent => bytes_at(word, lent, 0),
        _ => bytes_of(kind, word, bytes, at),
    }
}

impl Said {
    pub fn nothing() -> Said {
        Said {
            words: [Word { value: 0, place: 0 }; MOST],
            bytes: [0; 20000],
        }
    }

    // Reads the words of a line behind its first, which ends at `at`, by the kinds of its form, whose text has their names. Gives what the last says.
    pub fn read(
        &mut self,
        line: &[u8],
        at: usize,
        text: &'static [u8],
        kinds: &[Kind],
        lent: &mut [u8],
    ) -> Result<u64, Unfit> {
        let mut end = at;
        let mut last = 0;
        for (k, &kind) in kinds.iter().enumerate() {
            let wrong = Unfit::Wrong {
                text,
                word: k + 1,
                kind,
            };
            if line.len() <= end {
                return Err(wrong);
            }
            let place = end + 1;
            end = text_words::word_end(line, place);
            let word = text_words::between(line, place, end);
            let value = word_said(kind, word, place, &mut self.bytes, lent).ok_or(wrong)?;
            if k < MOST {
                self.words[k] = Word { value, place };
            }
            last = value;
        }
        if end == line.len() {
            Ok(last)
        } else {
            Err(Unfit::More)
        }
    }

    // The word with a number, the first behind the command being 0. What was read is within the range of each, so that the remainders of short and small change nothing.
    pub fn number(&self, k: usize) -> u64 {
        self.words.get(k).map_or(0, |word| word.value)
    }

    pub fn short(&self, k: usize) -> u16 {
        (self.number(k) % 65536) as u16
    }

    pub fn small(&self, k: usize) -> u8 {
        (self.number(k) % 256) as u8
    }

    pub fn flag(&self, k: usize) -> bool {
        self.number(k) == 1
    }

    pub fn taken(&self, k: usize) -> &[u8] {
        match self.words.get(k) {
            Some(word) => {
                let from_word = text_words::from(&self.bytes, word.place);
                text_words::first(from_word, word.value as usize)
            }
            None => b"",
        }
    }
}
