// The words, numbers and bytes of a line.
ghost use Rattle.std.specs.Prelude.{◌≤◌};

// What `token` says of two dots, and of anything that is no byte.
const DOTS: u16 = 256;

const NONE: u16 = 257;

// What is given: the line to its arrow.
pub fn given(line: &[u8]) -> &[u8] {
    text_words::first(line, text_words::place_of(line, 0, b'>'))
}

// Where the first word that is so named begins; the end where there is none.
fn place(s: &[u8], word: u32) -> usize {
    let mut at = 0;
    while at < s.len() {
        if wire_numbers::read_u32(s, at) == word {
            return at;
        }
        let end = text_words::word_end(s, at);
        if s.len() <= end {
            return end;
        }
        at = end + 1;
    }
    at
}

pub fn has(s: &[u8], word: u32) -> bool {
    place(s, word) < s.len()
}

// What stands behind a word, from its blank on; nothing where the word does not stand.
fn behind(s: &[u8], word: u32) -> &[u8] {
    text_words::from(s, text_words::word_end(s, place(s, word)))
}

// The number behind a word; 0 where it does not stand.
pub fn number(s: &[u8], word: u32) -> u64 {
    text_words::number_said(text_words::word(behind(s, word), 1)).unwrap_or(0)
}

// The number behind a word, or the most that may be.
pub fn at_most(s: &[u8], word: u32, most: usize) -> usize
    ensures { result ≤ most }
{
    (number(s, word) as usize).min(most)
}

// The number behind a word, or 255.
pub fn small(s: &[u8], word: u32) -> u8 {
    at_most(s, word, 255) as u8
}

// Whether the number behind a word is not 0.
pub fn flag(s: &[u8], word: u32) -> bool {
    number(s, word) != 0
}

// The byte that two hex digits say.
fn pair(high: u8, low: u8) -> u16 {
    text_words::byte_said(high, low).map_or(NONE, u16::from)
}

// What stands at a place: a blank, and a byte in hex or two dots.
fn token(s: &[u8], at: usize) -> u16 {
    if s.len() < 3 {
        return NONE;
    }
    if s.len() - 3 < at {
        return NONE;
    }
    if s[at] != b' ' {
        return NONE;
    }
    if s[at + 1] == b'.' {
        return DOTS;
    }
    pair(s[at + 1], s[at + 2])
}

// Puts a byte, where there is room, and gives the place after it.
fn push(out: &mut [u8], at: usize, x: u16) -> usize {
    if 255 < x {
        return at;
    }
    if out.len() <= at {
        return at;
    }
    out[at] = x as u8;
    at + 1
}

// Puts the bytes between two.
fn run(out: &mut [u8], at: usize, from: u16, to: u16) -> usize {
    let mut x = from;
    let mut end = at;
    while x < to {
        x += 1;
        if x < to {
            end = push(out, end, x);
        }
    }
    end
}

fn token_put(out: &mut [u8], at: usize, before: u16, x: u16, after: u16) -> usize {
    if x == DOTS {
        return run(out, at, before, after);
    }
    push(out, at, x)
}

// Reads the bytes at the beginning, each in hex behind a blank; two dots are the bytes between their neighbours. Gives how many.
pub fn bytes(s: &[u8], out: &mut [u8]) -> usize {
    let mut i = 0;
    let mut n = 0;
    let mut last = NONE;
    while i < s.len() {
        let x = token(s, i);
        if x == NONE {
            return n;
        }
        if s.len() - i < 3 {
            return n;
        }
        n = token_put(out, n, last, x, token(s, i + 3));
        last = x;
        i += 3;
    }
    n
}

// Reads the bytes behind a word.
pub fn list(s: &[u8], word: u32, out: &mut [u8]) -> usize {
    bytes(behind(s, word), out)
}

// The byte behind a word; 0 where there is none.
pub fn byte(s: &[u8], word: u32) -> u8 {
    let mut one = [0u8; 1];
    list(s, word, &mut one);
    one[0]
}
