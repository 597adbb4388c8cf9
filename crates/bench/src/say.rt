// Answers put in words, and a line of a table held against what came.
use crate::read;
use crate::said::Answer;
use std::io;
use std::io::Stdout;

// What fills a lent buffer before a call: what the call did not write must still be this.
pub const FILL: u8 = 0xee;

// How long a lent buffer is.
pub const LENT: usize = 128;

// How long the words of an answer may be.
const WORDS: usize = 80;

pub fn text(to: Stdout, s: &[u8]) -> io::Result<()> {
    to.write_all(s)
}

fn byte_of(n: u64) -> u8 {
    if 255 < n {
        return 255;
    }
    n as u8
}

// Puts a byte of a form: a number for #, two hex digits for %.
fn put_byte(out: &mut [u8], at: usize, c: u8, n: u64) -> usize {
    if c == b'#' {
        return text_words::put_number(out, at, n);
    }
    if c == b'%' {
        let x = byte_of(n);
        let byte = [x];
        return text_words::put_hex(out, at, &byte);
    }
    let other = [c];
    text_words::put(out, at, &other)
}

fn is_number(c: u8) -> bool {
    if c == b'#' {
        return true;
    }
    c == b'%'
}

// The answer without its first number, once that is put.
fn rest(said: Answer, c: u8) -> Answer {
    if is_number(c) {
        return Answer {
            form: said.form,
            a: said.b,
            b: said.c,
            c: said.d,
            d: said.e,
            e: 0,
        };
    }
    said
}

fn put_form(out: &mut [u8], at: usize, form: &[u8], said: Answer) -> usize {
    let mut end = at;
    let mut left = said;
    let mut i = 0;
    while i < form.len() {
        let c = form[i];
        end = put_byte(out, end, c, left.a);
        left = rest(left, c);
        i += 1;
    }
    end
}

// Puts the words of an answer and gives the place after them; what does not fit is left out.
pub fn put_answer(out: &mut [u8], at: usize, said: Answer) -> usize {
    let all =
        b" refused #. wrote #. plain #. plain # place # kind %. holds #. done. Idle. Offered. Crossed. Answered. Open. Plain. role # TEP % fresh transcript #. role # TEP % resumed transcript #. cipher %% count # length #. next #. rekey # length # next #. made. fin # urg # urgent # from #. wrote # fin # urg # urgent # from #. sent # rekey #. received #. local # remote # last # fin # owed #. started. used # waiting. used # init1 cipher %% count # length #. used # init2 cipher %% length #. used # header rekey # length # next #. used # body # to #. refused # at #.";
    let form = said.form;
    let end = text_words::place_of(all, form, b'.');
    put_form(out, at, text_words::between(all, form, end), said)
}

// The line, and whether it is as expected; else the words that came.
fn verdict(to: Stdout, line: &[u8], right: bool, words: &[u8]) -> io::Result<()> {
    text(to, line)?;
    if right {
        return text(to, b" ok\n");
    }
    text(to, b" BUT CAME")?;
    text(to, words)?;
    text(to, b"\n")
}

// What a line expects: what stands behind its arrow.
fn expected(line: &[u8]) -> &[u8] {
    let at = text_words::place_of(line, 0, b'>');
    if line.len() <= at {
        return line;
    }
    text_words::from(line, at + 1)
}

// The bytes that a line expects, behind its colon.
pub fn bytes_expected(line: &[u8], out: &mut [u8]) -> usize {
    let all = expected(line);
    let at = text_words::place_of(all, 0, b':');
    if all.len() <= at {
        return 0;
    }
    read::bytes(text_words::from(all, at + 1), out)
}

// Whether a line expects these words, and what else was compared came out alike.
pub fn words_compared(to: Stdout, line: &[u8], words: &[u8], alike: bool) -> io::Result<()> {
    let all = expected(line);
    let said = text_words::first(all, text_words::place_of(all, 0, b':'));
    if wire::same(words, said) {
        return verdict(to, line, alike, words);
    }
    verdict(to, line, false, words)
}

// Whether a line expects this answer, and what else was compared came out alike.
pub fn compared(to: Stdout, line: &[u8], said: Answer, alike: bool) -> io::Result<()> {
    let mut words = [0u8; WORDS];
    let n = put_answer(&mut words, 0, said);
    words_compared(to, line, text_words::first(&words, n), alike)
}

fn bytes(to: Stdout, s: &[u8]) -> io::Result<()> {
    let mut digits = [0u8; 256];
    let n = text_words::put_hex(&mut digits, 0, s);
    text(to, text_words::first(&digits, n))?;
    text(to, b"\n")
}

// Whether a buffer begins with the bytes that a line expects, and all else in it is as it was filled.
fn is_alike(line: &[u8], buffer: &[u8], fill: u8) -> bool {
    let mut written = [0u8; LENT];
    let n = bytes_expected(line, &mut written);
    let mut left = [fill; LENT];
    wire::copy(&mut left, 0, text_words::first(&written, n));
    wire::same(buffer, &left)
}

// Holds a line against an answer and a buffer.
pub fn check(to: Stdout, line: &[u8], said: Answer, buffer: &[u8], fill: u8) -> io::Result<()> {
    let alike = is_alike(line, buffer, fill);
    compared(to, line, said, alike)?;
    if !alike {
        return bytes(to, buffer);
    }
    Ok(())
}

// Holds a line against an answer and the bytes that are given with it.
pub fn told(to: Stdout, line: &[u8], said: Answer, given: &[u8]) -> io::Result<()> {
    let mut buffer = [0u8; LENT];
    wire::copy(&mut buffer, 0, given);
    check(to, line, said, &buffer, 0)
}
