// What no command is, with the lines that say so, and the lines of help.
use crate::forms::{FORMS, Kind};
use crate::output;
use crate::text::Line;
use std::io;

// What is wrong with a line.
#[derive(Clone, Copy)]
pub enum Unfit {
    Long,
    Marked,
    Unknown,
    // Something follows the last word.
    More,
    // A word, counted from the first of its form, is none of its kind.
    Wrong {
        text: &'static [u8],
        word: usize,
        kind: Kind,
    },
}

// What a word of a kind is.
fn described(kind: Kind) -> &'static [u8] {
    match kind {
        Kind::Number => b" is a decimal number below 2^64, no leading zero",
        Kind::Short => b" is a decimal number to 65535, no leading zero",
        Kind::Small => b" is a decimal number to 255, no leading zero",
        Kind::Flag => b" is 0 or 1",
        Kind::Octet => b" is two hex digits",
        Kind::Cipher => b" is four hex digits",
        Kind::Ciphers => b" is lower-case hex, four digits a cipher, or -",
        Kind::Enabled => b" is a list of 0001, 0002 and 0010, or -",
        Kind::Record => b" is 52 bytes in lower-case hex, or -",
        Kind::Bytes | Kind::Lent => b" is lower-case hex, two digits a byte, or -",
    }
}

fn put_expected(line: &mut Line, unfit: Unfit) {
    match unfit {
        Unfit::Long => line.put(b"a line has at most 20000 bytes"),
        Unfit::Marked => line.put(b"a byte-order mark stands before the first word"),
        Unfit::Unknown => line.put(b"the first word is no command of docs/CONSOLE.md"),
        Unfit::More => line.put(b"nothing follows the last word"),
        Unfit::Wrong { text, word, kind } => {
            line.put(text.split(|byte| *byte == b' ').nth(word).unwrap_or(b""));
            line.put(described(kind));
        }
    }
}

// error on standard output, and on standard error the line's number and what was expected. An Err says that error was not written.
pub fn say(rt: HostRuntime, line: &mut Line, number: u64, unfit: Unfit) -> io::Result<()> {
    output::write(&mut rt.stdout(), b"error\n")?;
    line.clear();
    line.counted(b"line", number);
    line.put(b": ");
    put_expected(line, unfit);
    let _ = output::finish(&mut rt.stderr(), line);
    Ok(())
}

// The forms, a line each, on standard error.
pub fn help(rt: HostRuntime, lines: &mut Line) {
    lines.clear();
    for (_, text, _) in &FORMS {
        lines.put(text);
        lines.put(b"\n");
    }
    let _ = output::write(&mut rt.stderr(), lines.text());
}
