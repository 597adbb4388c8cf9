// What is written: all of a text, or nothing is taken for written.
ghost use Rattle.std.specs.Prelude.{◌≤◌, length, take, OnOk, IfOk};
ghost use Rattle.std.specs.Io.KnownBytes.{Appends};

use crate::text::Line;
use std::io;
use std::io::{ErrorKind, Write};
use std::thread::yield_now;

// A loop has to end: no text reaches this many tries.
const TRIES: u64 = 0x8000_0000_0000_0000;

// As much of an error's text as is said.
const REASON: usize = 128;

// Whether the call that failed so may be made again: it was interrupted, or the other end has no room or nothing yet. The processor is handed on first.
pub fn may_repeat(error: &io::Error) -> bool {
    match error.kind() {
        ErrorKind::Interrupted => true,
        ErrorKind::WouldBlock => {
            yield_now();
            true
        }
        _ => false,
    }
}

// Writes a part of a text, and gives how many bytes that is: none where nothing is taken for now. A write that fails, or takes nothing at all, is an error.
fn write_part<W: Write>(to: &mut W, text: &[u8]) -> io::Result<usize>
    ensures within { IfOk result (λ n. n ≤ length text.now) }
    ensures bytes { IfOk result (λ n. Appends (W.contents to.old) (W.contents to.new) (take n text.now)) }
{
    match to.write(text) {
        Ok(0) => Err(io::Error::from(ErrorKind::WriteZero)),
        Ok(n) => Ok(n),
        Err(error) => {
            if may_repeat(&error) {
                Ok(0)
            } else {
                Err(error)
            }
        }
    }
}

// Writes all of a text: after a write that took a part, or none for now, the rest is tried again.
pub fn write<W: Write>(to: &mut W, text: &[u8]) -> io::Result<()>
    ensures { OnOk result (Appends (W.contents to.old) (W.contents to.new) text.now) }
{
    let mut done = 0;
    for _ in 0..TRIES {
        if text.len() <= done {
            return Ok(());
        }
        let more = write_part(to, &text[done..])?;
        done += more;
    }
    Err(io::Error::from(ErrorKind::TimedOut))
}

// Ends a line, and writes it.
pub fn finish<W: Write>(to: &mut W, line: &mut Line) -> io::Result<()> {
    line.put(b"\n");
    write(to, line.text())
}

// Where an error's text ends: std puts the system's number behind it, in brackets.
fn reason_end(said: &[u8]) -> usize {
    let at = text_words::place_of(said, 0, b'(');
    if at < said.len() {
        at.saturating_sub(1)
    } else {
        at
    }
}

// Puts the text of an error, as the system has it.
fn put_reason(line: &mut Line, error: &io::Error) {
    let mut text = [0u8; REASON];
    let mut room = &mut text[..];
    let _ = write!(room, "{error}");
    let left = room.len();
    let said = text_words::first(&text, REASON.saturating_sub(left));
    line.put(text_words::first(said, reason_end(said)));
}

// Says on standard error what failed, and why.
pub fn failed(rt: HostRuntime, what: &[u8], error: &io::Error) {
    let mut line = Line::empty();
    line.put(what);
    line.put(b": ");
    put_reason(&mut line, error);
    let _ = finish(&mut rt.stderr(), &mut line);
}
