// Lines of standard input: bytes are read in chunks and collected into a line.
use crate::output::{failed as say_failed, may_repeat};
use std::io;
use std::io::Read;
use text_lines::{Collected, collect};

// Where reading stands. There is no heap here: the chunk and the line are lent beside these numbers, which say how much of each is used.
#[derive(Clone, Copy, Default)]
pub struct Place {
    // How much of the chunk was read, and how much of that is used.
    pub filled: usize,
    pub used: usize,
    // The bytes of the line that were kept, and whether there were more than it holds.
    pub length: usize,
    pub long: bool,
    // Whether the line is whole, and whether the input is over.
    pub whole: bool,
    pub over: bool,
}

// Where reading stands after a chunk's bytes were collected.
fn collected(chunk: &[u8], line: Collected) -> Place {
    Place {
        filled: chunk.len(),
        used: line.used,
        length: line.length,
        long: line.long,
        whole: line.whole,
        over: false,
    }
}

// A line that is not whole yet, or a new one where the last is; no chunk is at hand.
fn unfinished(at: Place) -> Place {
    if at.whole {
        Place::default()
    } else {
        Place {
            length: at.length,
            long: at.long,
            ..Place::default()
        }
    }
}

// Goes on with a line, or with a new one where the last is whole.
fn resume(chunk: &[u8], from: usize, line: &mut [u8], at: Place) -> Place {
    let before = unfinished(at);
    collected(
        chunk,
        collect(chunk, from, line, before.length, before.long),
    )
}

// The input is over. Bytes of an unfinished line are a line, if `counts`; a byte that is too many follows others.
fn over(at: Place, counts: bool) -> Place {
    let last = unfinished(at);
    if counts {
        Place {
            whole: 0 < last.length,
            over: true,
            ..last
        }
    } else {
        Place {
            over: true,
            ..Place::default()
        }
    }
}

// After a read that failed: it is made again, or the input is over and what stands of its last line is not run.
fn failed(rt: HostRuntime, error: &io::Error, at: Place) -> Place {
    if may_repeat(error) {
        return unfinished(at);
    }
    say_failed(rt, b"console: standard input", error);
    over(at, false)
}

// Reads on, to a newline or through one chunk. The last line may end with the input.
pub fn advance(rt: HostRuntime, chunk: &mut [u8], line: &mut [u8], at: Place) -> Place {
    if at.used < at.filled {
        return resume(text_words::first(chunk, at.filled), at.used, line, at);
    }
    let mut input = rt.stdin();
    match input.read(chunk) {
        Ok(0) => over(at, true),
        Ok(filled) => resume(&chunk[..filled], 0, line, at),
        Err(error) => failed(rt, &error, at),
    }
}
