// The console: reads commands from standard input, a line each, runs each on one unit and writes one line for each (docs/CONSOLE.md).
#![tactic(auto)]

mod calls;
mod forms;
mod generation_calls;
mod input;
mod judge_calls;
mod lines;
mod message_calls;
mod message_replies;
mod output;
mod piece_calls;
mod piece_replies;
mod text;
mod unfit;
mod unit_calls;
mod unit_replies;
mod words;

use calls::Console;
use forms::Form;
use input::Place;
use lines::Asked;
use std::env::{Env, FillError};
use std::io;
use text::Line;
use words::Said;

// A reading loop has to end: no input reaches this many turns.
const TURNS: u64 = 0x8000_0000_0000_0000;

// Makes the call that a line asks, and writes its reply. A lent buffer comes last in it.
fn run_call(
    rt: HostRuntime,
    console: &mut Console,
    reply: &mut Line,
    asked: Asked,
    said: &Said,
    room: &mut [u8],
) -> io::Result<()> {
    reply.clear();
    let length = asked.lent.map_or(0, |n| n.min(room.len()));
    let lent = &mut room[..length];
    console.call(asked.form, said, lent, reply);
    if asked.lent.is_some() {
        reply.hex(lent);
    }
    output::finish(&mut rt.stdout(), reply)?;
    if asked.form == Form::Help {
        unfit::help(rt, reply);
    }
    Ok(())
}

// Runs a line. An Err says that its reply was not written.
fn run_line(
    rt: HostRuntime,
    console: &mut Console,
    reply: &mut Line,
    number: u64,
    line: &[u8],
    long: bool,
) -> io::Result<()> {
    let mut said = Said::nothing();
    // A line of 20,000 bytes has at most 10,000 bytes in hex.
    let mut lent = [0u8; 10000];
    match lines::parse(line, long, &mut said, &mut lent) {
        Ok(None) => Ok(()),
        Ok(Some(asked)) => run_call(rt, console, reply, asked, &said, &mut lent),
        Err(unfit) => unfit::say(rt, reply, number, unfit),
    }
}

// Runs the input to its end, or to a reply that cannot be written.
fn run(rt: HostRuntime) {
    let mut console = Console::new();
    // One for all lines: a line of its own for each reply would be zeroed each time.
    let mut reply = Line::empty();
    let mut chunk = [0u8; 65536];
    // A line's 20,000 bytes, and a carriage return.
    let mut line = [0u8; 20001];
    let mut place = Place::default();
    let mut number: u64 = 0;
    for _ in 0..TURNS {
        if place.over {
            return;
        }
        place = input::advance(rt, &mut chunk, &mut line, place);
        if place.whole {
            number = number.wrapping_add(1);
            let whole = text_lines::without_return(text_words::first(&line, place.length));
            if let Err(error) = run_line(rt, &mut console, &mut reply, number, whole, place.long) {
                output::failed(rt, b"console: standard output", &error);
                return;
            }
        }
    }
}

// Whether the program has an argument besides its own name.
fn has_argument(rt: HostRuntime) -> bool {
    let mut room = [0u8; 1];
    !matches!(rt.arg(1, &mut room), Err(FillError::NotPresent))
}

fn main(rt: HostRuntime) {
    if has_argument(rt) {
        let _ = output::write(
            &mut rt.stderr(),
            b"usage: console <LINES (it takes no arguments; docs/CONSOLE.md)\n",
        );
        return;
    }
    run(rt);
}
