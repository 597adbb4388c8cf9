// Runs a table: a line that begins with a blank is a call, any other names a row, which begins anew.
use crate::{
    frame_calls, generation_calls, init_calls, plaintext_calls, read, say, unit_calls, word,
};
use generation::GenerationRecord;
use link_unit::{DOORS, PLACE, ROW, ROWS, WORDS};
use std::io;
use std::io::Stdout;

pub fn is_call(line: &[u8]) -> bool {
    if line.len() == 0 {
        return false;
    }
    line[0] == b' '
}

pub fn name(to: Stdout, line: &[u8]) -> io::Result<()> {
    say::text(to, line)?;
    say::text(to, b"\n")
}

fn unit_line(
    to: Stdout,
    marks: &mut [u32; WORDS],
    rows: &mut [[u8; ROW]; ROWS],
    doors: &mut [[u8; PLACE]; DOORS],
    line: &[u8],
) -> io::Result<()> {
    if is_call(line) {
        return unit_calls::made(to, marks, rows, doors, line);
    }
    name(to, line)?;
    let _ = link_unit::erase(marks, rows, doors);
    Ok(())
}

// A table of calls of the unit, whose memory stands here.
pub fn unit_table(to: Stdout, table: &[u8]) -> io::Result<()> {
    let mut marks = [0u32; WORDS];
    let row = [0u8; ROW];
    let mut rows = [row; ROWS];
    let door = [0u8; PLACE];
    let mut doors = [door; DOORS];
    let _ = link_unit::erase(&mut marks, &mut rows, &mut doors);
    let mut at = 0;
    while at < table.len() {
        let end = text_words::place_of(table, at, b'\n');
        unit_line(
            to,
            &mut marks,
            &mut rows,
            &mut doors,
            text_words::between(table, at, end),
        )?;
        if table.len() <= end {
            return Ok(());
        }
        at = end + 1;
    }
    Ok(())
}

// A line on Init messages.
fn init_line(to: Stdout, line: &[u8]) -> io::Result<()> {
    if read::has(line, word::WRITE) {
        return init_calls::written(to, line);
    }
    init_calls::told(to, line)
}

fn plaintext_line(to: Stdout, line: &[u8]) -> io::Result<()> {
    if read::has(line, word::WRITE) {
        return plaintext_calls::written(to, line);
    }
    plaintext_calls::told(to, line)
}

fn header_line(to: Stdout, line: &[u8]) -> io::Result<()> {
    if read::has(line, word::WRITE) {
        return frame_calls::header_written(to, line);
    }
    frame_calls::header_read(to, line)
}

// A line on headers, offsets, frame IDs and nonces.
fn frame_line(to: Stdout, line: &[u8]) -> io::Result<()> {
    if read::has(line, word::HEADER) {
        return header_line(to, line);
    }
    if read::has(line, word::NONCE) {
        return frame_calls::nonce(to, line);
    }
    if read::has(line, word::FRAME) {
        return frame_calls::frame_id(to, line);
    }
    frame_calls::next_offset(to, line)
}

fn generation_line(to: Stdout, g: GenerationRecord, line: &[u8]) -> io::Result<GenerationRecord> {
    if read::has(line, word::LEND) {
        name(to, line)?;
        return Ok(generation_calls::lent(line));
    }
    generation_calls::made(to, g, line)
}

fn other_line(to: Stdout, g: GenerationRecord, line: &[u8]) -> io::Result<GenerationRecord> {
    if !is_call(line) {
        name(to, line)?;
        return Ok(generation_record::first_record());
    }
    if read::has(line, word::INIT) {
        init_line(to, line)?;
        return Ok(g);
    }
    if read::has(line, word::PLAINTEXT) {
        plaintext_line(to, line)?;
        return Ok(g);
    }
    if read::has(line, word::OFFSET) {
        frame_line(to, line)?;
        return Ok(g);
    }
    generation_line(to, g, line)
}

// A table of the other libraries' calls.
pub fn table(to: Stdout, table: &[u8]) -> io::Result<()> {
    let mut g = generation_record::first_record();
    let mut at = 0;
    while at < table.len() {
        let end = text_words::place_of(table, at, b'\n');
        let after = other_line(to, g, text_words::between(table, at, end))?;
        g = after;
        if table.len() <= end {
            return Ok(());
        }
        at = end + 1;
    }
    Ok(())
}
