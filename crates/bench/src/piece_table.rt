// Runs a table of a reader of pieces: a line that begins with a blank is a call, any other names a row, which begins with frames.
use crate::{piece_calls, read, run, word};
use std::io;
use std::io::Stdout;

fn call(to: Stdout, line: &[u8], numbers: &mut [u64], gathered: &mut [u8]) -> io::Result<()> {
    if read::has(line, word::LEND) {
        run::name(to, line)?;
        piece_calls::lent(line, numbers);
        return Ok(());
    }
    if read::has(read::given(line), word::START) {
        return piece_calls::started(to, line, numbers, gathered);
    }
    piece_calls::fed(to, line, numbers, gathered)
}

fn line_run(to: Stdout, line: &[u8], numbers: &mut [u64], gathered: &mut [u8]) -> io::Result<()> {
    if run::is_call(line) {
        return call(to, line, numbers, gathered);
    }
    run::name(to, line)?;
    pieces::start_frames(numbers);
    Ok(())
}

// The reader's memory stands here.
pub fn table(to: Stdout, table: &[u8]) -> io::Result<()> {
    let mut numbers = [0u64; 4];
    let mut gathered = [0u8; 4608];
    let mut at = 0;
    while at < table.len() {
        let end = text_words::place_of(table, at, b'\n');
        line_run(
            to,
            text_words::between(table, at, end),
            &mut numbers,
            &mut gathered,
        )?;
        if table.len() <= end {
            return Ok(());
        }
        at = end + 1;
    }
    Ok(())
}
