// The bench table's rows that run, and the worked examples of the RFCs: a line of a table is a call, with what is given and, behind its arrow, what is expected.
#![tactic(auto)]

mod area_rows;
mod bench_table;
mod frame_calls;
mod frame_rows;
mod generation_calls;
mod generation_rows;
mod init_calls;
mod init_rows;
mod piece_calls;
mod piece_rows;
mod piece_table;
mod plaintext_calls;
mod read;
mod rfc8547;
mod run;
mod said;
mod say;
mod unit_calls;
mod word;

use std::io;

fn main(rt: HostRuntime) -> io::Result<()> {
    let to = rt.stdout();
    rfc8547::table(to)?;
    bench_table::table(to)?;
    area_rows::table(to)?;
    init_rows::table(to)?;
    frame_rows::table(to)?;
    generation_rows::table(to)?;
    piece_rows::table(to)
}
