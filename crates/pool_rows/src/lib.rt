// A row of the unit in lent arrays: its record, read, and put in its place with its mark.
#![tactic(auto)]

ghost use Rattle.std.specs.Prelude.{◌≡◌, get_or};
ghost use Rattle.door.specs.Door.{no_session};
ghost use Rattle.unit_bytes.specs.Content.{rows_in};
ghost use Rattle.pool.specs.Placed.{PutRow};

use eno::SessionRecord;
use unit::{ROWS, WORDS};
use unit_bytes::ROW;

// The record of a row; past the last the empty record.
pub fn record_at(rows: &[[u8; ROW]; ROWS], number: u8) -> SessionRecord
    ensures { result ≡ get_or (rows_in rows.now) number no_session }
{
    let row = wire::wide(number);
    if ROWS <= row {
        return door_values::no_session();
    }
    let bytes = rows[row];
    unit_bytes::record_of(bytes)
}

// A row and its mark put in their places; past the last nothing is changed.
pub fn put_row(
    marks: &mut [u32; WORDS],
    rows: &mut [[u8; ROW]; ROWS],
    row: usize,
    used: bool,
    session: SessionRecord,
)
    ensures { PutRow marks.old marks.new rows.old rows.new row used session }
{
    let bytes = unit_bytes::row_of(session);
    if ROWS <= row {
        return;
    }
    let words = *marks;
    let after = marks_put::with_mark(words, row, used);
    *marks = after;
    rows[row] = bytes;
}
