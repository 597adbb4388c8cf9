// A call's effect, carried out in place on rows, marks and the door.
#![tactic(auto)]

ghost use Rattle.pool.specs.Placed.{Enacts};

use door::{Change, Door};
use eno::SessionRecord;
use unit::{DOORS, Position, ROWS, WORDS};
use unit_bytes::{PLACE, ROW};

// A call's effect carried out; `added` is the record of a change that adds one.
// The three arrays stand side by side for the reason at `pool::erase`, and `free` is a number for the reason at `marks::lowest_unmarked`.
pub fn enacted(
    marks: &mut [u32; WORDS],
    rows: &mut [[u8; ROW]; ROWS],
    doors: &mut [[u8; PLACE]; DOORS],
    d: usize,
    position: Position,
    free: usize,
    after: Door,
    change: Change,
    added: SessionRecord,
)
    ensures { Enacts marks.old marks.new rows.old rows.new doors.old doors.new d position free after change added }
{
    if d >= DOORS {
        return;
    }
    let session = row_session::session_after(change, added);
    if let Some(next) = row_list_after::list_after(position, change, free) {
        if let Some(mark) = next.mark {
            pool_rows::put_row(marks, rows, mark.row, mark.used, session);
        }
        let numbers = next.numbers;
        let to = Position {
            door: after,
            count: next.count,
            rows: numbers,
        };
        pool_doors::put_door(doors, d, to);
    }
}
