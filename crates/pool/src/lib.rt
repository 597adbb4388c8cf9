// The pool in place: what a door sees of the unit in lent arrays, and what a call makes of it, are in specs/; the crates above carry it out. Here the whole unit is emptied.
#![tactic(auto)]

ghost use Rattle.pool.specs.Placed.{Erased};

use unit::{DOORS, ROWS, WORDS};
use unit_bytes::{PLACE, ROW};

// The empty unit: no row marked, rows and doors of zeros.
// The three arrays stand side by side, here and at every call of the unit: C lends three pointers, and the clauses name each array's bytes, so a struct of borrows would be made at each call and taken apart in it.
pub fn erase(
    marks: &mut [u32; WORDS],
    rows: &mut [[u8; ROW]; ROWS],
    doors: &mut [[u8; PLACE]; DOORS],
)
    ensures { Erased marks.new rows.new doors.new }
{
    *marks = [0; WORDS];
    *rows = [[0; ROW]; ROWS];
    *doors = [[0; PLACE]; DOORS];
}
