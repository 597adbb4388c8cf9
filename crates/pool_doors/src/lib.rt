// A door of the unit in lent arrays: its position, read, and put in its place.
#![tactic(auto)]

ghost use Rattle.std.specs.Prelude.{◌≡◌};
ghost use Rattle.pool.specs.Placed.{position_from, Put};

use unit::{DOORS, Position};
use unit_bytes::PLACE;

// A door's position; past the last an idle one.
pub fn position_at(doors: &[[u8; PLACE]; DOORS], d: usize) -> Position
    ensures { result ≡ position_from doors.now d }
{
    if DOORS <= d {
        let zeros = [0u8; PLACE];
        return door_reader::position_of(zeros);
    }
    let bytes = doors[d];
    door_reader::position_of(bytes)
}

// A door put in its place; past the last nothing is changed.
pub fn put_door(doors: &mut [[u8; PLACE]; DOORS], d: usize, position: Position)
    ensures { Put doors.old doors.new d position }
{
    if DOORS <= d {
        return;
    }
    let old = doors[d];
    let bytes = door_writer::bytes_of(old, position);
    doors[d] = bytes;
}
