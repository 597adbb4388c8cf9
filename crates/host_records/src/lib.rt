// store, forget and count, exported: over arrays that the host lends, with any door number, any bytes and any content of the unit.
#![tactic(auto)]

ghost use Rattle.std.specs.Prelude.{[]};
ghost use Rattle.door.specs.Calls.{store, forget, count};
ghost use Rattle.unit.specs.Run.{on, step};
ghost use Rattle.unit_bytes.specs.Content.{unit_in};
ghost use Rattle.pool.specs.Placed.{DoorsKept};
ghost use Rattle.host_step.specs.Replies.{Gives};

use host_numbers::reply_numbers;
use host_reply::ReplyNumbers;
use link_unit::{DOORS, PLACE, ROW, ROWS, WORDS};

// Adds a session record to a door.
#[unsafe(no_mangle)]
pub extern "C" fn door_link_store(
    marks: &mut [u32; WORDS],
    rows: &mut [[u8; ROW]; ROWS],
    doors: &mut [[u8; PLACE]; DOORS],
    door: usize,
    tep: u8,
    role: u8,
    identifier: &[u8],
    secret: &[u8],
) -> ReplyNumbers
    ensures { (Gives result [] (unit_in marks.new rows.new doors.new) (step (unit_in marks.old rows.old doors.old) (on door (store tep role identifier.now secret.now)))) × DoorsKept door doors.old doors.new }
{
    let told = link_unit::store(marks, rows, doors, door, tep, role, identifier, secret);
    reply_numbers(told)
}

// Removes the session record with this TEP and identifier from a door.
#[unsafe(no_mangle)]
pub extern "C" fn door_link_forget(
    marks: &mut [u32; WORDS],
    rows: &mut [[u8; ROW]; ROWS],
    doors: &mut [[u8; PLACE]; DOORS],
    door: usize,
    tep: u8,
    identifier: &[u8],
) -> ReplyNumbers
    ensures { (Gives result [] (unit_in marks.new rows.new doors.new) (step (unit_in marks.old rows.old doors.old) (on door (forget tep identifier.now)))) × DoorsKept door doors.old doors.new }
{
    let told = link_unit::forget(marks, rows, doors, door, tep, identifier);
    reply_numbers(told)
}

// How many session records a door holds.
#[unsafe(no_mangle)]
pub extern "C" fn door_link_count(
    marks: &[u32; WORDS],
    rows: &[[u8; ROW]; ROWS],
    doors: &[[u8; PLACE]; DOORS],
    door: usize,
) -> ReplyNumbers
    ensures { Gives result [] (unit_in marks.now rows.now doors.now) (step (unit_in marks.now rows.now doors.now) (on door count)) }
{
    let told = link_unit::count(marks, rows, doors, door);
    reply_numbers(told)
}
