// receive and close, exported: over arrays that the host lends, with any door number, any bytes and any content of the unit.
#![tactic(auto)]

ghost use Rattle.std.specs.Prelude.{[]};
ghost use Rattle.door.specs.Calls.{receive, close};
ghost use Rattle.unit.specs.Run.{on, step};
ghost use Rattle.unit_bytes.specs.Content.{unit_in};
ghost use Rattle.pool.specs.Placed.{DoorsKept};
ghost use Rattle.host_step.specs.Replies.{Gives};

use host_numbers::reply_numbers;
use host_reply::ReplyNumbers;
use link_unit::{DOORS, PLACE, ROW, ROWS, WORDS};

// A received segment: its SYN and ACK flags and its option area.
#[unsafe(no_mangle)]
pub extern "C" fn door_link_receive(
    marks: &[u32; WORDS],
    rows: &[[u8; ROW]; ROWS],
    doors: &mut [[u8; PLACE]; DOORS],
    door: usize,
    syn: bool,
    ack: bool,
    area: &[u8],
) -> ReplyNumbers
    ensures { (Gives result [] (unit_in marks.now rows.now doors.new) (step (unit_in marks.now rows.now doors.old) (on door (receive syn ack area.now)))) × DoorsKept door doors.old doors.new }
{
    let told = link_unit::receive(marks, rows, doors, door, syn, ack, area);
    reply_numbers(told)
}

// The connection is over: Idle.
#[unsafe(no_mangle)]
pub extern "C" fn door_link_close(
    marks: &[u32; WORDS],
    rows: &[[u8; ROW]; ROWS],
    doors: &mut [[u8; PLACE]; DOORS],
    door: usize,
) -> ReplyNumbers
    ensures { (Gives result [] (unit_in marks.now rows.now doors.new) (step (unit_in marks.now rows.now doors.old) (on door close))) × DoorsKept door doors.old doors.new }
{
    let told = link_unit::close(marks, rows, doors, door);
    reply_numbers(told)
}
