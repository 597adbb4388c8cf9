// receive: the unit's call on a received segment, for any door number, any bytes and any content of the unit.
#![tactic(auto)]

ghost use Rattle.std.specs.Prelude.{◌≡◌, []};
ghost use Rattle.door.specs.Calls.{receive};
ghost use Rattle.unit.specs.Run.{on, step};
ghost use Rattle.unit_bytes.specs.Content.{unit_in};
ghost use Rattle.pool.specs.Placed.{DoorsKept};
ghost use Rattle.unit_step.specs.Steps.{step_of};

use door::{Refusal, Reply};
use unit::{DOORS, Position, ROWS, WORDS};
use unit_bytes::{PLACE, ROW};

// A received segment: its SYN and ACK flags and its option area.
pub fn receive(
    marks: &[u32; WORDS],
    rows: &[[u8; ROW]; ROWS],
    doors: &mut [[u8; PLACE]; DOORS],
    door: usize,
    syn: bool,
    ack: bool,
    area: &[u8],
) -> Result<Reply, Refusal>
    ensures { (step_of result [] (unit_in marks.now rows.now doors.new) ≡ step (unit_in marks.now rows.now doors.old) (on door (receive syn ack area.now))) × DoorsKept door doors.old doors.new }
{
    if DOORS <= door {
        return Err(Refusal::NoDoor);
    }
    let position = pool_doors::position_at(doors, door);
    let received = segments::receive(position.door, syn, ack, area)?;
    let after = Position {
        door: received.door,
        ..position
    };
    pool_doors::put_door(doors, door, after);
    Ok(received.reply)
}
