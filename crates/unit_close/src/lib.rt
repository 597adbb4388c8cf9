// close: the unit's call that ends a connection, for any door number and any content of the unit.
#![tactic(auto)]

ghost use Rattle.std.specs.Prelude.{◌≡◌, []};
ghost use Rattle.door.specs.Calls.{close};
ghost use Rattle.unit.specs.Run.{on, step};
ghost use Rattle.unit_bytes.specs.Content.{unit_in};
ghost use Rattle.pool.specs.Placed.{DoorsKept};
ghost use Rattle.unit_step.specs.Steps.{step_of};

use door::{Refusal, Reply};
use unit::{DOORS, Position, ROWS, WORDS};
use unit_bytes::{PLACE, ROW};

// The connection is over: Idle.
pub fn close(
    marks: &[u32; WORDS],
    rows: &[[u8; ROW]; ROWS],
    doors: &mut [[u8; PLACE]; DOORS],
    door: usize,
) -> Result<Reply, Refusal>
    ensures { (step_of result [] (unit_in marks.now rows.now doors.new) ≡ step (unit_in marks.now rows.now doors.old) (on door (close))) × DoorsKept door doors.old doors.new }
{
    if DOORS <= door {
        return Err(Refusal::NoDoor);
    }
    let position = pool_doors::position_at(doors, door);
    let after = Position {
        door: connection_close::close(),
        ..position
    };
    pool_doors::put_door(doors, door, after);
    Ok(Reply::Done)
}
