// count: the unit's call that tells how many session records a door holds, for any door number and any content of the unit.
#![tactic(auto)]

ghost use Rattle.std.specs.Prelude.{◌≡◌, []};
ghost use Rattle.door.specs.Calls.{count};
ghost use Rattle.unit.specs.Run.{on, step};
ghost use Rattle.unit_bytes.specs.Content.{unit_in};
ghost use Rattle.unit_step.specs.Steps.{step_of};

use door::{Refusal, Reply};
use unit::{DOORS, ROWS, WORDS};
use unit_bytes::{PLACE, ROW};

// How many session records a door holds.
pub fn count(
    marks: &[u32; WORDS],
    rows: &[[u8; ROW]; ROWS],
    doors: &[[u8; PLACE]; DOORS],
    door: usize,
) -> Result<Reply, Refusal>
    ensures { step_of result [] (unit_in marks.now rows.now doors.now) ≡ step (unit_in marks.now rows.now doors.now) (on door (count)) }
{
    if DOORS <= door {
        return Err(Refusal::NoDoor);
    }
    let position = pool_doors::position_at(doors, door);
    let view = pool_views::view_of(rows, position);
    Ok(records::count(view))
}
