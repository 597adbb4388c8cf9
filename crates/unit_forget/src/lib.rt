// forget: the unit's call that removes a session record from a door, for any door number, any bytes and any content of the unit.
#![tactic(auto)]

ghost use Rattle.std.specs.Prelude.{◌≡◌, []};
ghost use Rattle.door.specs.Calls.{forget};
ghost use Rattle.unit.specs.Run.{on, step};
ghost use Rattle.unit_bytes.specs.Content.{unit_in};
ghost use Rattle.pool.specs.Placed.{DoorsKept};
ghost use Rattle.unit_step.specs.Steps.{step_of};

use door::{Change, Refusal, Reply};
use unit::{DOORS, ROWS, WORDS};
use unit_bytes::{PLACE, ROW};

// Removes the session record with this TEP and identifier from a door.
pub fn forget(
    marks: &mut [u32; WORDS],
    rows: &mut [[u8; ROW]; ROWS],
    doors: &mut [[u8; PLACE]; DOORS],
    door: usize,
    tep: u8,
    identifier: &[u8],
) -> Result<Reply, Refusal>
    ensures { (step_of result [] (unit_in marks.new rows.new doors.new) ≡ step (unit_in marks.old rows.old doors.old) (on door (forget tep identifier.now))) × DoorsKept door doors.old doors.new }
{
    if DOORS <= door {
        return Err(Refusal::NoDoor);
    }
    let position = pool_doors::position_at(doors, door);
    let view = pool_views::view_of(rows, position);
    let place = records_forget::forget(view, tep, identifier)?;
    let removal = Change::Remove(place);
    let zeros = door_values::no_session();
    pool_effects::enacted(
        marks, rows, doors, door, position, ROWS, view.door, removal, zeros,
    );
    Ok(Reply::Done)
}
