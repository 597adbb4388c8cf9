// store: the unit's call that adds a session record to a door, for any door number, any bytes and any content of the unit.
#![tactic(auto)]

ghost use Rattle.std.specs.Prelude.{◌≡◌, []};
ghost use Rattle.door.specs.Calls.{store};
ghost use Rattle.unit.specs.Run.{on, step};
ghost use Rattle.unit_bytes.specs.Content.{unit_in};
ghost use Rattle.pool.specs.Placed.{DoorsKept};
ghost use Rattle.unit_step.specs.Steps.{step_of};

use door::{Change, Refusal, Reply};
use unit::{DOORS, ROWS, WORDS};
use unit_bytes::{PLACE, ROW};

// Adds a session record to a door.
pub fn store(
    marks: &mut [u32; WORDS],
    rows: &mut [[u8; ROW]; ROWS],
    doors: &mut [[u8; PLACE]; DOORS],
    door: usize,
    tep: u8,
    role: u8,
    identifier: &[u8],
    secret: &[u8],
) -> Result<Reply, Refusal>
    ensures { (step_of result [] (unit_in marks.new rows.new doors.new) ≡ step (unit_in marks.old rows.old doors.old) (on door (store tep role identifier.now secret.now))) × DoorsKept door doors.old doors.new }
{
    if DOORS <= door {
        return Err(Refusal::NoDoor);
    }
    let position = pool_doors::position_at(doors, door);
    let view = pool_views::view_of(rows, position);
    let row = marks::lowest_unmarked(*marks);
    let free = row < ROWS;
    let added = records_store::store(view, free, tep, role, identifier, secret)?;
    pool_effects::enacted(
        marks,
        rows,
        doors,
        door,
        position,
        row,
        view.door,
        Change::Add,
        added,
    );
    Ok(Reply::Done)
}
