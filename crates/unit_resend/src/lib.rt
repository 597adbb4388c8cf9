// resend: the unit's call that writes the option once more, for any door number, any buffer and any content of the unit.
#![tactic(auto)]

ghost use Rattle.std.specs.Prelude.{◌≡◌};
ghost use Rattle.door.specs.Calls.{resend};
ghost use Rattle.unit.specs.Run.{on, step};
ghost use Rattle.unit_bytes.specs.Content.{unit_in};
ghost use Rattle.unit_step.specs.Steps.{step_of};

use door::{Refusal, Reply};
use unit::{DOORS, ROWS, WORDS};
use unit_bytes::{PLACE, ROW};

// Writes the option that was sent once more.
pub fn resend(
    marks: &[u32; WORDS],
    rows: &[[u8; ROW]; ROWS],
    doors: &[[u8; PLACE]; DOORS],
    door: usize,
    out: &mut [u8],
) -> Result<Reply, Refusal>
    ensures { step_of result out.new (unit_in marks.now rows.now doors.now) ≡ step (unit_in marks.now rows.now doors.now) (on door (resend out.old)) }
{
    if DOORS <= door {
        return Err(Refusal::NoDoor);
    }
    let position = pool_doors::position_at(doors, door);
    connection_resend::resend(position.door, out)
}
