// result: the unit's call that tells what a connection is, for any door number, any buffer and any content of the unit.
#![tactic(auto)]

ghost use Rattle.std.specs.Prelude.{◌≡◌};
ghost use Rattle.door.specs.Answers.{result_secret, secret_beside};
ghost use Rattle.door.specs.Calls.{result as ask_result};
ghost use Rattle.unit.specs.Run.{on, step};
ghost use Rattle.unit_bytes.specs.Content.{unit_in};
ghost use Rattle.unit_step.specs.Steps.{result_of};

use door::{Refusal, Resulted};
use unit::{DOORS, ROWS, WORDS};
use unit_bytes::{PLACE, ROW};

// What the connection is: encrypted, with its transcript, or plain.
pub fn result(
    marks: &[u32; WORDS],
    rows: &[[u8; ROW]; ROWS],
    doors: &[[u8; PLACE]; DOORS],
    door: usize,
    out: &mut [u8],
) -> Result<Resulted, Refusal>
    ensures { (result_of result out.new (unit_in marks.now rows.now doors.now) ≡ step (unit_in marks.now rows.now doors.now) (on door (ask_result out.old))) × (result_secret result ≡ secret_beside (step (unit_in marks.now rows.now doors.now) (on door (ask_result out.old))).told.reply) }
{
    if DOORS <= door {
        return Err(Refusal::NoDoor);
    }
    let position = pool_doors::position_at(doors, door);
    connection_result::result(position.door, out)
}
