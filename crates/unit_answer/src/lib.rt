// answer: the unit's call that answers a received SYN, for any door number, any bytes and any content of the unit.
#![tactic(auto)]

ghost use Rattle.std.specs.Prelude.{◌≡◌};
ghost use Rattle.door.specs.Calls.{answer};
ghost use Rattle.unit.specs.Run.{on, step};
ghost use Rattle.unit_bytes.specs.Content.{unit_in};
ghost use Rattle.pool.specs.Placed.{DoorsKept};
ghost use Rattle.unit_step.specs.Steps.{step_of};

use door::{Refusal, Reply};
use unit::{DOORS, ROWS, WORDS};
use unit_bytes::{PLACE, ROW};

// A passive open: takes the area of a received SYN and writes this end's option, or ends in plain TCP.
pub fn answer(
    marks: &mut [u32; WORDS],
    rows: &mut [[u8; ROW]; ROWS],
    doors: &mut [[u8; PLACE]; DOORS],
    door: usize,
    area: &[u8],
    aware: bool,
    mandatory: bool,
    teps: &[u8],
    nonce: &[u8],
    out: &mut [u8],
) -> Result<Reply, Refusal>
    ensures { (step_of result out.new (unit_in marks.new rows.new doors.new) ≡ step (unit_in marks.old rows.old doors.old) (on door (answer area.now aware mandatory teps.now nonce.now out.old))) × DoorsKept door doors.old doors.new }
{
    if DOORS <= door {
        return Err(Refusal::NoDoor);
    }
    let position = pool_doors::position_at(doors, door);
    let view = pool_views::view_of(rows, position);
    let opened = answering::answer(view, area, aware, mandatory, teps, nonce, out)?;
    let zeros = door_values::no_session();
    pool_effects::enacted(
        marks,
        rows,
        doors,
        door,
        position,
        ROWS,
        opened.door,
        opened.change,
        zeros,
    );
    Ok(opened.reply)
}
