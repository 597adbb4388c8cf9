// The unit's calls, in one place: any door number, any bytes, any order, any content of the arrays that are lent. The definitions and theorems are those of crate unit.
#![tactic(auto)]

ghost use Rattle.std.specs.Prelude.{◌≡◌, []};
ghost use Rattle.unit.specs.Run.{step};
ghost use Rattle.unit.specs.Run as run;
ghost use Rattle.unit_bytes.specs.Content.{unit_in};
ghost use Rattle.pool.specs.Placed.{Erased};
ghost use Rattle.unit_step.specs.Steps.{step_of};

pub use door::Resulted;
use door::{Refusal, Reply};
pub use unit::{DOORS, ROWS, WORDS};
pub use unit_answer::answer;
pub use unit_bytes::{PLACE, ROW, WORD};
pub use unit_close::close;
pub use unit_count::count;
pub use unit_forget::forget;
pub use unit_offer::offer;
pub use unit_receive::receive;
pub use unit_resend::resend;
pub use unit_result::result;
pub use unit_store::store;

// Empties the whole unit, whatever its bytes are: all doors Idle, no record held or in hand, every byte zero.
pub fn erase(
    marks: &mut [u32; WORDS],
    rows: &mut [[u8; ROW]; ROWS],
    doors: &mut [[u8; PLACE]; DOORS],
) -> Result<Reply, Refusal>
    ensures { (step_of result [] (unit_in marks.new rows.new doors.new) ≡ step (unit_in marks.old rows.old doors.old) run.erase) × Erased marks.new rows.new doors.new }
{
    pool::erase(marks, rows, doors);
    Ok(Reply::Done)
}
