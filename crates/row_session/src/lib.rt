// What the row that a change takes or frees holds after it.
#![tactic(auto)]

ghost use Rattle.std.specs.Prelude.{◌≡◌};
ghost use Rattle.row_list.specs.Listed.{session_after};

use door::Change;
use eno::SessionRecord;

// What the row that a change takes or frees holds after it.
pub fn session_after(change: Change, added: SessionRecord) -> SessionRecord
    ensures { result ≡ session_after change added }
{
    match change {
        Change::Keep | Change::Add => added,
        Change::Remove(_) => door_values::no_session(),
    }
}
