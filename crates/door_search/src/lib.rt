// Which of a door's records, oldest first, is looked for: of a listed TEP, one that expects a half, or one of a name. Total for every view and any bytes.
#![tactic(auto)]

ghost use Rattle.std.specs.Prelude.{◌≡◌};
ghost use Rattle.door.specs.Record.{first_that};
ghost use Rattle.door.specs.Door.{seen_of};
ghost use Rattle.door_search.specs.Search.{expects, is_sought};

use door::View;
use eno::SessionRecord;

// What is looked for, by the bytes that stand beside it: a record whose TEP they list; one of a TEP that expects the half which stands in them from a place on; one of a TEP whose identifier they are.
// An enum and no closure: the theorems `first_listed`, `first_expecting` and `first_named` speak of its variants.
#[derive(Clone, Copy)]
pub enum Sought {
    Listed,
    Expecting { tep: u8, at: usize },
    Named { tep: u8 },
}

// Whether a record is of the TEP t and expects the half that stands in an option at `at`.
fn is_expecting(session: SessionRecord, t: u8, option: &[u8], at: usize) -> bool
    ensures { result ≡ expects option.now t at session }
{
    if session.tep != t {
        return false;
    }
    let identifier = session.identifier;
    if session.role == 0 {
        return wire::stands_at(option, at, &identifier[9..18]);
    }
    wire::stands_at(option, at, &identifier[0..9])
}

// Whether a record is one that is looked for.
fn is_sought(session: SessionRecord, sought: Sought, bytes: &[u8]) -> bool
    ensures { result ≡ is_sought sought bytes.now session }
{
    match sought {
        Sought::Listed => option_arguments::is_listed(session.tep, bytes),
        Sought::Expecting { tep, at } => is_expecting(session, tep, bytes, at),
        Sought::Named { tep } => record_tests::is_session(session, tep, bytes),
    }
}

// The oldest record that is looked for; the number of records where there is none, and no Option, since the definitions `first_that`, `offered_at` and `fitting_at` have that number.
pub fn first_sought(view: View, sought: Sought, bytes: &[u8]) -> usize
    ensures { result ≡ first_that (is_sought sought bytes.now) (seen_of view).held }
{
    let n = door_counts::held_count(view);
    for (i, session) in view.held[..n].iter().enumerate() {
        if is_sought(*session, sought, bytes) {
            return i;
        }
    }
    n
}
