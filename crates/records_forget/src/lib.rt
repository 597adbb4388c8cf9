// Forget of one door: a record less.
#![tactic(auto)]

ghost use Rattle.std.specs.Prelude.{◌≡◌};
ghost use Rattle.door.specs.Door.{seen_of};
ghost use Rattle.door.specs.Records as records;
ghost use Rattle.records.specs.Answers.{forget_outcome};

use door::{Refusal, View};
use door_search::Sought;

// Gives the place of the record to remove: the door's record with this TEP and this identifier.
pub fn forget(view: View, tep: u8, identifier: &[u8]) -> Result<usize, Refusal>
    ensures { forget_outcome result view.door ≡ records.forget (seen_of view) tep identifier.now }
{
    if !record_tests::is_named(tep, identifier) {
        return Err(Refusal::Unfit);
    }
    let place = door_search::first_sought(view, Sought::Named { tep }, identifier);
    if place < door_counts::held_count(view) {
        Ok(place)
    } else {
        Err(Refusal::NotHeld)
    }
}
