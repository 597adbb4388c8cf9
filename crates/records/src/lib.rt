// The records that a door holds: what store and forget answer, the laws of both in specs/, and count.
#![tactic(auto)]

ghost use Rattle.std.specs.Prelude.{◌≡◌, [], Ok};
ghost use Rattle.door.specs.Door.{seen_of};
ghost use Rattle.door.specs.Outcome.{keep};
ghost use Rattle.door.specs.Records as records;
ghost use Rattle.door.specs.Answers.{reply_of, outcome_as};

use door::{Reply, View};

// How many records the door holds.
pub fn count(view: View) -> Reply
    ensures { outcome_as (reply_of (Ok result) []) [] view.door keep ≡ records.count (seen_of view) }
{
    Reply::Holds(door_counts::held_count(view))
}
