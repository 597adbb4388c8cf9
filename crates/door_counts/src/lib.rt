// How many records a door holds, by its count.
#![tactic(auto)]

ghost use Rattle.std.specs.Prelude.{◌≡◌, min};
ghost use Rattle.door.specs.Numbers.{each_n};
ghost use Rattle.door.specs.Door.{Counts};

use door::{EACH, View};

// How many records a count stands for: a count above the most reads as the most.
#[tactic(auto, unfolding(door::specs::Numbers::each_n))]
pub fn listed_count(count: u8) -> usize
    ensures { result ≡ min count each_n }
{
    usize::from(count).min(EACH)
}

// How many records a view shows.
pub fn held_count(view: View) -> usize
    ensures { Counts view result }
{
    listed_count(view.count)
}
