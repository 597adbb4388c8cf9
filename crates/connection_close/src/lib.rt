// Close of one door: its connection is over.
#![tactic(auto)]

ghost use Rattle.std.specs.Prelude.{◌≡◌, []};
ghost use Rattle.door.specs.Outcome.{done, keep};
ghost use Rattle.door.specs.Receive.{close};
ghost use Rattle.door.specs.Answers.{outcome_as};

use door::Door;

// The door that is closed, in any phase: Idle.
#[tactic(auto, unfolding(door::specs::Receive::close))]
pub fn close() -> Door
    ensures { outcome_as done [] result keep ≡ close }
{
    door_values::idle_door()
}
