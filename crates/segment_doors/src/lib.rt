// A door that a segment opens, and what is then in hand.
#![tactic(auto)]

ghost use Rattle.std.specs.Prelude.{◌≡◌};
ghost use Rattle.door.specs.Receive.{open_hand, open_door};
ghost use Rattle.segment_doors.specs.Steps.{open_if};

use door::Door;
use eno::{Cause, InHand};

// What is in hand after the door opens: a fresh Open drops it.
fn open_hand(resumed: bool, hand: InHand) -> InHand
    ensures { result ≡ open_hand resumed hand }
{
    if resumed {
        hand
    } else {
        door_values::empty_hand()
    }
}

// The door opened with the verdict that it stores.
#[tactic(auto, unfolding(door::specs::Receive::open_door))]
pub fn open_door(door: Door) -> Door
    ensures { result ≡ open_door door }
{
    Door {
        phase: 4,
        cause: Cause::numbered(0),
        hand: open_hand(door.resumed, door.hand),
        ..door
    }
}

// The door opened, or as it is.
#[tactic(auto, unfolding(crate::specs::Steps::open_if))]
pub fn open_if(opens: bool, door: Door) -> Door
    ensures { result ≡ open_if opens door }
{
    if opens { open_door(door) } else { door }
}
