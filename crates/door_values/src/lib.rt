// The values that a door's calls share: the empty record, nothing in hand, a door as it is made, and a door in Plain.
#![tactic(auto)]

ghost use Rattle.std.specs.Prelude.{◌≡◌};
ghost use Rattle.door.specs.Door.{no_session, empty_hand, idle_door};
ghost use Rattle.door.specs.Answer.{plain_door};

use door::Door;
use eno::{Cause, InHand, SessionRecord};

// Zeros.
#[tactic(auto, unfolding(door::specs::Door::no_session))]
pub fn no_session() -> SessionRecord
    ensures { result ≡ no_session }
{
    SessionRecord {
        tep: 0,
        role: 0,
        identifier: [0; 18],
        secret: [0; 32],
    }
}

// Nothing in hand: a dropped record is overwritten with zeros.
#[tactic(auto, unfolding(door::specs::Door::empty_hand))]
pub fn empty_hand() -> InHand
    ensures { result ≡ empty_hand }
{
    InHand {
        held: false,
        session: no_session(),
    }
}

// A door as it is made.
#[tactic(auto, unfolding(door::specs::Door::idle_door))]
pub fn idle_door() -> Door
    ensures { result ≡ idle_door }
{
    Door {
        phase: 0,
        mandatory: false,
        cause: Cause::numbered(0),
        role: 0,
        tep: 0,
        resumed: false,
        own_length: 0,
        peer_length: 0,
        own: [0; 40],
        peer: [0; 40],
        hand: empty_hand(),
    }
}

// A door in Plain: what was in hand is dropped.
#[tactic(auto, unfolding(door::specs::Answer::plain_door, door::specs::Door::kept, door::specs::Door::idle_door))]
pub fn plain_door(cause: Cause) -> Door
    ensures { result ≡ plain_door cause }
{
    Door {
        phase: 5,
        cause,
        ..idle_door()
    }
}
