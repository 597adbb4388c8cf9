// A door's bytes read: the door that any bytes are.
#![tactic(auto)]

ghost use Rattle.std.specs.Prelude.{◌≡◌};
ghost use Rattle.unit_bytes.specs.Content.{is_set, position_in};

use door::Door;
use eno::{Cause, InHand, SessionRecord};
use unit::Position;
use unit_bytes::{HELD, IDENTIFIER, MANDATORY, OWN, PEER, PLACE, RESUMED, SECRET};

// A flag is a byte: 0 is not set, any other is set.
fn is_set(x: u8) -> bool
    ensures { result ≡ is_set x }
{
    x != 0
}

// What a door's bytes say.
pub fn position_of(bytes: [u8; PLACE]) -> Position
    ensures { result ≡ position_in bytes }
{
    let session = SessionRecord {
        tep: bytes[11],
        role: bytes[12],
        identifier: unit_bytes::part_at(&bytes, IDENTIFIER),
        secret: unit_bytes::part_at(&bytes, SECRET),
    };
    let door = Door {
        phase: bytes[0],
        mandatory: is_set(bytes[MANDATORY]),
        cause: Cause {
            reason: bytes[2],
            place: bytes[3],
            kind: bytes[4],
        },
        role: bytes[5],
        tep: bytes[6],
        resumed: is_set(bytes[RESUMED]),
        own_length: bytes[8],
        peer_length: bytes[9],
        own: unit_bytes::part_at(&bytes, OWN),
        peer: unit_bytes::part_at(&bytes, PEER),
        hand: InHand {
            held: is_set(bytes[HELD]),
            session,
        },
    };
    Position {
        door,
        count: bytes[13],
        rows: [bytes[14], bytes[15], bytes[16], bytes[17]],
    }
}
