// A door written over the bytes that stood there.
#![tactic(auto)]

ghost use Rattle.std.specs.Prelude.{◌≡◌, length, ◌++◌};
ghost use Rattle.unit_bytes.specs.Layout.{door_size};
ghost use Rattle.unit_bytes.specs.Content.{flag_over, position_in, bytes_of};

use unit::Position;
use unit_bytes::{HELD, IDENTIFIER, MANDATORY, NUMBERS, OWN, PEER, PLACE, RESUMED, SECRET};

// A flag written over a byte: a byte that says it already stays.
fn flag_over(old: u8, x: bool) -> u8
    ensures { result ≡ flag_over old x }
{
    if x { old.max(1) } else { 0 }
}

// The pieces of a door, one behind the other.
fn place_with(
    numbers: [u8; NUMBERS],
    own: [u8; 40],
    peer: [u8; 40],
    identifier: [u8; 18],
    secret: [u8; 32],
) -> [u8; PLACE]
    ensures { (result ≡ numbers ++ own ++ peer ++ identifier ++ secret) × (length own ≡ 40) × (length peer ≡ 40) × (length identifier ≡ 18) × (length secret ≡ 32) }
{
    let mut bytes = [0u8; PLACE];
    wire::copy(&mut bytes, 0, &numbers);
    wire::copy(&mut bytes, OWN, &own);
    wire::copy(&mut bytes, PEER, &peer);
    wire::copy(&mut bytes, IDENTIFIER, &identifier);
    wire::copy(&mut bytes, SECRET, &secret);
    bytes
}

// A door written over the bytes that stood there: they read as that door, and a flag that they said already stays as it was.
pub fn bytes_of(old: [u8; PLACE], position: Position) -> [u8; PLACE]
    ensures { (result ≡ bytes_of old position) × (position_in result ≡ position) × (length old ≡ door_size) }
{
    let door = position.door;
    let session = door.hand.session;
    let numbers = [
        door.phase,
        flag_over(old[MANDATORY], door.mandatory),
        door.cause.reason,
        door.cause.place,
        door.cause.kind,
        door.role,
        door.tep,
        flag_over(old[RESUMED], door.resumed),
        door.own_length,
        door.peer_length,
        flag_over(old[HELD], door.hand.held),
        session.tep,
        session.role,
        position.count,
        position.rows[0],
        position.rows[1],
        position.rows[2],
        position.rows[3],
    ];
    place_with(
        numbers,
        door.own,
        door.peer,
        session.identifier,
        session.secret,
    )
}
