// Store of one door: a record more.
#![tactic(auto)]

ghost use Rattle.std.specs.Prelude.{◌≡◌, length};
ghost use Rattle.door.specs.Door.{seen_of};
ghost use Rattle.door.specs.Records as records;
ghost use Rattle.records.specs.Answers.{StoresAs};

use door::{EACH, Refusal, View};
use door_search::Sought;
use eno::SessionRecord;

// Bytes as an array: an identifier or a secret.
fn array_of<const N: usize>(s: &[u8]) -> [u8; N]
    requires { length s.now ≡ N }
    ensures { result ≡ s.now }
{
    let mut bytes = [0; N];
    bytes.copy_from_slice(s);
    bytes
}

// Gives the record to add to the door; `free`: whether the unit has a row for it.
pub fn store(
    view: View,
    free: bool,
    tep: u8,
    role: u8,
    identifier: &[u8],
    secret: &[u8],
) -> Result<SessionRecord, Refusal>
    ensures { StoresAs result view.door (records.store free (seen_of view) tep role identifier.now secret.now) }
{
    if !record_tests::is_record(tep, role, identifier, secret) {
        return Err(Refusal::Unfit);
    }
    let count = door_counts::held_count(view);
    if EACH <= count || !free {
        return Err(Refusal::Full);
    }
    let first = door_search::first_sought(view, Sought::Named { tep }, identifier);
    if first < count || record_tests::is_in_hand(view.door.hand, tep, identifier) {
        return Err(Refusal::AlreadyHeld);
    }
    Ok(SessionRecord {
        tep,
        role,
        identifier: array_of(identifier),
        secret: array_of(secret),
    })
}
