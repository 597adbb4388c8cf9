// Tests on session records: whether bytes are a record's parts, and whether a record has a name or a door has it in hand.
#![tactic(auto)]

ghost use Rattle.std.specs.Prelude.{◌≡◌};
ghost use Rattle.eno.specs.Session.{in_hand};
ghost use Rattle.door.specs.Record.{is_session};
ghost use Rattle.door.specs.Records.{is_in_hand, is_record};
ghost use Rattle.record_tests.specs.Steps.{is_named};

use eno::{InHand, SessionRecord, Tep};

// Whether a record has this TEP and this identifier.
#[tactic(auto, unfolding(door::specs::Record::is_session))]
pub fn is_session(session: SessionRecord, tep: u8, identifier: &[u8]) -> bool
    ensures { result ≡ is_session tep identifier.now session }
{
    session.tep == tep && wire::same(&session.identifier, identifier)
}

// Whether the record in hand, if there is one, has this TEP and this identifier.
#[tactic(auto, unfolding(eno::specs::Session::in_hand))]
pub fn is_in_hand(hand: InHand, tep: u8, identifier: &[u8]) -> bool
    ensures { result ≡ is_in_hand tep identifier.now (in_hand hand) }
{
    hand.held && is_session(hand.session, tep, identifier)
}

// Whether a session may have this TEP and this identifier.
#[tactic(auto, unfolding(crate::specs::Steps::is_named))]
pub fn is_named(tep: u8, identifier: &[u8]) -> bool
    ensures { result ≡ is_named tep identifier.now }
{
    Tep::of(tep).is_some() && identifier.len() == 18
}

// Whether these are the parts of a record.
#[tactic(auto, unfolding(crate::specs::Steps::is_named, door::specs::Records::is_record))]
pub fn is_record(tep: u8, role: u8, identifier: &[u8], secret: &[u8]) -> bool
    ensures { result ≡ is_record tep role identifier.now secret.now }
{
    is_named(tep, identifier) && role <= 1 && secret.len() == 32
}
