// Whether a TEP is valid, and in which way, as plainly as document 01 and RFC 8547 (4.5) read: by two lists of suboptions, walked anew for each question.
#![tactic(auto)]

ghost use Rattle.std.specs.Prelude.{◌≡◌, ◌≤◌};
ghost use Rattle.eno.specs.Suboption.{teps};
ghost use Rattle.eno.specs.Session.{in_hand};
ghost use Rattle.eno.specs.Judge.{is_fresh, is_bad, is_resumption, half_of, matches};
ghost use Rattle.eno.specs.Way.{way_as};
ghost use Rattle.judgement.specs.Laws.Found.{sides_of};
ghost use Rattle.suboption_list.specs.List.{sent_of, items_in};
ghost use Rattle.plain_validity.specs.Validity.{sent_from, validity_in};

use eno::{InHand, Tep, Way};
use judgement::of_b;
use suboption_list::{SuboptionItem, SuboptionList};
use suboption_named::{first_named, times};

// Data of a known TEP: v = 0 or under 9 bytes is fresh,
#[tactic(auto, unfolding(eno::specs::Judge::is_fresh))]
fn is_fresh(x: SuboptionItem) -> bool
    ensures { result ≡ is_fresh (sent_of x) }
{
    x.byte < 0x80 || x.len < 9
}

// 9 to 17 bytes is resumption,
#[tactic(auto, unfolding(eno::specs::Judge::is_resumption))]
fn is_resumption(x: SuboptionItem) -> bool
    ensures { result ≡ is_resumption (sent_of x) }
{
    !is_fresh(x) && x.len < 18
}

// 18 or more is bad.
#[tactic(auto, unfolding(eno::specs::Judge::is_bad))]
fn is_bad(x: SuboptionItem) -> bool
    ensures { result ≡ is_bad (sent_of x) }
{
    !is_fresh(x) && 18 <= x.len
}

// Where the half that this end sends begins in the identifier of a record: original role A sends bytes 0 to 8, B 9 to 17.
fn sent_from(role: u8) -> usize
    ensures { (result ≡ sent_from role) × (result ≤ 9) }
{
    if role == 0 { 0 } else { 9 }
}

// Whether the record in hand is of the TEP t, its sent half is this end's own and its expected half is the other side's.
fn is_match<'a>(
    own: &'a [u8],
    peer: &'a [u8],
    hand: InHand,
    t: u8,
    mine: SuboptionItem,
    theirs: SuboptionItem,
) -> bool
    ensures { result ≡ matches (in_hand hand) t (half_of own.now (sent_of mine)) (half_of peer.now (sent_of theirs)) }
{
    let session = hand.session;
    let sent = sent_from(session.role);
    let expected = 9 - sent;
    let in_own = mine.start as usize;
    let in_peer = theirs.start as usize;
    if !hand.held || session.tep != t {
        return false;
    }
    wire::stands_at(own, in_own, &session.identifier[sent..sent + 9])
        && wire::stands_at(peer, in_peer, &session.identifier[expected..expected + 9])
}

// Whether the TEP t is valid, and in which way: by the two options, what is listed of each, and the record in hand.
pub fn way_of<'a>(
    own: &'a [u8],
    peer: &'a [u8],
    hand: InHand,
    own_is_b: bool,
    ours: SuboptionList,
    others: SuboptionList,
    t: u8,
) -> Option<Way>
    ensures { way_as result ≡ validity_in (sides_of (in_hand hand) own.now peer.now own_is_b) (teps (items_in ours)) (teps (items_in others)) t }
{
    // The unit knows it, and each side sent it exactly once,
    if Tep::of(t).is_none() || times(ours, t) != 1 || times(others, t) != 1 {
        return None;
    }
    let mine = first_named(ours, t);
    let theirs = first_named(others, t);
    // neither is bad,
    if is_bad(mine) || is_bad(theirs) {
        return None;
    }
    // and either B's is fresh, whatever A's is,
    if is_fresh(of_b(own_is_b, mine, theirs)) {
        return Some(Way::Fresh);
    }
    // or both are resumption and the record in hand matches.
    if is_resumption(mine) && is_resumption(theirs) && is_match(own, peer, hand, t, mine, theirs) {
        Some(Way::Resumed)
    } else {
        None
    }
}
