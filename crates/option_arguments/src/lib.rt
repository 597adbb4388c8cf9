// The arguments of an option that is written: its TEP list, the record in hand, the role and the nonce.
#![tactic(auto)]

ghost use Rattle.std.specs.Prelude.{◌≡◌};
ghost use Rattle.eno.specs.Session.{in_hand};
ghost use Rattle.eno.specs.Option.{is_listed, known_once, is_tep_list, record_listed, offer_fits};

use eno::{InHand, Tep};

// Whether t is one of a list.
pub fn is_listed(t: u8, list: &[u8]) -> bool
    ensures { result ≡ is_listed t list.now }
{
    // At most four are listed: the library's `contains`, which looks at sixteen bytes at once, is a call that costs more than they do.
    for listed in list {
        if *listed == t {
            return true;
        }
    }
    false
}

// Whether each of a list is a TEP that the unit knows, and none is repeated.
#[tactic(auto, unfolding(eno::specs::Option::known_once))]
fn known_once(list: &[u8]) -> bool
    ensures { result ≡ known_once list.now }
{
    match list {
        [t, rest @ ..] => Tep::of(*t).is_some() && !is_listed(*t, rest) && known_once(rest),
        [] => true,
    }
}

// Whether a list is one to four TEPs that the unit knows, none repeated.
#[tactic(auto, unfolding(eno::specs::Option::is_tep_list))]
pub fn is_tep_list(list: &[u8]) -> bool
    ensures { result ≡ is_tep_list list.now }
{
    matches!(list.len(), 1..=4) && known_once(list)
}

// Whether the record in hand, if there is one, is of a listed TEP.
#[tactic(auto, unfolding(eno::specs::Option::record_listed, eno::specs::Session::in_hand))]
fn record_listed(hand: InHand, list: &[u8]) -> bool
    ensures { result ≡ record_listed (in_hand hand) list.now }
{
    !hand.held || is_listed(hand.session.tep, list)
}

// Whether an offer's arguments fit: the role, the TEP list, the record in hand and the nonce.
#[tactic(auto, unfolding(eno::specs::Option::offer_fits))]
pub fn offer_fits(b: u8, list: &[u8], hand: InHand, nonce: &[u8]) -> bool
    ensures { result ≡ offer_fits b list.now (in_hand hand) nonce.now }
{
    b <= 1 && is_tep_list(list) && nonce.len() <= 8 && record_listed(hand, list)
}
