// Whether a TEP is valid, by what each side sent of it and the record in hand.
#![tactic(auto)]

ghost use Rattle.std.specs.Prelude.{◌≡◌};
ghost use Rattle.eno.specs.Session.{in_hand};
ghost use Rattle.eno.specs.Way.{way_as};
ghost use Rattle.valid_tep.specs.Best.{way_of_entries};

use eno::{InHand, Way};
use suboption_data::{is_bad, is_fresh};
use suboptions::Entry;

// The way in which the TEP t is valid, if it is, by what A and B sent of it.
pub fn way_of<'a>(
    a: &'a [u8],
    b: &'a [u8],
    hand: InHand,
    own_is_b: bool,
    t: u8,
    of_a: Entry,
    of_b: Entry,
) -> Option<Way>
    ensures { way_as result ≡ way_of_entries a.now b.now (in_hand hand) own_is_b t of_a of_b }
{
    if of_a.times != 1 || of_b.times != 1 || is_bad(of_a) || is_bad(of_b) {
        return None;
    }
    if is_fresh(of_b) {
        return Some(Way::Fresh);
    }
    let in_a = of_a.start as usize;
    let in_b = of_b.start as usize;
    if !is_fresh(of_a) && valid_tep_matching::matches(a, b, hand, own_is_b, t, in_a, in_b) {
        Some(Way::Resumed)
    } else {
        None
    }
}
