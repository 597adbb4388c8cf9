// The last valid TEP of host B's option.
#![tactic(auto)]

ghost use Rattle.std.specs.Prelude.{◌≡◌};
ghost use Rattle.eno.specs.Session.{in_hand};
ghost use Rattle.eno.specs.Way.{way_as};
ghost use Rattle.valid_tep.specs.Best.{better_of, best_of};

use eno::{InHand, Way};
use judgement::{of_a, of_b};
use suboptions::Entry;
use valid_tep::Best;

// The best so far, after one more TEP: valid in a way, if it is, with its data from `start` on.
#[tactic(auto, unfolding(valid_tep::specs::Best::better_of, valid_tep::specs::Best::is_later, valid_tep::specs::Best::resumed_by))]
fn better_of(best: Option<Best>, way: Option<Way>, start: usize) -> Option<Best>
    ensures { result ≡ better_of best (way_as way) start }
{
    let Some(way) = way else {
        return best;
    };
    match best {
        Some(x) if start <= x.start => best,
        _ => Some(Best {
            start,
            resumed: way == Way::Resumed,
        }),
    }
}

// The last valid TEP of B's option is the valid one with the largest start.
pub fn best_of<'a>(
    a: &'a [u8],
    b: &'a [u8],
    hand: InHand,
    own_is_b: bool,
    own: [Entry; 4],
    peer: [Entry; 4],
) -> Option<Best>
    ensures { result ≡ best_of a.now b.now (in_hand hand) own_is_b own peer }
{
    let mut best = None;
    for t in 0x21u8..0x25 {
        let k = (t - 0x21) as usize;
        let in_a = of_a(own_is_b, own[k], peer[k]);
        let in_b = of_b(own_is_b, own[k], peer[k]);
        let way = valid_tep_way::way_of(a, b, hand, own_is_b, t, in_a, in_b);
        best = better_of(best, way, in_b.start as usize);
    }
    best
}
