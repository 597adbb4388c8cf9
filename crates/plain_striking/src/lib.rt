// Strike the suboptions that are not valid from a list.
#![tactic(auto)]

ghost use Rattle.std.specs.Prelude.{◌≡◌, map, ◌≤◌};
ghost use Rattle.eno.specs.Suboption.{tep, teps};
ghost use Rattle.eno.specs.Session.{in_hand};
ghost use Rattle.judgement.specs.Laws.Found.{sides_of};
ghost use Rattle.suboption_list.specs.List.{items_in, list_with};
ghost use Rattle.plain_validity.specs.Validity.{validity_in};
ghost use Rattle.plain_striking.specs.Striking.{struck};
ghost use Rattle.plain_striking.specs.Stays.{stays};

use eno::InHand;
use suboption_list::{SuboptionItem, SuboptionList};

// Whether a suboption stays: it is a TEP, and valid.
fn is_valid<'a>(
    x: SuboptionItem,
    own: &'a [u8],
    peer: &'a [u8],
    hand: InHand,
    own_is_b: bool,
    ours: SuboptionList,
    others: SuboptionList,
) -> bool
    ensures { result ≡ stays (validity_in (sides_of (in_hand hand) own.now peer.now own_is_b) (teps (items_in ours)) (teps (items_in others))) x }
{
    if !x.is_tep {
        return false;
    }
    let t = x.byte % 128;
    let way = plain_validity::way_of(own, peer, hand, own_is_b, ours, others, t);
    way.is_some()
}

// A list without the suboptions that are not valid.
pub fn strike<'a>(
    list: SuboptionList,
    own: &'a [u8],
    peer: &'a [u8],
    hand: InHand,
    own_is_b: bool,
    ours: SuboptionList,
    others: SuboptionList,
) -> SuboptionList
    ensures { (result ≡ list_with (map tep (struck (validity_in (sides_of (in_hand hand) own.now peer.now own_is_b) (teps (items_in ours)) (teps (items_in others))) (teps (items_in list))))) × (result.count ≤ 38) }
{
    let none = suboption_list::global_item(0);
    let mut items = [none; 38];
    let mut count: usize = 0;
    let mut i = 0;
    while i < 38 {
        if list.count <= i {
            return SuboptionList {
                ill_formed: false,
                count,
                items,
            };
        }
        let x = list.items[i];
        let next = i + 1;
        if is_valid(x, own, peer, hand, own_is_b, ours, others) {
            items[count] = x;
            count += 1;
        }
        i = next;
    }
    SuboptionList {
        ill_formed: false,
        count,
        items,
    }
}
