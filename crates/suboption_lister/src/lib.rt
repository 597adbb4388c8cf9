// All suboptions of an ENO option, listed.
#![tactic(auto)]

ghost use Rattle.std.specs.Prelude.{◌≡◌};
ghost use Rattle.suboption_list.specs.List.{broken_list, list_of};

use suboption::SuboptionAt;
use suboption_list::{MOST, SuboptionItem, SuboptionList};

// The list of an ill-formed option.
fn broken() -> SuboptionList
    ensures { result ≡ broken_list }
{
    let none = suboption_list::global_item(0);
    SuboptionList {
        ill_formed: true,
        count: 0,
        items: [none; MOST],
    }
}

// All suboptions of an option, which stand behind its kind and length byte.
pub fn list(option: &[u8]) -> SuboptionList
    ensures { result ≡ list_of option.now }
{
    if 40 < option.len() {
        return broken();
    }
    let none = suboption_list::global_item(0);
    let mut items = [none; MOST];
    let mut count: usize = 0;
    let mut i = 2;
    loop {
        let p = suboption::suboption_at(option, i);
        match p {
            SuboptionAt::End => {
                return SuboptionList {
                    ill_formed: false,
                    count,
                    items,
                };
            }
            SuboptionAt::IllFormed => {
                return broken();
            }
            SuboptionAt::Global { byte, next } => {
                let one = suboption_list::global_item(byte);
                items[count] = one;
                count += 1;
                i = next;
            }
            SuboptionAt::Tep {
                counted,
                byte,
                start,
                len,
                next,
            } => {
                let from = start as u8;
                let size = len as u8;
                items[count] = SuboptionItem {
                    is_tep: true,
                    counted,
                    byte,
                    start: from,
                    len: size,
                };
                count += 1;
                i = next;
            }
        }
    }
}
