// The last of a list of suboptions.
#![tactic(auto)]

ghost use Rattle.std.specs.Prelude.{◌≡◌};
ghost use Rattle.suboption_list.specs.List.{last_item};

use suboption_list::{MOST, SuboptionItem, SuboptionList};

// The last of a list; the global byte 0 where it is empty.
pub fn last_item(list: SuboptionList) -> SuboptionItem
    ensures { result ≡ last_item list }
{
    if list.count == 0 {
        return suboption_list::global_item(0);
    }
    if MOST < list.count {
        return list.items[37];
    }
    let k = list.count - 1;
    list.items[k]
}
