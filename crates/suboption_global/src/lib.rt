// The first global byte of a list of suboptions.
#![tactic(auto)]

ghost use Rattle.std.specs.Prelude.{◌≡◌};
ghost use Rattle.eno.specs.Suboption.{global_byte};
ghost use Rattle.suboption_list.specs.List.{items_in};

use suboption_list::{MOST, SuboptionList};

// The first global byte; none means 0.
pub fn first_global(list: SuboptionList) -> u8
    ensures { result ≡ global_byte (items_in list) }
{
    let mut i = 0;
    while i < MOST {
        if list.count <= i {
            return 0;
        }
        let s = list.items[i];
        if !s.is_tep {
            return s.byte;
        }
        i += 1;
    }
    0
}
