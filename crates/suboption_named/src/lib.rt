// The TEPs of one name in a list of suboptions: how often, and the first.
#![tactic(auto)]

ghost use Rattle.std.specs.Prelude.{◌≡◌, cond, length};
ghost use Rattle.eno.specs.Suboption.{teps};
ghost use Rattle.eno.specs.Judge.{named};
ghost use Rattle.suboption_list.specs.List.{is_named, items_in, first_item};

use suboption_list::{MOST, SuboptionItem, SuboptionList};

// Whether a suboption is the TEP t.
fn is_named(s: SuboptionItem, t: u8) -> bool
    ensures { result ≡ is_named s t }
{
    if !s.is_tep {
        return false;
    }
    s.byte % 128 == t
}

fn one_if(b: bool) -> usize
    ensures { result ≡ cond b 1 0 }
{
    if b { 1 } else { 0 }
}

// How often the TEP t was sent.
pub fn times(list: SuboptionList, t: u8) -> usize
    ensures { result ≡ length (named t (teps (items_in list))) }
{
    let mut n: usize = 0;
    let mut i = 0;
    while i < MOST {
        if list.count <= i {
            return n;
        }
        let s = list.items[i];
        let more = one_if(is_named(s, t));
        n += more;
        i += 1;
    }
    n
}

// The TEP t as it was first sent; the global byte 0 where it was not.
pub fn first_named(list: SuboptionList, t: u8) -> SuboptionItem
    ensures { result ≡ first_item (named t (teps (items_in list))) }
{
    let mut i = 0;
    while i < MOST {
        if list.count <= i {
            return suboption_list::global_item(0);
        }
        let s = list.items[i];
        if is_named(s, t) {
            return s;
        }
        i += 1;
    }
    suboption_list::global_item(0)
}
