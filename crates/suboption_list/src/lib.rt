// A list of the suboptions of an ENO option. The definitions and laws are in specs/; the crates above make the list and answer the questions that are asked of it, for every list.
#![tactic(auto)]

ghost use Rattle.std.specs.Prelude.{◌≡◌};
ghost use Rattle.eno.specs.Suboption.{global};
ghost use Rattle.suboption_list.specs.List.{item_of};

// An option of 40 bytes has 38 bytes for suboptions.
pub const MOST: usize = 38;

// A suboption: a global byte, or a TEP with its byte, whether a length byte stands before it, and where its data stands in the option.
#[derive(Clone, Copy)]
pub struct SuboptionItem {
    pub is_tep: bool,
    pub counted: bool,
    pub byte: u8,
    pub start: u8,
    pub len: u8,
}

// The suboptions of an option, in its order; behind the count the global byte 0.
#[derive(Clone, Copy)]
pub struct SuboptionList {
    pub ill_formed: bool,
    pub count: usize,
    pub items: [SuboptionItem; MOST],
}

// A global suboption.
pub fn global_item(byte: u8) -> SuboptionItem
    ensures { result ≡ item_of (global byte) }
{
    SuboptionItem {
        is_tep: false,
        counted: false,
        byte,
        start: 0,
        len: 0,
    }
}
