// The last valid TEP of host B's option, by what each side sent of each TEP, and the record in hand: what is found. The definitions are in specs/; the crates above have the calls.
#![tactic(auto)]

// The valid TEP that stands last in B's option, of those looked at: where its data starts, and whether a session is resumed.
#[derive(Clone, Copy)]
pub struct Best {
    pub start: usize,
    pub resumed: bool,
}
