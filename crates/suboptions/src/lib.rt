// The summary of an ENO option: what one walk finds of its suboptions. The definitions and theorems are in specs/; the crates above have the calls.
#![tactic(auto)]

// How often a TEP was sent, and of the last time its byte with v and where its data stands in the option; single bytes, since an option has at most 255.
#[derive(Clone, Copy)]
pub struct Entry {
    pub times: u8,
    pub byte: u8,
    pub start: u8,
    pub len: u8,
}

// What an option says: b, a, and of each TEP from 21 to 24 how it was sent.
#[derive(Clone, Copy)]
pub struct Summary {
    pub ill_formed: bool,
    pub role: u8,
    pub aware: bool,
    pub teps: [Entry; 4],
}
