// The unit: all doors and one pool of session records. The definitions and theorems are in specs/.
#![tactic(auto)]

use door::{Door, EACH};
use eno::SessionRecord;

pub const DOORS: usize = 48;

pub const ROWS: usize = 192;

// Words of marks, one bit for each row.
pub const WORDS: usize = ROWS / 32;

// A door in the unit: its own data, and the numbers of the rows that it holds, oldest first.
// A count beside a list of fixed length: any bytes that a host lends are a door (`position_in`), and a count above the most reads as the most (`count_of`).
#[repr(C)]
#[derive(Clone, Copy)]
pub struct Position {
    pub door: Door,
    pub count: u8,
    pub rows: [u8; EACH],
}

// Each row of the pool has a mark: bit i % 32, from the lowest, of word i / 32 is row i's, and is set where the row is in use.
#[repr(C)]
#[derive(Clone, Copy)]
pub struct LinkUnit {
    pub marks: [u32; WORDS],
    pub rows: [SessionRecord; ROWS],
    pub doors: [Position; DOORS],
}
