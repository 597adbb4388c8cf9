// A door's list of rows: what it is after a change is in specs/; how many rows it lists. Small values only, so that a call copies the unit less often.
#![tactic(auto)]

ghost use Rattle.std.specs.Prelude.{◌≡◌, length};
ghost use Rattle.door.specs.Numbers.{each_n};
ghost use Rattle.unit.specs.Unit.{count_of};

use door::EACH;
use unit::Position;

// The row that a change takes or frees, and whether it is in use then.
#[derive(Clone, Copy)]
pub struct RowMark {
    pub row: usize,
    pub used: bool,
}

// The list after a change that fits, with the row that is taken or freed, if one is.
#[derive(Clone, Copy)]
pub struct Listing {
    pub mark: Option<RowMark>,
    // A count beside a list of fixed length, as in `Position`, whose next list this is.
    pub count: u8,
    pub numbers: [u8; EACH],
}

// How many rows a door lists; its list has a place for each.
pub fn count_of(position: Position) -> usize
    ensures { (result ≡ count_of position) × (length position.rows ≡ each_n) }
{
    door_counts::listed_count(position.count)
}
