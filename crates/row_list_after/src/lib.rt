// A door's list of rows after a change: with one row more, or without one that is freed.
#![tactic(auto)]

ghost use Rattle.std.specs.Prelude.{◌<◌, ◌≤◌, ◌≡◌, [], ◌∷◌, ◌++◌, length};
ghost use Rattle.door.specs.Numbers.{each_n};
ghost use Rattle.door.specs.Calls.{cut};
ghost use Rattle.row_list.specs.Listed.{shorter, listing_of};

use door::{Change, EACH};
use row_list::{Listing, RowMark};
use unit::Position;

const LAST: usize = EACH - 1;

// The numbers without the j-th: those after it move up, and a zero follows.
fn closed_up(numbers: [u8; EACH], j: usize) -> [u8; EACH]
    requires { j < each_n }
    ensures { result ≡ cut j numbers ++ 0 ∷ [] }
{
    let mut left = numbers;
    // The library's `rotate_left` is C's memmove, which the header of the library for hosts does not ask of a host.
    for k in j..LAST {
        left[k] = numbers[k + 1];
    }
    left[LAST] = 0;
    left
}

// The list without its j-th row, which is freed; a row that is not listed does not fit.
fn without_record(n: usize, numbers: [u8; EACH], j: usize) -> Option<Listing>
    requires { n ≤ each_n }
    ensures { result ≡ shorter numbers n j }
{
    if n <= j {
        return None;
    }
    let row = numbers[j] as usize;
    let left = closed_up(numbers, j);
    Some(Listing {
        mark: Some(RowMark { row, used: false }),
        count: (n - 1) as u8,
        numbers: left,
    })
}

// A door's list after a change: `free` is the row for a record that is added.
pub fn list_after(position: Position, change: Change, free: usize) -> Option<Listing>
    ensures { (result ≡ listing_of position free change) × (length position.rows ≡ each_n) }
{
    let n = row_list::count_of(position);
    let numbers = position.rows;
    match change {
        Change::Keep => Some(Listing {
            mark: None,
            count: position.count,
            numbers,
        }),
        Change::Add => row_list_longer::with_record(n, numbers, free),
        Change::Remove(j) => without_record(n, numbers, j),
    }
}
