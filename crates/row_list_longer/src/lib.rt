// A door's list of rows with one row more.
#![tactic(auto)]

ghost use Rattle.std.specs.Prelude.{◌<◌, ◌≡◌};
ghost use Rattle.row_list.specs.Listed.{longer};

use door::EACH;
use row_list::{Listing, RowMark};
use unit::ROWS;

// The list with one row more, last; a full list, or no free row, does not fit.
pub fn with_record(n: usize, numbers: [u8; EACH], row: usize) -> Option<Listing>
    ensures { result ≡ longer numbers n row }
{
    if n >= EACH || row >= ROWS {
        return None;
    }
    let mut listed = numbers;
    listed[n] = row as u8;
    Some(Listing {
        mark: Some(RowMark { row, used: true }),
        count: (n + 1) as u8,
        numbers: listed,
    })
}
