// The unit as a whole, exported: the number of this interface, the unit's size, and erase, over arrays that the host lends.
#![tactic(auto)]

ghost use Rattle.std.specs.Prelude.{◌+◌, ◌*◌, ◌≡◌, []};
ghost use Rattle.unit.specs.Numbers.{doors_n, rows_n, words_n};
ghost use Rattle.unit.specs.Run.{step};
ghost use Rattle.unit.specs.Run as run;
ghost use Rattle.unit_bytes.specs.Layout.{word_size, row_size, door_size};
ghost use Rattle.unit_bytes.specs.Content.{unit_in};
ghost use Rattle.pool.specs.Placed.{Erased};
ghost use Rattle.host_step.specs.Replies.{Gives};

use host_numbers::reply_numbers;
use host_reply::ReplyNumbers;
use link_unit::{DOORS, PLACE, ROW, ROWS, WORD, WORDS};

const UNIT_SIZE: usize = WORDS * WORD + ROWS * ROW + DOORS * PLACE;

// The number of this interface, which its name carries: a host built for another does not link.
#[unsafe(no_mangle)]
pub extern "C" fn door_link_abi_6() -> usize
    ensures { result ≡ 6 }
{
    6
}

// The bytes of the three arrays: words of marks, rows and doors.
#[unsafe(no_mangle)]
pub extern "C" fn door_link_unit_size() -> usize
    ensures { result ≡ words_n * word_size + rows_n * row_size + doors_n * door_size }
{
    UNIT_SIZE
}

// Empties the whole unit, whatever its bytes are: all doors Idle, no record held or in hand, every byte zero.
#[unsafe(no_mangle)]
pub extern "C" fn door_link_erase(
    marks: &mut [u32; WORDS],
    rows: &mut [[u8; ROW]; ROWS],
    doors: &mut [[u8; PLACE]; DOORS],
) -> ReplyNumbers
    ensures { (Gives result [] (unit_in marks.new rows.new doors.new) (step (unit_in marks.old rows.old doors.old) run.erase)) × Erased marks.new rows.new doors.new }
{
    let told = link_unit::erase(marks, rows, doors);
    reply_numbers(told)
}
