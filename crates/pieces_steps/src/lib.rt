// Steps that every stage of a reader of pieces shares: its numbers set, and waiting for more.
#![tactic(auto)]

ghost use Rattle.std.specs.Prelude.{◌≡◌};
ghost use Rattle.pieces_steps.specs.Numbers.{numbers_as};
ghost use Rattle.pieces_steps.specs.Later.{waiting_of};

use pieces_layout::{Fed, PieceSays};

// The four numbers of a reader; fewer are left as they are.
pub fn set_numbers(numbers: &mut [u64], position: u64, first: u64, second: u64, stage: u64)
    ensures { numbers.new ≡ numbers_as numbers.old position first second stage }
{
    if numbers.len() < 4 {
        return;
    }
    numbers[0] = position;
    numbers[1] = first;
    numbers[2] = second;
    numbers[3] = stage;
}

// Waits for more, with so many bytes used.
pub fn waiting(used: usize) -> Fed
    ensures { result ≡ waiting_of used }
{
    Fed {
        used,
        says: PieceSays::Waiting,
    }
}
