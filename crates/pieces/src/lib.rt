// A reader of messages in pieces: it is started, and fed with pieces.
#![tactic(auto)]

ghost use Rattle.std.specs.Prelude.{◌≡◌};
ghost use Rattle.pieces_layout.specs.Reader.{reader_of};
ghost use Rattle.pieces_layout.specs.Step.{fed};
ghost use Rattle.pieces_layout.specs.Answers.{taken_of};

use pieces_layout::{Fed, PieceSays};
pub use pieces_start::{start_frames, start_init1, start_init2};

// Takes bytes of a piece up to the last of the first item that they finish.
pub fn feed(numbers: &mut [u64], gathered: &mut [u8], piece: &[u8]) -> Fed
    ensures { taken_of result numbers.new gathered.new ≡ fed (reader_of numbers.old gathered.old) piece.now }
{
    if numbers.len() < 4 {
        return Fed {
            used: 0,
            says: PieceSays::NoRoom,
        };
    }
    let stage = numbers[3];
    if stage == 4 {
        return pieces_init::feed_init1(numbers, gathered, piece);
    }
    if stage == 5 {
        return pieces_init::feed_init2(numbers, gathered, piece);
    }
    pieces_frames::feed_frames(numbers, piece)
}
