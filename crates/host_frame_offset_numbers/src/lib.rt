// What the calls that give an offset answer, in plain numbers.
#![tactic(auto)]

ghost use Rattle.std.specs.Prelude.{◌≡◌};
ghost use Rattle.frame_layout.specs.Answers.{next_reply, written_reply};
ghost use Rattle.host_frame_numbers.specs.Replies.{frame_numbers};

use frame::HeaderWriteRefusal;
use host_reply::{ReplyNumbers, of_kind};

// A function: an `impl From` would say the same clause once more, as `from_gives`, and be no plainer.
#[tactic(auto, unfolding(host_frame_numbers::specs::Replies::frame_numbers))]
pub fn next_numbers(next: Option<u64>) -> ReplyNumbers
    ensures { result ≡ frame_numbers (next_reply next) }
{
    match next {
        Some(offset) => of_kind(11, offset as usize),
        None => of_kind(0, 11),
    }
}

#[tactic(auto, unfolding(host_frame_numbers::specs::Replies::frame_numbers))]
pub fn written_numbers(written: Result<u64, HeaderWriteRefusal>) -> ReplyNumbers
    ensures { result ≡ frame_numbers (written_reply written) }
{
    match written {
        Ok(offset) => of_kind(11, offset as usize),
        Err(HeaderWriteRefusal::NoRoom) => of_kind(0, 5),
        Err(HeaderWriteRefusal::NoFrame) => of_kind(0, 11),
    }
}
