// What the calls on plaintexts give, in plain numbers.
#![tactic(auto)]

ghost use Rattle.std.specs.Prelude.{◌≡◌};
ghost use Rattle.frame_layout.specs.Answers.{plaintext_written_reply, plaintext_told};
ghost use Rattle.host_frame_numbers.specs.Replies.{frame_numbers, plaintext_numbers};

use frame::{Plaintext, PlaintextWriteRefusal, TooShort};
use host_frame_numbers::PlaintextNumbers;
use host_reply::{ReplyNumbers, flag_number, of_kind};

// A function: an `impl From` would say the same clause once more, as `from_gives`, and be no plainer.
#[tactic(auto, unfolding(host_frame_numbers::specs::Replies::frame_numbers))]
pub fn plaintext_written_numbers(written: Result<usize, PlaintextWriteRefusal>) -> ReplyNumbers
    ensures { result ≡ frame_numbers (plaintext_written_reply written) }
{
    match written {
        Ok(length) => of_kind(1, length),
        Err(PlaintextWriteRefusal::NoRoom) => of_kind(0, 5),
        Err(PlaintextWriteRefusal::TooLong) => of_kind(0, 11),
    }
}

#[tactic(auto, unfolding(host_frame_numbers::specs::Replies::frame_numbers, host_frame_numbers::specs::Replies::plaintext_with, host_frame_numbers::specs::Replies::plaintext_numbers))]
pub fn plaintext_numbers(read: Result<Plaintext, TooShort>) -> PlaintextNumbers
    ensures { result ≡ plaintext_numbers (plaintext_told read) }
{
    match read {
        Ok(plaintext) => PlaintextNumbers {
            number: plaintext.data_at,
            urgent: plaintext.urgent,
            kind: 14,
            fin: flag_number(plaintext.fin),
            urg: flag_number(plaintext.urg),
        },
        Err(TooShort) => PlaintextNumbers {
            number: 12,
            urgent: 0,
            kind: 0,
            fin: 0,
            urg: 0,
        },
    }
}
