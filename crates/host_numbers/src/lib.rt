// The unit's replies in plain numbers, for the exported calls.
#![tactic(auto)]

ghost use Rattle.std.specs.Prelude.{◌≡◌, []};
ghost use Rattle.door.specs.Answers.{reply_of};
ghost use Rattle.host_numbers.specs.Replies.{numbers_of};

use door::{Refusal, Reply};
use host_reply::{ReplyNumbers, flag_number, of_kind, plain_numbers};

// Where the numbers of phases begin, as a reply tells them.
const PHASES: usize = 0x1000000;

// A reply of the unit, or its refusal, in plain numbers.
#[tactic(auto, unfolding(crate::specs::Replies::numbers_of, crate::specs::Replies::phase_told))]
pub fn reply_numbers(told: Result<Reply, Refusal>) -> ReplyNumbers
    ensures { result ≡ numbers_of (reply_of told []) }
{
    match told {
        Err(refusal) => of_kind(0, usize::from(refusal.number())),
        Ok(Reply::Written(length)) => of_kind(1, length),
        Ok(Reply::Plain(cause)) => plain_numbers(cause),
        Ok(Reply::Now(phase)) => of_kind(3, PHASES + usize::from(phase.number())),
        Ok(
            Reply::Encrypted {
                role,
                tep,
                resumed,
                length,
            },
        ) => ReplyNumbers {
            number: length,
            kind: 4,
            role,
            tep,
            resumed: flag_number(resumed),
            place: 0,
            option: 0,
        },
        Ok(Reply::Done) => of_kind(5, 0),
        Ok(Reply::Holds(count)) => of_kind(6, count),
    }
}
