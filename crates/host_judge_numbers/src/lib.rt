// A judgement in plain numbers.
#![tactic(auto)]

ghost use Rattle.std.specs.Prelude.{◌≡◌, []};
ghost use Rattle.judgement.specs.Answers.{judged_of};
ghost use Rattle.host_judge_numbers.specs.Replies.{judged_numbers};

use host_reply::{ReplyNumbers, flag_number, of_kind, plain_numbers};
use judgement::Verdict;

// What the judge gives back; the transcript is zeros after its own length.
#[repr(C)]
#[derive(Clone, Copy)]
pub struct JudgementNumbers {
    pub reply: ReplyNumbers,
    pub transcript: [u8; 80],
}

// A verdict, with the bytes of its transcript.
pub fn verdict_numbers(verdict: Verdict, length: usize) -> ReplyNumbers
    ensures { result ≡ judged_numbers (judged_of verdict []) length }
{
    match verdict {
        Verdict::Refused => of_kind(0, 2),
        Verdict::Plain(reason) => {
            let cause = judgement::cause_of(reason);
            plain_numbers(cause)
        }
        Verdict::Encrypted { role, tep, resumed } => {
            let again = flag_number(resumed);
            ReplyNumbers {
                number: length,
                kind: 4,
                role,
                tep,
                resumed: again,
                place: 0,
                option: 0,
            }
        }
    }
}
