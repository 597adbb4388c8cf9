// A step of a generation record in plain numbers.
#![tactic(auto)]

ghost use Rattle.std.specs.Prelude.{◌≡◌, Ok, Err};
ghost use Rattle.generation.specs.Steps.{refused};
ghost use Rattle.generation.specs.Answers.{reply_of, step_of};
ghost use Rattle.host_generation_numbers.specs.Replies.{generation_numbers, refused_step, step_numbers};

use generation::{GenerationRecord, GenerationRefusal, GenerationReply, GenerationStep};
use host_reply::flag_number;

// A step: the record afterwards, and the reply.
#[repr(C)]
#[derive(Clone, Copy)]
pub struct GenerationNumbers {
    pub next: GenerationRecord,
    // The generation of the frame, or the refusal's number.
    pub number: u16,
    // 0 refused, 15 a frame is sent, 16 a frame came.
    pub kind: u8,
    // 1 where the frame that is sent carries rekey.
    pub rekey: u8,
}

// A refusal.
fn refused_step(number: u16, next: GenerationRecord) -> GenerationNumbers
    ensures { result ≡ refused_step number next }
{
    GenerationNumbers {
        next,
        number,
        kind: 0,
        rekey: 0,
    }
}

// The number of a refusal.
fn number_of(refusal: GenerationRefusal) -> u16
    ensures { refused result ≡ reply_of (Err refusal) }
{
    match refusal {
        GenerationRefusal::Owed => 4,
        GenerationRefusal::PastLast => 13,
        GenerationRefusal::Finished => 14,
        GenerationRefusal::Unanswered => 15,
    }
}

// A step that was made.
#[tactic(auto, unfolding(crate::specs::Replies::step_numbers))]
fn made_step(step: GenerationStep) -> GenerationNumbers
    ensures { result ≡ step_numbers (reply_of (Ok step.reply)) step.next }
{
    let next = step.next;
    match step.reply {
        GenerationReply::Sent { generation, rekey } => GenerationNumbers {
            next,
            number: generation,
            kind: 15,
            rekey: flag_number(rekey),
        },
        GenerationReply::Received(generation) => GenerationNumbers {
            next,
            number: generation,
            kind: 16,
            rekey: 0,
        },
    }
}

// A function: an `impl From` would say the same clause once more, as `from_gives`, and be no plainer.
// The reply of a step on a record, and the record afterwards.
#[tactic(auto, unfolding(crate::specs::Replies::step_numbers, crate::specs::Replies::generation_numbers))]
pub fn step_numbers(
    g: GenerationRecord,
    step: Result<GenerationStep, GenerationRefusal>,
) -> GenerationNumbers
    ensures { result ≡ generation_numbers (step_of g step) }
{
    match step {
        Ok(made) => made_step(made),
        Err(refusal) => refused_step(number_of(refusal), g),
    }
}
