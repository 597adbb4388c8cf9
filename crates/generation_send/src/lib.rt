// Rekeying: a frame is sent.
#![tactic(auto)]

ghost use Rattle.std.specs.Prelude.{◌≡◌, Ok};
ghost use Rattle.generation.specs.Steps.{Ask, sending, outcome};
ghost use Rattle.generation.specs.Answers.{step_of};

use generation::{GenerationRecord, GenerationRefusal, GenerationReply, GenerationStep};

// One frame is sent; FINp was not sent before.
#[tactic(auto, using(crate::proofs::Ways::one_fits, crate::proofs::Ways::one_is))]
pub fn send_one(g: GenerationRecord, fin: bool) -> GenerationStep
    ensures { step_of g (Ok result) ≡ sending g fin }
{
    let rekey = g.last < g.local;
    let generation = g.last + u16::from(rekey);
    GenerationStep {
        next: GenerationRecord {
            last: generation,
            fin,
            ..g
        },
        reply: GenerationReply::Sent { generation, rekey },
    }
}

// Sends one frame, with FINp or without.
pub fn send(g: GenerationRecord, fin: bool) -> Result<GenerationStep, GenerationRefusal>
    ensures { step_of g result ≡ outcome g (Ask.send fin) }
{
    if g.fin {
        return Err(GenerationRefusal::Finished);
    }
    Ok(send_one(g, fin))
}
