// Rekeying: a frame was received.
#![tactic(auto)]

ghost use Rattle.std.specs.Prelude.{◌≡◌};
ghost use Rattle.generation.specs.Steps.{Ask, outcome};
ghost use Rattle.generation.specs.Answers.{step_of};

use generation::{GenerationRecord, GenerationRefusal, GenerationReply, GenerationStep};

// A frame was received, with rekey or without.
pub fn receive(g: GenerationRecord, rekey: bool) -> Result<GenerationStep, GenerationRefusal>
    ensures { step_of g result ≡ outcome g (Ask.receive rekey) }
{
    if !rekey {
        return Ok(GenerationStep {
            next: g,
            reply: GenerationReply::Received(g.remote),
        });
    }
    if 65535 <= g.remote {
        return Err(GenerationRefusal::PastLast);
    }
    let remote = g.remote + 1;
    let local = if g.local < remote { remote } else { g.local };
    Ok(GenerationStep {
        next: GenerationRecord { local, remote, ..g },
        reply: GenerationReply::Received(remote),
    })
}
