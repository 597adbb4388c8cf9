// Rekeying is initiated.
#![tactic(auto)]

ghost use Rattle.std.specs.Prelude.{◌≡◌, ◌&&◌, not, ltb};
ghost use Rattle.generation.specs.Steps.{Ask, outcome};
ghost use Rattle.generation.specs.Answers.{step_of};

use generation::{GenerationRecord, GenerationRefusal, GenerationStep};

// Whether initiating without data would come before the other side followed.
fn is_unanswered(g: GenerationRecord, has_data: bool) -> bool
    ensures { result ≡ not has_data && ltb g.remote g.local }
{
    !has_data && g.remote < g.local
}

// Initiates rekeying: one more generation, and one frame, with data or without, with FINp or without.
pub fn initiate(
    g: GenerationRecord,
    has_data: bool,
    fin: bool,
) -> Result<GenerationStep, GenerationRefusal>
    ensures { step_of g result ≡ outcome g (Ask.initiate has_data fin) }
{
    if generation_record::is_owed(g) {
        return Err(GenerationRefusal::Owed);
    }
    if 65535 <= g.local {
        return Err(GenerationRefusal::PastLast);
    }
    if g.fin {
        return Err(GenerationRefusal::Finished);
    }
    if is_unanswered(g, has_data) {
        return Err(GenerationRefusal::Unanswered);
    }
    let raised = GenerationRecord {
        local: g.local + 1,
        ..g
    };
    Ok(generation_send::send_one(raised, fin))
}
