// The generation record of a new connection, and whether a rekey frame is owed.
#![tactic(auto)]

ghost use Rattle.std.specs.Prelude.{◌≡◌};
ghost use Rattle.generation.specs.Steps.{first, owed};

use generation::GenerationRecord;

// The record of a new connection.
pub fn first_record() -> GenerationRecord
    ensures { result ≡ first }
{
    GenerationRecord {
        local: 0,
        remote: 0,
        last: 0,
        fin: false,
    }
}

// Whether a rekey frame is owed.
#[tactic(auto, unfolding(generation::specs::Steps::owed, generation::specs::Steps::is_above))]
pub fn is_owed(g: GenerationRecord) -> bool
    ensures { result ≡ owed g }
{
    g.last < g.local && !g.fin
}
