// Generations: the steps of a connection's record, by value.
#![tactic(auto)]

ghost use Rattle.std.specs.Prelude.{◌≡◌};
ghost use Rattle.generation.specs.Steps.{Ask, first, owed, outcome};
ghost use Rattle.host_generation_numbers.specs.Replies.{generation_numbers};

use generation::GenerationRecord;
use host_generation_numbers::GenerationNumbers;

// The record of a new connection.
#[unsafe(no_mangle)]
pub extern "C" fn door_link_first_record() -> GenerationRecord
    ensures { result ≡ first }
{
    generation_record::first_record()
}

// Whether a rekey frame is owed.
#[unsafe(no_mangle)]
pub extern "C" fn door_link_is_owed(g: GenerationRecord) -> bool
    ensures { result ≡ owed g }
{
    generation_record::is_owed(g)
}

// Sends one frame, with FINp or without.
#[unsafe(no_mangle)]
pub extern "C" fn door_link_send(g: GenerationRecord, fin: bool) -> GenerationNumbers
    ensures { result ≡ generation_numbers (outcome g (Ask.send fin)) }
{
    let step = generation_send::send(g, fin);
    host_generation_numbers::step_numbers(g, step)
}

// Initiates rekeying: one more generation, and one frame, with data or without, with FINp or without.
#[unsafe(no_mangle)]
pub extern "C" fn door_link_initiate(
    g: GenerationRecord,
    has_data: bool,
    fin: bool,
) -> GenerationNumbers
    ensures { result ≡ generation_numbers (outcome g (Ask.initiate has_data fin)) }
{
    let step = generation_initiate::initiate(g, has_data, fin);
    host_generation_numbers::step_numbers(g, step)
}

// A frame was received, with rekey or without.
#[unsafe(no_mangle)]
pub extern "C" fn door_link_receive_frame(g: GenerationRecord, rekey: bool) -> GenerationNumbers
    ensures { result ≡ generation_numbers (outcome g (Ask.receive rekey)) }
{
    let step = generation_receive::receive(g, rekey);
    host_generation_numbers::step_numbers(g, step)
}
