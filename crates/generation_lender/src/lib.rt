// Rekeying by a holder of the record: each step lends it by `&mut` to the function of crate `generation_lent` and gives back the record as that leaves it, with the answer.
#![tactic(auto)]

ghost use Rattle.std.specs.Prelude.{◌≡◌};
ghost use Rattle.generation.specs.Steps.{Ask, outcome};
ghost use Rattle.generation.specs.Answers.{lent};

use generation::{GenerationRecord, GenerationRefusal, GenerationReply};
use generation_lent::{initiate_rekey, receive_frame, send_frame};

// The record as a step on it left it, lent, with the step's answer.
#[derive(Clone, Copy, Debug, PartialEq, Eq)]
pub struct Returned {
    pub next: GenerationRecord,
    pub reply: Result<GenerationReply, GenerationRefusal>,
}

// The three functions share two lines: one function that takes the step as a closure would need a clause on the closure and one by `post`, and be no plainer.

// Lends the record to `send_frame`.
pub fn lend_to_send(mut g: GenerationRecord, fin: bool) -> Returned
    ensures { lent result.reply result.next ≡ outcome g (Ask.send fin) }
{
    let reply = send_frame(&mut g, fin);
    Returned { next: g, reply }
}

// Lends the record to `initiate_rekey`.
pub fn lend_to_initiate(mut g: GenerationRecord, has_data: bool, fin: bool) -> Returned
    ensures { lent result.reply result.next ≡ outcome g (Ask.initiate has_data fin) }
{
    let reply = initiate_rekey(&mut g, has_data, fin);
    Returned { next: g, reply }
}

// Lends the record to `receive_frame`.
pub fn lend_to_receive(mut g: GenerationRecord, rekey: bool) -> Returned
    ensures { lent result.reply result.next ≡ outcome g (Ask.receive rekey) }
{
    let reply = receive_frame(&mut g, rekey);
    Returned { next: g, reply }
}
