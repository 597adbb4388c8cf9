// Rekeying on a record that is lent: the steps of crate `generation`, each changing the connection's record in place.
#![tactic(auto)]

ghost use Rattle.std.specs.Prelude.{◌≡◌};
ghost use Rattle.generation.specs.Steps.{Ask, outcome};
ghost use Rattle.generation.specs.Answers.{lent};

use generation::{GenerationRecord, GenerationRefusal, GenerationReply};
use generation_initiate::initiate;
use generation_receive::receive;
use generation_send::send;

// The three functions share three lines: one function that takes the step as a closure would need a clause on the closure and one by `post`, and be no plainer.

// Sends one frame of the connection whose record is lent.
pub fn send_frame(g: &mut GenerationRecord, fin: bool) -> Result<GenerationReply, GenerationRefusal>
    ensures { lent result g.new ≡ outcome g.old (Ask.send fin) }
{
    let sent = send(*g, fin)?;
    *g = sent.next;
    Ok(sent.reply)
}

// Initiates rekeying in the connection whose record is lent.
pub fn initiate_rekey(
    g: &mut GenerationRecord,
    has_data: bool,
    fin: bool,
) -> Result<GenerationReply, GenerationRefusal>
    ensures { lent result g.new ≡ outcome g.old (Ask.initiate has_data fin) }
{
    let initiated = initiate(*g, has_data, fin)?;
    *g = initiated.next;
    Ok(initiated.reply)
}

// A frame was received in the connection whose record is lent.
pub fn receive_frame(
    g: &mut GenerationRecord,
    rekey: bool,
) -> Result<GenerationReply, GenerationRefusal>
    ensures { lent result g.new ≡ outcome g.old (Ask.receive rekey) }
{
    let received = receive(*g, rekey)?;
    *g = received.next;
    Ok(received.reply)
}
