// Resend of one door: the option that it sent, once more. Total for every door and every buffer.
#![tactic(auto)]

ghost use Rattle.std.specs.Prelude.{◌≡◌, []};
ghost use Rattle.door.specs.Outcome.{keep};
ghost use Rattle.door.specs.Receive.{may_send, resend};
ghost use Rattle.door.specs.Answers.{phase_as, reply_of, outcome_as};

use door::{Door, Phase, Refusal, Reply};

fn may_send(phase: Phase) -> bool
    ensures { result ≡ may_send (phase_as phase) }
{
    matches!(phase, Phase::Offered | Phase::Crossed | Phase::Answered)
}

// Writes the option that this door sent once more.
pub fn resend(door: Door, out: &mut [u8]) -> Result<Reply, Refusal>
    ensures { outcome_as (reply_of result []) out.new door keep ≡ resend door out.old }
{
    if !may_send(door_data::phase_of(door.phase)) {
        return Err(Refusal::OutOfTurn);
    }
    // A copy of these 40 bytes, so that the whole door need not lie in memory.
    let bytes = door.own;
    let own = &bytes[..door_data::kept_length(door.own_length)];
    if out.len() < own.len() {
        return Err(Refusal::NoRoom);
    }
    wire::copy(out, 0, own);
    Ok(Reply::Written(own.len()))
}
