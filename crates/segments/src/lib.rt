// What one door does with a segment that arrives. Total for every door and every argument.
#![tactic(auto)]

ghost use Rattle.std.specs.Prelude.{◌≡◌, cond, Some};
ghost use Rattle.door.specs.Door.{answering, opened};
ghost use Rattle.door.specs.Receive.{comparing, presence, received, receive};
ghost use Rattle.turns.specs.Turns.{turn_as};
ghost use Rattle.segments.specs.Answers.{received_as};

use door::{Door, Refusal, Reply};
use turns::Turn;

// The door afterwards, and what the call replies.
#[derive(Clone, Copy)]
pub struct Received {
    pub door: Door,
    pub reply: Reply,
}

fn after_comparing(door: Door, opens: bool, area: &[u8]) -> Door
    ensures { result ≡ received door (comparing (cond opens opened answering)) area.now }
{
    match plain_reason::second_reason(door, area) {
        None => segment_doors::open_if(opens, door),
        Some(cause) => door_values::plain_door(cause),
    }
}

// A segment without SYN shows that the option arrived, by having one.
fn after_presence(door: Door, area: &[u8]) -> Door
    ensures { result ≡ received door presence area.now }
{
    match plain_reason::absence(area, false) {
        None => segment_doors::open_door(door),
        Some(cause) => door_values::plain_door(cause),
    }
}

// The door after its turn.
#[tactic(auto, unfolding(door::specs::Receive::received))]
fn after_turn(door: Door, turn: Turn, area: &[u8]) -> Door
    ensures { result ≡ received door (turn_as (Some turn)) area.now }
{
    match turn {
        Turn::Judging { opens } => segment_judging::after_judging(door, opens, area),
        Turn::Comparing { opens } => after_comparing(door, opens, area),
        Turn::Presence => after_presence(door, area),
        Turn::Unchanged => door,
    }
}

// A segment with its SYN and ACK flags and its option area.
pub fn receive(door: Door, syn: bool, ack: bool, area: &[u8]) -> Result<Received, Refusal>
    ensures { received_as result door ≡ receive door syn ack area.now }
{
    if 40 < area.len() {
        return Err(Refusal::AreaTooLong);
    }
    let phase = door_data::phase_of(door.phase);
    let turn = turns::turn_of(phase, syn, ack).ok_or(Refusal::OutOfTurn)?;
    let after = after_turn(door, turn, area);
    Ok(Received {
        door: after,
        reply: turns::reply_now(after),
    })
}
