// What is done with a segment in each phase, and what is replied there. Total for every phase and every door.
#![tactic(auto)]

ghost use Rattle.std.specs.Prelude.{◌≡◌, [], Ok};
ghost use Rattle.door.specs.Receive.{turn, replies};
ghost use Rattle.door.specs.Answers.{phase_as, reply_of};
ghost use Rattle.turns.specs.Turns.{turn_as};

use door::{Door, Phase, Reply};

// What is done with a segment. A door that is not opened by it is Crossed after judging, and Answered after comparing.
#[derive(Clone, Copy)]
pub enum Turn {
    Judging { opens: bool },
    Comparing { opens: bool },
    Presence,
    Unchanged,
}

// What is done in a phase with a segment of these flags; none where it is out of turn.
#[tactic(auto, unfolding(door::specs::Receive::turn))]
pub fn turn_of(phase: Phase, syn: bool, ack: bool) -> Option<Turn>
    ensures { turn_as result ≡ turn (phase_as phase) syn ack }
{
    match (phase, syn, ack) {
        (Phase::Offered, true, opens) => Some(Turn::Judging { opens }),
        (Phase::Crossed, true, true) => Some(Turn::Comparing { opens: true }),
        (Phase::Answered, true, false) => Some(Turn::Comparing { opens: false }),
        (Phase::Crossed, false, true) | (Phase::Answered, false, true) => Some(Turn::Presence),
        (Phase::Open | Phase::Plain, _, _) => Some(Turn::Unchanged),
        _ => None,
    }
}

// The phase that the door is in; in Plain the reason.
pub fn reply_now(door: Door) -> Reply
    ensures { reply_of (Ok result) [] ≡ replies door }
{
    match door_data::phase_of(door.phase) {
        Phase::Plain => Reply::Plain(door.cause),
        phase => Reply::Now(phase),
    }
}
