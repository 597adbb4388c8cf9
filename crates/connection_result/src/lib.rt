// Result of one door: what its connection came to. Total for every door and every buffer.
#![tactic(auto)]

ghost use Rattle.std.specs.Prelude.{◌≡◌, ◌++◌, cond, ◌+◌, ◌≤◌, length, replicate};
ghost use Rattle.wire.specs.Bytes.{pasted};
ghost use Rattle.eno.specs.Judge.{of_a, of_b};
ghost use Rattle.door.specs.Door.{opened, phase_of};
ghost use Rattle.door.specs.Outcome.{keep};
ghost use Rattle.door.specs.Receive.{result as door_result};
ghost use Rattle.door.specs.Answers.{outcome_as, result_reply, result_secret, secret_beside};

use door::{Door, Phase, Refusal, Reply, Resulted};
use eno::InHand;

// The secret of the resumed session; zeros if it is not resumed.
fn secret_of(resumed: bool, hand: InHand) -> [u8; 32]
    ensures { result ≡ cond resumed hand.session.secret (replicate 32 0) }
{
    if resumed {
        hand.session.secret
    } else {
        [0; 32]
    }
}

// Writes A's option followed by B's.
fn write_transcript<'a>(out: &mut [u8], own: &'a [u8], peer: &'a [u8], own_is_b: bool)
    requires { length own.now + length peer.now ≤ length out.old }
    ensures { out.new ≡ pasted out.old 0 (of_a own_is_b own.now peer.now ++ of_b own_is_b own.now peer.now) }
{
    let a = judgement::host_a_option(own, peer, own_is_b);
    let b = judgement::host_b_option(own, peer, own_is_b);
    wire::copy(out, 0, a);
    wire::copy(out, a.len(), b);
}

// In Open the transcript is written.
fn open_result(door: Door, out: &mut [u8]) -> Result<Resulted, Refusal>
    requires { phase_of door.phase ≡ opened }
    ensures told { outcome_as (result_reply result) out.new door keep ≡ door_result door out.old }
    ensures secret { result_secret result ≡ secret_beside (door_result door out.old).reply }
{
    let own = &door.own[..door_data::kept_length(door.own_length)];
    let peer = &door.peer[..door_data::kept_length(door.peer_length)];
    let length = own.len() + peer.len();
    if out.len() < length {
        return Err(Refusal::NoRoom);
    }
    write_transcript(out, own, peer, door.role == 1);
    Ok(Resulted {
        reply: Reply::Encrypted {
            role: door.role,
            tep: door.tep,
            resumed: door.resumed,
            length,
        },
        secret: secret_of(door.resumed, door.hand),
    })
}

// What the connection came to.
pub fn result(door: Door, out: &mut [u8]) -> Result<Resulted, Refusal>
    ensures told { outcome_as (result_reply result) out.new door keep ≡ door_result door out.old }
    ensures secret { result_secret result ≡ secret_beside (door_result door out.old).reply }
{
    match door_data::phase_of(door.phase) {
        Phase::Open => open_result(door, out),
        Phase::Plain => Ok(Resulted {
            reply: Reply::Plain(door.cause),
            secret: [0; 32],
        }),
        _ => Err(Refusal::OutOfTurn),
    }
}
