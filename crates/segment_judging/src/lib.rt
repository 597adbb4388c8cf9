// What one door does with the first segment of the other side: it is judged.
#![tactic(auto)]

ghost use Rattle.std.specs.Prelude.{◌≡◌, cond, ◌≤◌, length};
ghost use Rattle.eno.specs.Judge.{way_if};
ghost use Rattle.door.specs.Door.{crossed, opened};
ghost use Rattle.door.specs.Receive.{judged_door, judging, received};

use door::Door;
use eno::Cause;
use judgement::Verdict;

// A verdict and the other side's option, stored.
#[tactic(auto, using(door_data::specs::Laws::kept_whole, crate::proofs::Doors::resumed_if), unfolding(door::specs::Receive::judged_door))]
fn judged_door(door: Door, option: &[u8], role: u8, tep: u8, resumed: bool) -> Door
    requires { length option.now ≤ 40 }
    ensures { result ≡ judged_door door option.now role tep (way_if resumed) }
{
    Door {
        phase: 2,
        cause: Cause::numbered(0),
        role,
        tep,
        resumed,
        peer_length: option.len() as u8,
        peer: door_data::kept_option(option),
        ..door
    }
}

// The first segment of the other side is judged.
pub fn after_judging(door: Door, opens: bool, area: &[u8]) -> Door
    ensures { result ≡ received door (judging (cond opens opened crossed)) area.now }
{
    let own = &door.own[..door_data::kept_length(door.own_length)];
    let judgement = judge::judge(own, area, door.mandatory, door.hand);
    match judgement.verdict {
        Verdict::Refused => door,
        Verdict::Plain(reason) => door_values::plain_door(judgement::cause_of(reason)),
        Verdict::Encrypted { role, tep, resumed } => {
            let option = finder::find_option(area, true);
            segment_doors::open_if(opens, judged_door(door, option, role, tep, resumed))
        }
    }
}
