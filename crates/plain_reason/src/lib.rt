// Why a segment after the first ends in plain TCP. Total for every door and every area.
#![tactic(auto)]

ghost use Rattle.std.specs.Prelude.{◌≡◌};
ghost use Rattle.door.specs.Receive.{second_reason};
ghost use Rattle.plain_reason.specs.Reasons.{as_cause, absence_of};

use door::Door;
use eno::Cause;
use finder::FindStatus;

// Why no option is found: 1 unreadable, with place and kind, 2 none.
pub fn absence(area: &[u8], syn: bool) -> Option<Cause>
    ensures { result ≡ as_cause (absence_of area.now syn) }
{
    match finder::find_status(area, syn) {
        FindStatus::Unreadable { place, kind } => Some(Cause {
            reason: 1,
            place,
            kind,
        }),
        FindStatus::Nothing => Some(Cause::numbered(2)),
        FindStatus::Found | FindStatus::Refused => None,
    }
}

// Why a second SYN ends in Plain: 1 unreadable, with place and kind, 2 no option, 3 ill-formed, 7 altered; none where it does not.
pub fn second_reason(door: Door, area: &[u8]) -> Option<Cause>
    ensures { result ≡ as_cause (second_reason door area.now) }
{
    if let Some(cause) = absence(area, true) {
        return Some(cause);
    }
    let option = finder::find_option(area, true);
    if suboption_summary::summarize(option).ill_formed {
        return Some(Cause::numbered(3));
    }
    let first = &door.peer[..door_data::kept_length(door.peer_length)];
    if wire::same(option, first) {
        None
    } else {
        Some(Cause::numbered(7))
    }
}
