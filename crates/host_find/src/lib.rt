// The finder's word, exported.
#![tactic(auto)]

ghost use Rattle.std.specs.Prelude.{◌≡◌};
ghost use Rattle.eno.specs.Area.{finding, status};
ghost use Rattle.host_find.specs.Replies.{status_numbers};

use finder::FindStatus;
use host_reply::{ReplyNumbers, broken_numbers, of_kind};

// Whether an option area has an ENO option: 7 found, 8 none, 9 unreadable, with place and kind of the option that makes it so; refused with 2 above 40 bytes.
#[unsafe(no_mangle)]
pub extern "C" fn door_link_find_status(area: &[u8], syn: bool) -> ReplyNumbers
    ensures { result ≡ status_numbers (status (finding area.now syn)) }
{
    let says = finder::find_status(area, syn);
    match says {
        FindStatus::Found => of_kind(7, 0),
        FindStatus::Nothing => of_kind(8, 0),
        FindStatus::Unreadable { place, kind } => broken_numbers(place, kind),
        FindStatus::Refused => of_kind(0, 2),
    }
}
