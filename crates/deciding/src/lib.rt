// What an answer comes to: plain TCP and its reason, or the TEP that is answered and the record that is resumed. Total for every view and every argument.
#![tactic(auto)]

ghost use Rattle.std.specs.Prelude.{◌≡◌, true};
ghost use Rattle.eno.specs.Area.{finding};
ghost use Rattle.door.specs.Door.{seen_of};
ghost use Rattle.door.specs.Answer.{plain_for};
ghost use Rattle.tep_choice.specs.Choosing.{decision_of};
ghost use Rattle.deciding.specs.Steps.{missed_as, decided_by};

use door::View;
use eno::Cause;
use finder::FindStatus;
use tep_choice::Chosen;

// Why an answer is plain TCP where its area has no option.
fn missed(area: &[u8]) -> Cause
    ensures { plain_for result ≡ missed_as (finding area.now true) }
{
    match finder::find_status(area, true) {
        FindStatus::Unreadable { place, kind } => Cause {
            reason: 1,
            place,
            kind,
        },
        FindStatus::Nothing | FindStatus::Refused | FindStatus::Found => Cause::numbered(2),
    }
}

// What an answer to the option of an area comes to; the option is given beside its area.
#[tactic(auto, unfolding(crate::specs::Steps::decided_by, crate::specs::Steps::summed_up))]
pub fn decide<'a>(
    view: View,
    area: &'a [u8],
    option: &'a [u8],
    mandatory: bool,
    teps: &[u8],
) -> Result<Chosen, Cause>
    ensures { decision_of result ≡ decided_by mandatory area.now option.now teps.now (seen_of view).held }
{
    if option.is_empty() {
        return Err(missed(area));
    }
    let s = suboption_summary::summarize(option);
    if s.ill_formed {
        return Err(Cause::numbered(3));
    }
    if s.role == 1 {
        return Err(Cause::numbered(4));
    }
    if judgement::is_unaware(mandatory, s.aware) {
        return Err(Cause::numbered(5));
    }
    tep_choice::choose(view, option, s.teps, teps)
}
