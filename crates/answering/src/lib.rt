// Answer: the option that a door sends back to a received SYN as host B, and the record that it takes in hand, or plain TCP. Total for every view and every argument.
#![tactic(auto)]

ghost use Rattle.std.specs.Prelude.{◌≡◌, true, ◌≤◌, ◌<◌, length};
ghost use Rattle.eno.specs.Option.{answer_fits};
ghost use Rattle.door.specs.Door.{seen_of};
ghost use Rattle.door.specs.Record.{record_at};
ghost use Rattle.door.specs.Answer.{with, answer};
ghost use Rattle.opening.specs.Steps.{opening_as};
ghost use Rattle.tep_choice.specs.Choosing.{chosen};
ghost use Rattle.answering.specs.Steps.{tep_byte, door_answered, responded};

use door::{Change, Door, Refusal, Reply, View};
use eno::InHand;
use opening::Opening;
use tep_choice::Chosen;

// The TEP byte, with v where a session is resumed.
#[tactic(auto, unfolding(crate::specs::Steps::tep_byte))]
fn tep_byte(t: u8, resumed: bool) -> u8
    requires { t < 0x80 }
    ensures { result ≡ tep_byte t resumed }
{
    if resumed { t + 0x80 } else { t }
}

fn answered_door(own: &[u8], option: &[u8], mandatory: bool, t: u8, hand: InHand) -> Door
    requires { (length own.now ≤ 40) × (length option.now ≤ 40) × (t < 0x80) }
    ensures { result ≡ door_answered own.now option.now mandatory t hand }
{
    Door {
        phase: 3,
        mandatory,
        role: 1,
        tep: tep_byte(t, hand.held),
        resumed: hand.held,
        own_length: own.len() as u8,
        peer_length: option.len() as u8,
        own: door_data::kept_option(own),
        peer: door_data::kept_option(option),
        hand,
        ..door_values::idle_door()
    }
}

// Answers with one TEP, and takes the record in hand that is resumed.
fn respond(
    view: View,
    option: &[u8],
    choice: Chosen,
    aware: bool,
    mandatory: bool,
    nonce: &[u8],
    out: &mut [u8],
) -> Result<Opening, Refusal>
    requires { (length option.now ≤ 40) × (answer_fits choice.tep (record_at (seen_of view).held choice.at) nonce.now ≡ true) }
    ensures { opening_as result out.new view.door ≡ responded (seen_of view) aware mandatory option.now nonce.now out.old (with (chosen choice.tep choice.at)) }
{
    let hand = opening::hand_at(view, choice.at);
    let said = option_answer::write_answer(aware, choice.tep, hand, nonce, out);
    match said {
        Ok(k) => Ok(Opening {
            door: answered_door(&out[0..k], option, mandatory, choice.tep, hand),
            change: opening::change_of(door_counts::held_count(view), choice.at),
            reply: Reply::Written(k),
        }),
        Err(why) => Err(opening::refusal_of(why)),
    }
}

// Answers a received SYN, whose option area is given: as host B, with the TEP list in rising priority and the resumption nonce.
pub fn answer(
    view: View,
    area: &[u8],
    aware: bool,
    mandatory: bool,
    teps: &[u8],
    nonce: &[u8],
    out: &mut [u8],
) -> Result<Opening, Refusal>
    ensures { opening_as result out.new view.door ≡ answer (seen_of view) area.now aware mandatory teps.now nonce.now out.old }
{
    if 40 < area.len() {
        return Err(Refusal::AreaTooLong);
    }
    if !opening::terms_fit(aware, mandatory, teps, nonce) {
        return Err(Refusal::Unfit);
    }
    if !door_data::is_idle(view.door.phase) {
        return Err(Refusal::OutOfTurn);
    }
    let option = finder::find_option(area, true);
    match deciding::decide(view, area, option, mandatory, teps) {
        Ok(choice) => respond(view, option, choice, aware, mandatory, nonce, out),
        Err(cause) => {
            let door = door_values::plain_door(cause);
            Ok(Opening {
                door,
                change: Change::Keep,
                reply: Reply::Plain(cause),
            })
        }
    }
}
