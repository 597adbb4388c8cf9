// Offer: the option that a door sends first in an active open, or one that may cross, and the record that it takes in hand. Total for every view and every argument.
#![tactic(auto)]

ghost use Rattle.std.specs.Prelude.{◌≡◌, true, ◌≤◌, length};
ghost use Rattle.eno.specs.Option.{offer_fits};
ghost use Rattle.door.specs.Door.{seen_of};
ghost use Rattle.door.specs.Record.{record_at};
ghost use Rattle.door.specs.Offer.{offered_at, offer, door_offered};
ghost use Rattle.opening.specs.Steps.{opening_as};
ghost use Rattle.offering.specs.Steps.{proposed};

use door::{Door, Refusal, Reply, View};
use door_search::Sought;
use eno::InHand;
use opening::Opening;

// The record that an offer takes; the number of records where it takes none, as in the definition `offered_at`.
fn offered_at(view: View, resume: bool, teps: &[u8]) -> usize
    ensures { result ≡ offered_at resume teps.now (seen_of view).held }
{
    if resume {
        return door_search::first_sought(view, Sought::Listed, teps);
    }
    door_counts::held_count(view)
}

fn offered_door(own: &[u8], mandatory: bool, hand: InHand) -> Door
    requires { length own.now ≤ 40 }
    ensures { result ≡ door_offered own.now mandatory hand }
{
    Door {
        phase: 1,
        mandatory,
        own_length: own.len() as u8,
        own: door_data::kept_option(own),
        hand,
        ..door_values::idle_door()
    }
}

// Offers a list of TEPs, and takes the j-th oldest record in hand, if there is one.
fn propose(
    view: View,
    b: u8,
    aware: bool,
    mandatory: bool,
    teps: &[u8],
    j: usize,
    nonce: &[u8],
    out: &mut [u8],
) -> Result<Opening, Refusal>
    requires { offer_fits b teps.now (record_at (seen_of view).held j) nonce.now ≡ true }
    ensures { opening_as result out.new view.door ≡ proposed (seen_of view) b aware mandatory teps.now j nonce.now out.old }
{
    let hand = opening::hand_at(view, j);
    let said = option_writer::write_offer(b, aware, teps, hand, nonce, out);
    match said {
        Ok(k) => Ok(Opening {
            door: offered_door(&out[0..k], mandatory, hand),
            change: opening::change_of(door_counts::held_count(view), j),
            reply: Reply::Written(k),
        }),
        Err(why) => Err(opening::refusal_of(why)),
    }
}

// Offers as host b: a, whether encryption is mandatory, the TEP list in rising priority, whether to resume, and the resumption nonce.
pub fn offer(
    view: View,
    b: u8,
    aware: bool,
    mandatory: bool,
    teps: &[u8],
    resume: bool,
    nonce: &[u8],
    out: &mut [u8],
) -> Result<Opening, Refusal>
    ensures { opening_as result out.new view.door ≡ offer (seen_of view) b aware mandatory teps.now resume nonce.now out.old }
{
    if 1 < b {
        return Err(Refusal::Unfit);
    }
    if !opening::terms_fit(aware, mandatory, teps, nonce) {
        return Err(Refusal::Unfit);
    }
    if !door_data::is_idle(view.door.phase) {
        return Err(Refusal::OutOfTurn);
    }
    let j = offered_at(view, resume, teps);
    propose(view, b, aware, mandatory, teps, j, nonce, out)
}
