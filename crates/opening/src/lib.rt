// What offer and answer share: the test of their terms, the record that is taken in hand, and what they give back. Total for every view and every argument.
#![tactic(auto)]

ghost use Rattle.std.specs.Prelude.{◌≡◌};
ghost use Rattle.door.specs.Door.{seen_of, hand_of, no_session};
ghost use Rattle.door.specs.Record.{record_at};
ghost use Rattle.door.specs.Offer.{terms_fit};
ghost use Rattle.door.specs.Answers.{effect_of, refusal_number};
ghost use Rattle.option_writer.specs.Answers.{option_refusal_number};
ghost use Rattle.opening.specs.Steps.{taking};

use door::{Change, Door, Refusal, Reply, View};
use eno::InHand;
use option_writer::OptionRefusal;

// What an offer or an answer gives back where it is not refused: the door afterwards, what is done with its records, and the reply.
#[derive(Clone, Copy)]
pub struct Opening {
    pub door: Door,
    pub change: Change,
    pub reply: Reply,
}

// The refusal of an option that is not written. This is no From, since both types are of other crates.
pub fn refusal_of(why: OptionRefusal) -> Refusal
    ensures { refusal_number result ≡ option_refusal_number why }
{
    match why {
        OptionRefusal::Unfit => Refusal::Unfit,
        OptionRefusal::NoRoom => Refusal::NoRoom,
    }
}

// What offer and answer share of number 3.
#[tactic(auto, unfolding(door::specs::Offer::terms_fit))]
pub fn terms_fit(aware: bool, mandatory: bool, teps: &[u8], nonce: &[u8]) -> bool
    ensures { result ≡ terms_fit aware mandatory teps.now nonce.now }
{
    option_arguments::is_tep_list(teps) && nonce.len() <= 8 && (aware || !mandatory)
}

// The j-th oldest record in hand, if there is one. The number of records stands for none, and no Option, as in `record_at` and `taking`, which the clauses cite.
pub fn hand_at(view: View, j: usize) -> InHand
    ensures { result ≡ hand_of (record_at (seen_of view).held j) }
{
    if j < door_counts::held_count(view) {
        return InHand {
            held: true,
            session: view.held[j],
        };
    }
    door_values::empty_hand()
}

// A record that is taken leaves the pool.
#[tactic(auto, unfolding(crate::specs::Steps::taking))]
pub fn change_of(n: usize, j: usize) -> Change
    ensures { effect_of result no_session ≡ taking n j }
{
    if j < n {
        Change::Remove(j)
    } else {
        Change::Keep
    }
}
