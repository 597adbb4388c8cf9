// Parts of an option: one byte, the global byte, the half of an identifier that is sent, and the TEP of the record in hand.
#![tactic(auto)]

ghost use Rattle.std.specs.Prelude.{◌≡◌, ◌∷◌, []};
ghost use Rattle.wire.specs.Bytes.{pasted};
ghost use Rattle.eno.specs.Session.{in_hand, sent_half};
ghost use Rattle.eno.specs.Option.{encode_all, global_part};
ghost use Rattle.option_layout.specs.Puts.{Puts, of_hand};

use eno::{InHand, SessionRecord};

// Writes one byte.
pub fn put(s: &mut [u8], at: usize, x: u8)
    ensures { s.new ≡ pasted s.old at (x ∷ []) }
{
    wire::copy(s, at, &[x]);
}

// Writes the global byte if it is not zero, and gives the place after it.
pub fn put_global(s: &mut [u8], g: u8) -> usize
    ensures { Puts s.old 0 (encode_all (global_part g)) s.new result }
{
    if g == 0 {
        return 0;
    }
    put(s, 0, g);
    1
}

// The half of the identifier that this end sends.
pub fn sent_half(session: SessionRecord) -> [u8; 9]
    ensures { result ≡ sent_half session }
{
    let identifier = session.identifier;
    let mut half = [0u8; 9];
    if session.role == 0 {
        wire::copy(&mut half, 0, &identifier[0..9]);
        return half;
    }
    wire::copy(&mut half, 0, &identifier[9..18]);
    half
}

// Whether t is the TEP of the record in hand.
#[tactic(auto, unfolding(option_layout::specs::Puts::of_hand, eno::specs::Session::in_hand))]
pub fn is_in_hand(hand: InHand, t: u8) -> bool
    ensures { result ≡ of_hand (in_hand hand) t }
{
    hand.held && t == hand.session.tep
}
