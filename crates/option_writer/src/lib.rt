// The option writer: the ENO option that an offer sends.
#![tactic(auto)]

ghost use Rattle.std.specs.Prelude.{◌≡◌, ◌∷◌, [], ◌+◌, ◌≤◌, length};
ghost use Rattle.eno.specs.Area.{eno_kind};
ghost use Rattle.eno.specs.Session.{in_hand};
ghost use Rattle.eno.specs.Option.{encode_all, global_of, fresh_teps, last_part, written_as, write_offer};
ghost use Rattle.option_layout.specs.Puts.{Puts};
ghost use Rattle.option_writer.specs.Answers.{writing_of};
ghost use Rattle.option_layout.specs.Steps.{MayPutLast, write_bytes};

use eno::InHand;

// Why no option is written: its arguments do not fit, or the lent buffer is too short.
#[derive(Clone, Copy, PartialEq, Eq)]
pub enum OptionRefusal {
    Unfit,
    NoRoom,
}

#[tactic(auto, unfolding(eno::specs::Option::global_of))]
fn global_byte(b: u8, aware: bool) -> u8
    requires { b ≤ 1 }
    ensures { result ≡ global_of b aware }
{
    if aware { b + 2 } else { b }
}

// Writes t if it is sent fresh, and gives the place after it.
fn put_if_fresh(s: &mut [u8], at: usize, t: u8, hand: InHand) -> usize
    requires { at + length (fresh_teps (in_hand hand) (t ∷ [])) ≤ length s.old }
    ensures { Puts s.old at (fresh_teps (in_hand hand) (t ∷ [])) s.new result }
{
    if option_parts::is_in_hand(hand, t) {
        return at;
    }
    option_parts::put(s, at, t);
    at + 1
}

// Writes the listed TEPs that are sent fresh, and gives the place after them.
fn put_fresh(s: &mut [u8], at: usize, list: &[u8], hand: InHand) -> usize
    requires { at + length (fresh_teps (in_hand hand) list.now) ≤ length s.old }
    ensures { Puts s.old at (fresh_teps (in_hand hand) list.now) s.new result }
{
    let mut next = at;
    for t in list {
        next = put_if_fresh(s, next, *t, hand);
    }
    next
}

// Writes the resumption suboption of the record in hand, if there is one, and gives the place after it.
fn put_last(s: &mut [u8], at: usize, hand: InHand, nonce: &[u8]) -> usize
    requires { MayPutLast (in_hand hand) nonce.now s.old at }
    ensures { Puts s.old at (encode_all (last_part (in_hand hand) nonce.now)) s.new result }
{
    if !hand.held {
        return at;
    }
    let session = hand.session;
    option_parts::put(s, at, session.tep + 0x80);
    let half = option_parts::sent_half(session);
    wire::copy(s, at + 1, &half);
    wire::copy(s, at + 10, nonce);
    at + 10 + nonce.len()
}

// Writes kind, length and contents to the lent buffer, or nothing where they do not fit, and tells how many bytes.
fn finish(out: &mut [u8], contents: &[u8]) -> Result<usize, OptionRefusal>
    requires { length contents.now ≤ 38 }
    ensures { written_as (writing_of result) out.new ≡ write_bytes (eno_kind ∷ (length contents.now + 2) ∷ contents.now) out.old }
{
    let n = contents.len() + 2;
    if out.len() < n {
        return Err(OptionRefusal::NoRoom);
    }
    option_parts::put(out, 0, 0x45);
    option_parts::put(out, 1, n as u8);
    wire::copy(out, 2, contents);
    Ok(n)
}

// The option of an offer: the role b, a, the TEP list in rising priority, the session to resume, if any, and its nonce. Tells how many bytes it wrote.
pub fn write_offer(
    b: u8,
    aware: bool,
    list: &[u8],
    hand: InHand,
    nonce: &[u8],
    out: &mut [u8],
) -> Result<usize, OptionRefusal>
    ensures { written_as (writing_of result) out.new ≡ write_offer b aware list.now (in_hand hand) nonce.now out.old }
{
    if !option_arguments::offer_fits(b, list, hand, nonce) {
        return Err(OptionRefusal::Unfit);
    }
    let mut contents = [0u8; 40];
    let g = global_byte(b, aware);
    let at = option_parts::put_global(&mut contents, g);
    let next = put_fresh(&mut contents, at, list, hand);
    let n = put_last(&mut contents, next, hand, nonce);
    finish(out, &contents[0..n])
}
