// Whether the record in hand is of a TEP and its halves stand in A's option and in B's.
#![tactic(auto)]

ghost use Rattle.std.specs.Prelude.{◌≡◌, ◌≤◌};
ghost use Rattle.wire.specs.Bytes.{same_bytes, part};
ghost use Rattle.eno.specs.Session.{in_hand};
ghost use Rattle.valid_tep.specs.Best.{starts_b, matches_at};

use eno::InHand;

// Where the half that host B sends begins in the identifier of a record.
fn starts_b(own_is_b: bool, role: u8) -> usize
    ensures { (result ≡ starts_b own_is_b role) × (result ≤ 9) }
{
    if own_is_b == (role == 0) { 0 } else { 9 }
}

// Whether the record in hand is of the TEP t and its halves stand in A's option and in B's.
pub fn matches<'a>(
    a: &'a [u8],
    b: &'a [u8],
    hand: InHand,
    own_is_b: bool,
    t: u8,
    in_a: usize,
    in_b: usize,
) -> bool
    ensures { result ≡ matches_at a.now b.now (in_hand hand) own_is_b t in_a in_b }
{
    let session = hand.session;
    let from = starts_b(own_is_b, session.role);
    let rest = 9 - from;
    if !hand.held || session.tep != t {
        return false;
    }
    wire::stands_at(a, in_a, &session.identifier[rest..rest + 9])
        && wire::stands_at(b, in_b, &session.identifier[from..from + 9])
}
