// What a resumed connection is keyed by: this end's original role and the two resumption nonces, read from the transcript. Total for any bytes.
#![tactic(auto)]

ghost use Rattle.std.specs.Prelude.{◌≡◌, ◌&&◌, ◌≤◌, ◌+◌, ◌-◌, length};
ghost use Rattle.wire.specs.Bytes.{part, same_bytes};
ghost use Rattle.key_terms.specs.Terms.{is_whole, resumption_data, original_role, terms_by};
ghost use Rattle.key_terms.specs.Calls.{in_eight, given, resumption_terms};
ghost use Rattle.key_terms.specs.Answers.{terms_given, terms_told, data_as, role_as};
ghost use Rattle.key_terms.specs.Laws.{DataFits};

use eno::Tep;

// The call is refused with 3: a role above 1, a TEP byte whose low seven bits are no known TEP, or an identifier that has not 18 bytes.
#[derive(Clone, Copy, PartialEq, Eq)]
pub struct Unfit;

// An original role: A sent the first half of the identifier, and B the second.
#[derive(Clone, Copy, PartialEq, Eq)]
pub enum Role {
    A,
    B,
}

// The terms: this end's original role, and the nonces, first that of the end whose original role was A. The memory is fixed, so each nonce stands in eight bytes, zeros behind it, with its length beside it.
#[derive(Clone, Copy)]
pub struct ResumptionTerms {
    pub original: Role,
    pub length_a: usize,
    pub nonce_a: [u8; 8],
    pub length_b: usize,
    pub nonce_b: [u8; 8],
}

// Where the resumption data of a TEP stands in an option.
#[derive(Clone, Copy)]
struct DataAt {
    start: usize,
    len: usize,
}

// Whether a slice is one ENO option, at most 40 bytes long.
fn is_whole(option: &[u8]) -> bool
    ensures { result ≡ is_whole option.now }
{
    let n = option.len();
    if n < 2 {
        return false;
    }
    if 40 < n {
        return false;
    }
    if option[0] != 0x45 {
        return false;
    }
    wire::wide(option[1]) == n
}

// The resumption data of the TEP t, of 9 to 17 bytes, if an option has it exactly once.
fn data_at(option: &[u8], t: u8) -> Option<DataAt>
    requires fact_1 { 0x21 ≤ t }
    requires fact_2 { t ≤ 0x24 }
    ensures { data_as result ≡ resumption_data t option.now }
{
    if !is_whole(option) {
        return None;
    }
    let summary = suboption_summary::summarize(option);
    if summary.ill_formed {
        return None;
    }
    let teps = summary.teps;
    let k = wire::wide(t - 0x21);
    let entry = teps[k];
    if entry.times != 1 {
        return None;
    }
    if suboption_data::is_fresh(entry) {
        return None;
    }
    if suboption_data::is_bad(entry) {
        return None;
    }
    let start = wire::wide(entry.start);
    let len = wire::wide(entry.len);
    Some(DataAt { start, len })
}

// Whether the half of an identifier that begins at `from` stands in an option at `at`.
fn half_stands<'a>(option: &'a [u8], at: usize, identifier: &'a [u8], from: usize) -> bool
    requires fact_1 { from ≤ 9 }
    requires fact_2 { length identifier.now ≡ 18 }
    ensures { result ≡ same_bytes (part at 9 option.now) (part from 9 identifier.now) }
{
    wire::stands_at(option, at, &identifier[from..from + 9])
}

// Whether that half stands in this end's own option, and the other half in the other side's.
fn halves_stand<'a>(
    own: &'a [u8],
    in_own: usize,
    peer: &'a [u8],
    in_peer: usize,
    identifier: &'a [u8],
    from: usize,
) -> bool
    requires fact_1 { from ≤ 9 }
    requires fact_2 { length identifier.now ≡ 18 }
    ensures { result ≡ (same_bytes (part in_own 9 own.now) (part from 9 identifier.now) && same_bytes (part in_peer 9 peer.now) (part (9 - from) 9 identifier.now)) }
{
    let other = 9 - from;
    half_stands(own, in_own, identifier, from) && half_stands(peer, in_peer, identifier, other)
}

// This end's original role: A sends the first half of the identifier and B the second; equal halves do not tell.
fn original_role<'a>(
    own: &'a [u8],
    in_own: usize,
    peer: &'a [u8],
    in_peer: usize,
    identifier: &'a [u8],
) -> Option<Role>
    requires { length identifier.now ≡ 18 }
    ensures { role_as result ≡ original_role identifier.now (part in_own 9 own.now) (part in_peer 9 peer.now) }
{
    if half_stands(identifier, 0, identifier, 9) {
        return None;
    }
    if halves_stand(own, in_own, peer, in_peer, identifier, 0) {
        return Some(Role::A);
    }
    if halves_stand(own, in_own, peer, in_peer, identifier, 9) {
        return Some(Role::B);
    }
    None
}

// The nonce of resumption data, which stands behind the half; zeros behind it.
fn nonce_of(option: &[u8], start: usize, len: usize) -> [u8; 8]
    requires { DataFits option.now start len }
    ensures { result ≡ in_eight (part (start + 9) (len - 9) option.now) }
{
    let mut nonce = [0u8; 8];
    wire::copy(&mut nonce, 0, &option[start + 9..start + len]);
    nonce
}

// The terms by this end's own option and the other side's.
fn terms_by<'a>(
    t: u8,
    identifier: &'a [u8],
    own: &'a [u8],
    peer: &'a [u8],
) -> Option<ResumptionTerms>
    requires fact_1 { 0x21 ≤ t }
    requires fact_2 { t ≤ 0x24 }
    requires fact_3 { length identifier.now ≡ 18 }
    ensures { terms_given result ≡ given (terms_by t identifier.now own.now peer.now) }
{
    let mine = data_at(own, t)?;
    let theirs = data_at(peer, t)?;
    let ours = nonce_of(own, mine.start, mine.len);
    let other = nonce_of(peer, theirs.start, theirs.len);
    let n = mine.len - 9;
    let m = theirs.len - 9;
    match original_role(own, mine.start, peer, theirs.start, identifier)? {
        Role::A => Some(ResumptionTerms {
            original: Role::A,
            length_a: n,
            nonce_a: ours,
            length_b: m,
            nonce_b: other,
        }),
        Role::B => Some(ResumptionTerms {
            original: Role::B,
            length_a: m,
            nonce_a: other,
            length_b: n,
            nonce_b: ours,
        }),
    }
}

// What a resumed connection is keyed by. `role` and `tep` are those that `result` gave, the transcript is the one that it wrote, and the identifier that of the record in hand.
// `role` is a number, since a role above 1 is refused here and not asked away.
#[tactic(auto, using(crate::proofs::Cutting::known_low, crate::proofs::Cutting::known_high))]
pub fn resumption_terms<'a>(
    role: u8,
    tep: u8,
    identifier: &'a [u8],
    transcript: &'a [u8],
) -> Result<Option<ResumptionTerms>, Unfit>
    ensures { terms_told result ≡ resumption_terms role tep identifier.now transcript.now }
{
    if 1 < role {
        return Err(Unfit);
    }
    let t = tep % 128;
    if Tep::of(t).is_none() {
        return Err(Unfit);
    }
    if identifier.len() != 18 {
        return Err(Unfit);
    }
    if transcript.len() < 2 {
        return Ok(None);
    }
    let n = wire::wide(transcript[1]);
    if transcript.len() < n {
        return Ok(None);
    }
    if role == 0 {
        Ok(terms_by(t, identifier, &transcript[..n], &transcript[n..]))
    } else {
        Ok(terms_by(t, identifier, &transcript[n..], &transcript[..n]))
    }
}
