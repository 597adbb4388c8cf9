// What a judge says of two option areas: the verdict and the transcript, why a connection is plain TCP, and which of two options is host A's and which host B's.
#![tactic(auto)]

ghost use Rattle.std.specs.Prelude.{◌≡◌, ◌≤◌, ◌&&◌, not, cond, length};
ghost use Rattle.eno.specs.Judge.{of_a, of_b};
ghost use Rattle.judgement.specs.Answers.{cause_of, encrypted_as, without_transcript};

use eno::Cause;

// Why a connection is plain TCP.
#[derive(Clone, Copy)]
pub enum Reason {
    // The option that makes the area unreadable: where it begins, and its kind.
    Unreadable { place: u8, kind: u8 },
    NoOption,
    IllFormed,
    EqualRoles,
    NotAware,
    NoValidTep,
    Altered,
}

// Document 01's number of a reason, with place and kind of an unreadable area.
pub fn cause_of(reason: Reason) -> Cause
    ensures { result ≡ cause_of reason }
{
    match reason {
        Reason::Unreadable { place, kind } => Cause {
            reason: 1,
            place,
            kind,
        },
        Reason::NoOption => Cause::numbered(2),
        Reason::IllFormed => Cause::numbered(3),
        Reason::EqualRoles => Cause::numbered(4),
        Reason::NotAware => Cause::numbered(5),
        Reason::NoValidTep => Cause::numbered(6),
        Reason::Altered => Cause::numbered(7),
    }
}

#[derive(Clone, Copy)]
pub enum Verdict {
    Refused,
    Plain(Reason),
    Encrypted { role: u8, tep: u8, resumed: bool },
}

// The verdict, and the transcript in the first `length` bytes.
#[derive(Clone, Copy)]
pub struct Judgement {
    pub verdict: Verdict,
    pub length: usize,
    pub transcript: [u8; 80],
}

// Of what the two ends have, host B's: that of whichever sent b = 1.
pub fn of_b<T: Copy>(own_is_b: bool, own: T, peer: T) -> T
    ensures { result ≡ of_b own_is_b own peer }
{
    if own_is_b { own } else { peer }
}

// And host A's, which is that of the other one.
pub fn of_a<T: Copy>(own_is_b: bool, own: T, peer: T) -> T
    ensures { result ≡ of_a own_is_b own peer }
{
    if own_is_b { peer } else { own }
}

// Host B's option is whichever of the two was sent with b = 1.
pub fn host_b_option<'a>(own: &'a [u8], peer: &'a [u8], own_is_b: bool) -> &'a [u8]
    ensures { (result.now ≡ of_b own_is_b own.now peer.now) × (result.ref_ptr ≡ cond own_is_b own.entry.ref_ptr peer.entry.ref_ptr) }
{
    of_b(own_is_b, own, peer)
}

// Host A's option is the other one.
pub fn host_a_option<'a>(own: &'a [u8], peer: &'a [u8], own_is_b: bool) -> &'a [u8]
    ensures { (result.now ≡ of_a own_is_b own.now peer.now) × (result.ref_ptr ≡ cond own_is_b peer.entry.ref_ptr own.entry.ref_ptr) }
{
    of_a(own_is_b, own, peer)
}

// A verdict that comes with no transcript.
pub fn without_transcript(verdict: Verdict) -> Judgement
    ensures { result ≡ without_transcript verdict }
{
    Judgement {
        verdict,
        length: 0,
        transcript: [0u8; 80],
    }
}

// The verdict that two options of at most 40 bytes come to where a TEP is negotiated; the transcript is A's option followed by B's.
pub fn encrypted<'a>(a: &'a [u8], b: &'a [u8], role: u8, tep: u8, resumed: bool) -> Judgement
    ensures { length a.now ≤ 40 → length b.now ≤ 40 → result ≡ encrypted_as a.now b.now role tep resumed }
{
    let mut transcript = [0u8; 80];
    let n = a.len();
    wire::copy(&mut transcript, 0, a);
    wire::copy(&mut transcript, n, b);
    Judgement {
        verdict: Verdict::Encrypted { role, tep, resumed },
        length: n + b.len(),
        transcript,
    }
}

// Whether an end that is mandatory-aware turns down an option that is not aware.
pub fn is_unaware(mandatory: bool, aware: bool) -> bool
    ensures { result ≡ (mandatory && not aware) }
{
    mandatory && !aware
}
