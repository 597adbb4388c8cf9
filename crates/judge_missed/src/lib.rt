// The judgement where the two areas do not both have an option: why, by what the finder says of each.
#![tactic(auto)]

ghost use Rattle.std.specs.Prelude.{◌≡◌};
ghost use Rattle.finder.specs.Answers.{status_of};
ghost use Rattle.judge_missed.specs.Missed.{unreadable_as, missed_peer, unless_refused, missed_as, status_by, not_found};

use finder::FindStatus;
use judgement::{Judgement, Reason, Verdict};

// An unreadable area, by the option that makes it so.
fn unreadable(place: u8, kind: u8) -> Verdict
    ensures { result ≡ unreadable_as place kind }
{
    let reason = Reason::Unreadable { place, kind };
    Verdict::Plain(reason)
}

// What the finder says of the other side's area, where this end's own is readable.
fn missed_peer(peer: FindStatus) -> Verdict
    ensures { result ≡ missed_peer (status_of peer) }
{
    match peer {
        FindStatus::Refused => Verdict::Refused,
        FindStatus::Unreadable { place, kind } => unreadable(place, kind),
        FindStatus::Nothing => Verdict::Plain(Reason::NoOption),
        FindStatus::Found => Verdict::Plain(Reason::NoOption),
    }
}

// A verdict on this end's own area, unless the other side's is refused.
fn unless_refused(peer: FindStatus, verdict: Verdict) -> Verdict
    ensures { result ≡ unless_refused (status_of peer) verdict }
{
    match peer {
        FindStatus::Refused => Verdict::Refused,
        _ => verdict,
    }
}

// Why two options were not both found.
fn missed(own: FindStatus, peer: FindStatus) -> Verdict
    ensures { result ≡ missed_as (status_of own) (status_of peer) }
{
    match own {
        FindStatus::Refused => Verdict::Refused,
        FindStatus::Unreadable { place, kind } => unless_refused(peer, unreadable(place, kind)),
        FindStatus::Nothing => missed_peer(peer),
        FindStatus::Found => missed_peer(peer),
    }
}

// What the finder says of an area, beside the option that was found in it: it is asked only where that has no bytes.
fn status_of<'a>(area: &'a [u8], option: &'a [u8]) -> FindStatus
    ensures { status_of result ≡ status_by area.now option.now }
{
    if option.len() == 0 {
        return finder::find_status(area, true);
    }
    FindStatus::Found
}

// The judgement of two areas that do not both have an option; what was found in each is given beside it.
pub fn not_found<'a>(
    own_area: &'a [u8],
    own: &'a [u8],
    peer_area: &'a [u8],
    peer: &'a [u8],
) -> Judgement
    ensures { result ≡ not_found own_area.now own.now peer_area.now peer.now }
{
    let s = status_of(own_area, own);
    let p = status_of(peer_area, peer);
    let verdict = missed(s, p);
    judgement::without_transcript(verdict)
}
