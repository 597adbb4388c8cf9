// The judge: what two option areas, this end's own and the other side's, come to.
#![tactic(auto)]

ghost use Rattle.std.specs.Prelude.{◌≡◌, ◌≤◌, length};
ghost use Rattle.eno.specs.Session.{in_hand};
ghost use Rattle.eno.specs.Judge.{judge};
ghost use Rattle.judgement.specs.Answers.{Judges};
ghost use Rattle.judge_quick.specs.Quick.{concluded, negotiated};

use eno::InHand;
use judgement::{Judgement, Reason, Verdict};
use suboptions::Summary;
use valid_tep::Best;

// The transcript is A's option followed by B's; the TEP byte is B's.
#[tactic(auto, unfolding(judge_quick::specs::Quick::concluded, judgement::specs::Answers::encrypted_as))]
fn conclude<'a>(a: &'a [u8], b: &'a [u8], role: u8, best: Option<Best>) -> Judgement
    requires { (length a.now ≤ 40) × (length b.now ≤ 40) }
    ensures { result ≡ concluded a.now b.now role best }
{
    let Some(best) = best else {
        return judgement::without_transcript(Verdict::Plain(Reason::NoValidTep));
    };
    let tep = judge_quick::byte_before(b, best.start);
    judgement::encrypted(a, b, role, tep, best.resumed)
}

fn negotiate<'a>(own: &'a [u8], peer: &'a [u8], hand: InHand, s: Summary, p: Summary) -> Judgement
    requires { (length own.now ≤ 40) × (length peer.now ≤ 40) }
    ensures { result ≡ negotiated own.now peer.now (in_hand hand) s p }
{
    let own_is_b = s.role == 1;
    let a = judgement::host_a_option(own, peer, own_is_b);
    let b = judgement::host_b_option(own, peer, own_is_b);
    let best = valid_tep_best::best_of(a, b, hand, own_is_b, s.teps, p.teps);
    conclude(a, b, s.role, best)
}

// The judgement of this end's own option area and the other side's, both of a SYN.
pub fn judge<'a>(
    own_area: &'a [u8],
    peer_area: &'a [u8],
    mandatory: bool,
    hand: InHand,
) -> Judgement
    ensures { Judges (judge mandatory (in_hand hand) own_area.now peer_area.now) result }
{
    let own = finder::find_option(own_area, true);
    let peer = finder::find_option(peer_area, true);
    if own.len() == 0 || peer.len() == 0 {
        return judge_missed::not_found(own_area, own, peer_area, peer);
    }
    let s = suboption_summary::summarize(own);
    let p = suboption_summary::summarize(peer);
    if s.ill_formed || p.ill_formed {
        return judgement::without_transcript(Verdict::Plain(Reason::IllFormed));
    }
    if s.role == p.role {
        return judgement::without_transcript(Verdict::Plain(Reason::EqualRoles));
    }
    if judgement::is_unaware(mandatory, p.aware) {
        return judgement::without_transcript(Verdict::Plain(Reason::NotAware));
    }
    negotiate(own, peer, hand, s, p)
}
