// The judge as plainly as RFC 8547 reads (4.1 to 4.5, 4.8): list all suboptions, strike the ones not valid, take the last.
#![tactic(auto)]

ghost use Rattle.std.specs.Prelude.{◌≡◌, ◌≤◌, length};
ghost use Rattle.eno.specs.Suboption.{teps};
ghost use Rattle.eno.specs.Session.{in_hand};
ghost use Rattle.eno.specs.Judge.{negotiated_by, judge};
ghost use Rattle.judgement.specs.Answers.{Judges};
ghost use Rattle.suboption_list.specs.List.{sent_of, items_in};
ghost use Rattle.eno.specs.Way.{way_as};
ghost use Rattle.plain_judge.specs.Plain.{concluded, negotiated_in};

use eno::{InHand, Way};
use judgement::{Judgement, Reason, Verdict};
use suboption_list::{SuboptionItem, SuboptionList};

// What is concluded from the last TEP that is left, and the way in which it is valid.
#[tactic(auto, unfolding(crate::specs::Plain::concluded))]
fn conclude<'a>(
    a: &'a [u8],
    b: &'a [u8],
    role: u8,
    last: SuboptionItem,
    way: Option<Way>,
) -> Judgement
    requires { (length a.now ≤ 40) × (length b.now ≤ 40) }
    ensures { result ≡ concluded a.now b.now role (negotiated_by (sent_of last) (way_as way)) }
{
    let Some(way) = way else {
        return judgement::without_transcript(Verdict::Plain(Reason::NoValidTep));
    };
    judgement::encrypted(a, b, role, last.byte, way == Way::Resumed)
}

// Of host B's suboptions strike the ones not valid, and take the last.
fn negotiate<'a>(
    own: &'a [u8],
    peer: &'a [u8],
    hand: InHand,
    role: u8,
    ours: SuboptionList,
    others: SuboptionList,
) -> Judgement
    requires { (length own.now ≤ 40) × (length peer.now ≤ 40) }
    ensures { result ≡ negotiated_in own.now peer.now (in_hand hand) role (teps (items_in ours)) (teps (items_in others)) }
{
    let own_is_b = role == 1;
    let a = judgement::host_a_option(own, peer, own_is_b);
    let b = judgement::host_b_option(own, peer, own_is_b);
    let all = suboption_lister::list(b);
    let left = plain_striking::strike(all, own, peer, hand, own_is_b, ours, others);
    if left.count == 0 {
        return judgement::without_transcript(Verdict::Plain(Reason::NoValidTep));
    }
    let last = suboption_last::last_item(left);
    let t = last.byte % 128;
    let way = plain_validity::way_of(own, peer, hand, own_is_b, ours, others, t);
    conclude(a, b, role, last, way)
}

// The judgement of this end's own option area and the other side's, both of a SYN.
pub fn judge_plainly<'a>(
    own_area: &'a [u8],
    peer_area: &'a [u8],
    mandatory: bool,
    hand: InHand,
) -> Judgement
    ensures { Judges (judge mandatory (in_hand hand) own_area.now peer_area.now) result }
{
    let own = finder::find_option(own_area, true);
    let peer = finder::find_option(peer_area, true);
    if own.len() == 0 || peer.len() == 0 {
        return judge_missed::not_found(own_area, own, peer_area, peer);
    }
    let ours = suboption_lister::list(own);
    let others = suboption_lister::list(peer);
    if ours.ill_formed || others.ill_formed {
        return judgement::without_transcript(Verdict::Plain(Reason::IllFormed));
    }
    let our_global = suboption_global::first_global(ours);
    let other_global = suboption_global::first_global(others);
    let role = our_global % 2;
    if role == other_global % 2 {
        return judgement::without_transcript(Verdict::Plain(Reason::EqualRoles));
    }
    let aware = other_global / 2 % 2 == 1;
    if judgement::is_unaware(mandatory, aware) {
        return judgement::without_transcript(Verdict::Plain(Reason::NotAware));
    }
    negotiate(own, peer, hand, role, ours, others)
}
