// The quick judge and the plain one, side by side: they say the same of every two option areas.
#![tactic(auto)]

ghost use Rattle.std.specs.Prelude.{◌≡◌};
ghost use Rattle.eno.specs.Session.{in_hand};
ghost use Rattle.eno.specs.Judge.{judge};
ghost use Rattle.judgement.specs.Answers.{Judges};

use eno::InHand;
use judgement::Judgement;

// What each of them says.
#[derive(Clone, Copy)]
pub struct TwoJudgements {
    pub quick: Judgement,
    pub plain: Judgement,
}

// Both judgements of two areas of any length, by any setting and any record in hand: equal, with reason, place and kind, and the whole array of the transcript.
pub fn both<'a>(
    own_area: &'a [u8],
    peer_area: &'a [u8],
    mandatory: bool,
    hand: InHand,
) -> TwoJudgements
    ensures { (result.quick ≡ result.plain) × Judges (judge mandatory (in_hand hand) own_area.now peer_area.now) result.quick }
{
    let quick = judge::judge(own_area, peer_area, mandatory, hand);
    let plain = plain_judge::judge_plainly(own_area, peer_area, mandatory, hand);
    TwoJudgements { quick, plain }
}
