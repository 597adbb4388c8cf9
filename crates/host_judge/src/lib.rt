// The two judges: what two option areas come to.
#![tactic(auto)]

ghost use Rattle.std.specs.Prelude.{◌≡◌};
ghost use Rattle.eno.specs.Session.{in_hand};
ghost use Rattle.eno.specs.Judge.{judge};
ghost use Rattle.host_judge_numbers.specs.Replies.{judgement_numbers};

use eno::InHand;
use host_judge_numbers::JudgementNumbers;

// What two option areas, this end's own and the other side's, come to, by whether this end is mandatory-aware and the record in hand.
#[unsafe(no_mangle)]
pub extern "C" fn door_link_judge<'a>(
    own_area: &'a [u8],
    peer_area: &'a [u8],
    mandatory: bool,
    hand: InHand,
) -> JudgementNumbers
    ensures { result ≡ judgement_numbers (judge mandatory (in_hand hand) own_area.now peer_area.now) }
{
    let told = judge::judge(own_area, peer_area, mandatory, hand);
    let verdict = told.verdict;
    let length = told.length;
    let transcript = told.transcript;
    let reply = host_judge_numbers::verdict_numbers(verdict, length);
    JudgementNumbers { reply, transcript }
}

// The same by the plain judge, which lists all suboptions, strikes the ones not valid and takes the last.
#[unsafe(no_mangle)]
pub extern "C" fn door_link_judge_plainly<'a>(
    own_area: &'a [u8],
    peer_area: &'a [u8],
    mandatory: bool,
    hand: InHand,
) -> JudgementNumbers
    ensures { result ≡ judgement_numbers (judge mandatory (in_hand hand) own_area.now peer_area.now) }
{
    let told = plain_judge::judge_plainly(own_area, peer_area, mandatory, hand);
    let verdict = told.verdict;
    let length = told.length;
    let transcript = told.transcript;
    let reply = host_judge_numbers::verdict_numbers(verdict, length);
    JudgementNumbers { reply, transcript }
}
