// The two judges: each is asked with the words of its line, and its reply's words are put.
use crate::text::Line;
use crate::unit_replies::{put_plain, put_role_and_tep, put_way};
use crate::words::Said;
use eno::InHand;
use judgement::{Judgement, Verdict};
use link_unit::ROW;

// The record in hand that bytes are, as a row has them: TEP, original role, identifier, secret. None where there are no bytes.
fn hand_of(bytes: &[u8]) -> InHand {
    let mut row = [0u8; ROW];
    wire::copy(&mut row, 0, bytes);
    let session = unit_bytes::record_of(row);
    InHand {
        held: !bytes.is_empty(),
        session,
    }
}

fn put_judgement(line: &mut Line, told: Judgement) {
    match told.verdict {
        Verdict::Refused => line.refuse(2),
        Verdict::Plain(reason) => put_plain(line, judgement::cause_of(reason)),
        Verdict::Encrypted { role, tep, resumed } => {
            put_role_and_tep(line, role, tep);
            put_way(line, resumed);
            line.number(told.length as u64);
            line.hex(text_words::first(&told.transcript, told.length));
        }
    }
}

// The two that follow differ in the judge alone, and have no more in common than the words that they take.
pub fn judged(said: &Said, line: &mut Line) {
    let hand = hand_of(said.taken(1));
    let told = judge::judge(said.taken(2), said.taken(3), said.flag(0), hand);
    put_judgement(line, told);
}

pub fn judged_plainly(said: &Said, line: &mut Line) {
    let hand = hand_of(said.taken(1));
    let told = plain_judge::judge_plainly(said.taken(2), said.taken(3), said.flag(0), hand);
    put_judgement(line, told);
}
