// The words that a reply of the unit becomes.
use crate::text::Line;
use answer_numbers::by_unit;
use door::{Phase, Refusal, Reply};
use eno::Cause;

fn phase_name(phase: Phase) -> &'static [u8] {
    match phase {
        Phase::Idle => b"idle",
        Phase::Offered => b"offered",
        Phase::Crossed => b"crossed",
        Phase::Answered => b"answered",
        Phase::Open => b"open",
        Phase::Plain => b"plain",
    }
}

pub fn put_role_and_tep(line: &mut Line, role: u8, tep: u8) {
    line.counted(b"open", u64::from(role));
    line.hex(&[tep]);
}

pub fn put_way(line: &mut Line, resumed: bool) {
    if resumed {
        line.put(b" resumed");
    } else {
        line.put(b" fresh");
    }
}

// A resumed connection has its secret behind the way.
fn put_open(line: &mut Line, role: u8, tep: u8, resumed: bool, length: usize, secret: &[u8]) {
    put_role_and_tep(line, role, tep);
    put_way(line, resumed);
    if resumed {
        line.hex(secret);
    }
    line.number(length as u64);
}

// Plain TCP and its reason; an unreadable area has a place and a kind.
pub fn put_plain(line: &mut Line, cause: Cause) {
    line.counted(b"plain", u64::from(cause.reason));
    if cause.reason == 1 {
        line.fault(cause.place, cause.kind);
    }
}

pub fn put_refusal(line: &mut Line, refusal: Refusal) {
    line.refuse(by_unit(refusal));
}

// The reply's words; `done` stands for a call that has nothing else to say.
pub fn put_reply(line: &mut Line, reply: Reply, done: &[u8], secret: &[u8]) {
    match reply {
        Reply::Written(n) => line.counted(b"written", n as u64),
        Reply::Plain(cause) => put_plain(line, cause),
        Reply::Now(phase) => line.put(phase_name(phase)),
        Reply::Encrypted {
            role,
            tep,
            resumed,
            length,
        } => put_open(line, role, tep, resumed, length, secret),
        Reply::Done => line.put(done),
        Reply::Holds(n) => line.counted(b"holds", n as u64),
    }
}
