// The calls on the unit, which is lent: each is made with the words of its line, and its reply's words are put.
use crate::text::Line;
use crate::unit_replies::{put_refusal, put_reply};
use crate::words::Said;
use door::{Refusal, Reply};
use link_unit::{DOORS, PLACE, ROW, ROWS, WORDS};

// The unit's memory.
#[derive(Drop)]
pub struct Unit {
    marks: [u32; WORDS],
    rows: [[u8; ROW]; ROWS],
    doors: [[u8; PLACE]; DOORS],
}

impl Unit {
    // The unit when it is empty.
    pub fn empty() -> Unit {
        let mut unit = Unit {
            marks: [0; WORDS],
            rows: [[0; ROW]; ROWS],
            doors: [[0; PLACE]; DOORS],
        };
        let _ = link_unit::erase(&mut unit.marks, &mut unit.rows, &mut unit.doors);
        unit
    }
}

// Puts what a call answers; `done` stands for one that has nothing else to say.
fn put_answer(line: &mut Line, answer: Result<Reply, Refusal>, done: &[u8]) {
    match answer {
        Ok(reply) => put_reply(line, reply, done, b""),
        Err(refusal) => put_refusal(line, refusal),
    }
}

pub fn offer(unit: &mut Unit, said: &Said, lent: &mut [u8], line: &mut Line) {
    let answer = link_unit::offer(
        &mut unit.marks,
        &mut unit.rows,
        &mut unit.doors,
        said.number(0) as usize,
        said.small(1),
        said.flag(2),
        said.flag(3),
        said.taken(4),
        said.flag(5),
        said.taken(6),
        lent,
    );
    put_answer(line, answer, b"");
}

pub fn answer(unit: &mut Unit, said: &Said, lent: &mut [u8], line: &mut Line) {
    let answer = link_unit::answer(
        &mut unit.marks,
        &mut unit.rows,
        &mut unit.doors,
        said.number(0) as usize,
        said.taken(1),
        said.flag(2),
        said.flag(3),
        said.taken(4),
        said.taken(5),
        lent,
    );
    put_answer(line, answer, b"");
}

pub fn receive(unit: &mut Unit, said: &Said, line: &mut Line) {
    let answer = link_unit::receive(
        &unit.marks,
        &unit.rows,
        &mut unit.doors,
        said.number(0) as usize,
        said.flag(1),
        said.flag(2),
        said.taken(3),
    );
    put_answer(line, answer, b"");
}

pub fn resend(unit: &Unit, said: &Said, lent: &mut [u8], line: &mut Line) {
    let door = said.number(0) as usize;
    let answer = link_unit::resend(&unit.marks, &unit.rows, &unit.doors, door, lent);
    put_answer(line, answer, b"");
}

// The result, with a resumed session's secret.
pub fn result(unit: &Unit, said: &Said, lent: &mut [u8], line: &mut Line) {
    let door = said.number(0) as usize;
    match link_unit::result(&unit.marks, &unit.rows, &unit.doors, door, lent) {
        Ok(told) => put_reply(line, told.reply, b"", &told.secret),
        Err(refusal) => put_refusal(line, refusal),
    }
}

pub fn close(unit: &mut Unit, said: &Said, line: &mut Line) {
    let door = said.number(0) as usize;
    let answer = link_unit::close(&unit.marks, &unit.rows, &mut unit.doors, door);
    put_answer(line, answer, b"closed");
}

pub fn store(unit: &mut Unit, said: &Said, line: &mut Line) {
    let answer = link_unit::store(
        &mut unit.marks,
        &mut unit.rows,
        &mut unit.doors,
        said.number(0) as usize,
        said.small(1),
        said.small(2),
        said.taken(3),
        said.taken(4),
    );
    put_answer(line, answer, b"stored");
}

pub fn forget(unit: &mut Unit, said: &Said, line: &mut Line) {
    let answer = link_unit::forget(
        &mut unit.marks,
        &mut unit.rows,
        &mut unit.doors,
        said.number(0) as usize,
        said.small(1),
        said.taken(2),
    );
    put_answer(line, answer, b"forgotten");
}

pub fn count(unit: &Unit, said: &Said, line: &mut Line) {
    let door = said.number(0) as usize;
    let answer = link_unit::count(&unit.marks, &unit.rows, &unit.doors, door);
    put_answer(line, answer, b"");
}

pub fn erase(unit: &mut Unit, line: &mut Line) {
    let answer = link_unit::erase(&mut unit.marks, &mut unit.rows, &mut unit.doors);
    put_answer(line, answer, b"erased");
}
