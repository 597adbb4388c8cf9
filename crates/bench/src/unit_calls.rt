// Lines that are calls of the unit, which is lent.
use crate::said::Answer;
use crate::{read, said, say, word};
use door::{Phase, Refusal, Reply};
use eno::Cause;
use link_unit::{DOORS, PLACE, ROW, ROWS, WORDS};
use std::io;
use std::io::Stdout;

// The secret of every record of the bench.
const SECRET: u8 = 0x5a;

// How long a line's bytes may be.
const ROOM: usize = 80;

fn wide(x: u8) -> u64 {
    x as u64
}

fn phase_form(phase: Phase) -> usize {
    match phase {
        Phase::Idle => said::IDLE,
        Phase::Offered => said::OFFERED,
        Phase::Crossed => said::CROSSED,
        Phase::Answered => said::ANSWERED,
        Phase::Open => said::OPEN,
        Phase::Plain => said::PHASE_PLAIN,
    }
}

fn way_form(resumed: bool) -> usize {
    if resumed {
        return said::RESUMED;
    }
    said::FRESH
}

// Plain TCP and its reason; of an unreadable area also the place and the kind of the option that makes it so.
fn plain_answer(cause: Cause) -> Answer {
    if cause.reason != 1 {
        return said::one(said::PLAIN, wide(cause.reason));
    }
    said::four(said::UNREADABLE, 1, wide(cause.place), wide(cause.kind), 0)
}

fn answer_of(told: Result<Reply, Refusal>) -> Answer {
    match told {
        Err(why) => said::refused(u64::from(why.number())),
        Ok(Reply::Written(n)) => said::one(said::WROTE, n as u64),
        Ok(Reply::Plain(cause)) => plain_answer(cause),
        Ok(Reply::Now(phase)) => said::plain(phase_form(phase)),
        Ok(
            Reply::Encrypted {
                role,
                tep,
                resumed,
                length,
            },
        ) => said::four(way_form(resumed), wide(role), wide(tep), length as u64, 0),
        Ok(Reply::Done) => said::plain(said::DONE),
        Ok(Reply::Holds(n)) => said::one(said::HOLDS, n as u64),
    }
}

// The word of an offer whose side is application-aware; `word` has the others.
const AWARE: u32 = 0x6177_6172;

fn is_aware(line: &[u8], mandatory: bool) -> bool {
    if mandatory {
        return true;
    }
    read::has(line, AWARE)
}

// An offer without a nonce; where it is mandatory that the other side is application-aware, this side is too.
fn offer(
    marks: &mut [u32; WORDS],
    rows: &mut [[u8; ROW]; ROWS],
    doors: &mut [[u8; PLACE]; DOORS],
    door: usize,
    line: &[u8],
    lent: &mut [u8],
) -> Result<Reply, Refusal> {
    let b = read::small(line, word::ROLE);
    let mandatory = read::has(line, word::MANDATORY);
    let aware = is_aware(line, mandatory);
    let mut list = [0u8; ROOM];
    let n = read::list(line, word::TEPS, &mut list);
    let resume = read::has(line, word::RESUMING);
    link_unit::offer(
        marks,
        rows,
        doors,
        door,
        b,
        aware,
        mandatory,
        text_words::first(&list, n),
        resume,
        b"",
        lent,
    )
}

// An answer without a nonce; where it is mandatory that the other side is application-aware, this side is too.
fn answer(
    marks: &mut [u32; WORDS],
    rows: &mut [[u8; ROW]; ROWS],
    doors: &mut [[u8; PLACE]; DOORS],
    door: usize,
    line: &[u8],
    lent: &mut [u8],
) -> Result<Reply, Refusal> {
    let mut area = [0u8; ROOM];
    let long = read::list(line, word::AREA, &mut area);
    let aware = read::has(line, word::MANDATORY);
    let mut list = [0u8; ROOM];
    let n = read::list(line, word::TEPS, &mut list);
    link_unit::answer(
        marks,
        rows,
        doors,
        door,
        text_words::first(&area, long),
        aware,
        aware,
        text_words::first(&list, n),
        b"",
        lent,
    )
}

fn receive(
    marks: &[u32; WORDS],
    rows: &[[u8; ROW]; ROWS],
    doors: &mut [[u8; PLACE]; DOORS],
    door: usize,
    line: &[u8],
) -> Result<Reply, Refusal> {
    let mut area = [0u8; ROOM];
    let n = read::list(line, word::AREA, &mut area);
    let syn = !read::has(line, word::ACK);
    let ack = !read::has(line, word::SYN);
    link_unit::receive(
        marks,
        rows,
        doors,
        door,
        syn,
        ack,
        text_words::first(&area, n),
    )
}

// The byte of which the secret that a reply gives has 32.
fn secret_of(reply: Reply) -> u8 {
    if let Reply::Encrypted {
        role,
        tep,
        resumed,
        length,
    } = reply
    {
        if resumed {
            return SECRET;
        }
    }
    0
}

fn secret_told(to: Stdout, came: [u8; 32], expected: u8) -> io::Result<()> {
    let secret = [expected; 32];
    if !wire::same(&came, &secret) {
        return say::text(to, b"ANOTHER SECRET\n");
    }
    Ok(())
}

fn result(
    to: Stdout,
    marks: &[u32; WORDS],
    rows: &[[u8; ROW]; ROWS],
    doors: &[[u8; PLACE]; DOORS],
    door: usize,
    lent: &mut [u8],
) -> io::Result<Result<Reply, Refusal>> {
    match link_unit::result(marks, rows, doors, door, lent) {
        Ok(told) => {
            secret_told(to, told.secret, secret_of(told.reply))?;
            Ok(Ok(told.reply))
        }
        Err(refusal) => Ok(Err(refusal)),
    }
}

fn store(
    marks: &mut [u32; WORDS],
    rows: &mut [[u8; ROW]; ROWS],
    doors: &mut [[u8; PLACE]; DOORS],
    door: usize,
    line: &[u8],
) -> Result<Reply, Refusal> {
    let tep = read::byte(line, word::TEP);
    let b = read::small(line, word::ROLE);
    let mut identifier = [0u8; ROOM];
    let n = read::list(line, word::IDENTIFIER, &mut identifier);
    let secret = [SECRET; 32];
    link_unit::store(
        marks,
        rows,
        doors,
        door,
        tep,
        b,
        text_words::first(&identifier, n),
        &secret,
    )
}

fn forget(
    marks: &mut [u32; WORDS],
    rows: &mut [[u8; ROW]; ROWS],
    doors: &mut [[u8; PLACE]; DOORS],
    door: usize,
    line: &[u8],
) -> Result<Reply, Refusal> {
    let tep = read::byte(line, word::TEP);
    let mut identifier = [0u8; ROOM];
    let n = read::list(line, word::IDENTIFIER, &mut identifier);
    link_unit::forget(
        marks,
        rows,
        doors,
        door,
        tep,
        text_words::first(&identifier, n),
    )
}

fn record_call(
    marks: &mut [u32; WORDS],
    rows: &mut [[u8; ROW]; ROWS],
    doors: &mut [[u8; PLACE]; DOORS],
    door: usize,
    line: &[u8],
) -> Result<Reply, Refusal> {
    if read::has(line, word::STORE) {
        return store(marks, rows, doors, door, line);
    }
    if read::has(line, word::FORGET) {
        return forget(marks, rows, doors, door, line);
    }
    link_unit::count(marks, rows, doors, door)
}

// The door that a line names; 7 where it names none.
fn door_of(line: &[u8]) -> usize {
    if read::has(line, word::DOOR) {
        return read::number(line, word::DOOR) as usize;
    }
    7
}

// The call of a line: what stands before its arrow.
fn call(
    to: Stdout,
    marks: &mut [u32; WORDS],
    rows: &mut [[u8; ROW]; ROWS],
    doors: &mut [[u8; PLACE]; DOORS],
    line: &[u8],
    lent: &mut [u8],
) -> io::Result<Result<Reply, Refusal>> {
    let door = door_of(line);
    if read::has(line, word::OFFER) {
        return Ok(offer(marks, rows, doors, door, line, lent));
    }
    if read::has(line, word::ANSWER) {
        return Ok(answer(marks, rows, doors, door, line, lent));
    }
    if read::has(line, word::AREA) {
        return Ok(receive(marks, rows, doors, door, line));
    }
    if read::has(line, word::RESEND) {
        return Ok(link_unit::resend(marks, rows, doors, door, lent));
    }
    if read::has(line, word::RESULT) {
        return result(to, marks, rows, doors, door, lent);
    }
    Ok(record_call(marks, rows, doors, door, line))
}

// Makes the call of a line and holds the line against what came.
pub fn made(
    to: Stdout,
    marks: &mut [u32; WORDS],
    rows: &mut [[u8; ROW]; ROWS],
    doors: &mut [[u8; PLACE]; DOORS],
    line: &[u8],
) -> io::Result<()> {
    let mut lent = [say::FILL; say::LENT];
    let reply = call(to, marks, rows, doors, read::given(line), &mut lent)?;
    say::check(to, line, answer_of(reply), &lent, say::FILL)
}
