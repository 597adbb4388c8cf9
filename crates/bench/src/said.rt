// What a call answers: a form, by the place where it stands in the text of `say::put_answer`, and the numbers that it shows in turn.
#[derive(Clone, Copy)]
pub struct Answer {
    pub form: usize,
    pub a: u64,
    pub b: u64,
    pub c: u64,
    pub d: u64,
    pub e: u64,
}

pub const REFUSED: usize = 0;

pub const WROTE: usize = 11;

pub const PLAIN: usize = 20;

pub const UNREADABLE: usize = 29;

pub const HOLDS: usize = 53;

pub const DONE: usize = 62;

pub const IDLE: usize = 68;

pub const OFFERED: usize = 74;

pub const CROSSED: usize = 83;

pub const ANSWERED: usize = 92;

pub const OPEN: usize = 102;

pub const PHASE_PLAIN: usize = 108;

pub const FRESH: usize = 115;

pub const RESUMED: usize = 148;

pub const CIPHER: usize = 183;

pub const NEXT: usize = 211;

pub const HEADER: usize = 219;

pub const MADE: usize = 244;

pub const PLAINTEXT: usize = 250;

pub const WROTE_PLAINTEXT: usize = 279;

pub const SENT: usize = 316;

pub const RECEIVED: usize = 332;

pub const RECORD: usize = 344;

pub const STARTED: usize = 382;

pub const WAITING: usize = 391;

pub const INIT1: usize = 407;

pub const INIT2: usize = 448;

pub const FED_HEADER: usize = 481;

pub const BODY: usize = 520;

pub const REFUSED_AT: usize = 540;

pub fn five(form: usize, a: u64, b: u64, c: u64, d: u64, e: u64) -> Answer {
    Answer {
        form,
        a,
        b,
        c,
        d,
        e,
    }
}

pub fn four(form: usize, a: u64, b: u64, c: u64, d: u64) -> Answer {
    five(form, a, b, c, d, 0)
}

pub fn one(form: usize, a: u64) -> Answer {
    five(form, a, 0, 0, 0, 0)
}

pub fn plain(form: usize) -> Answer {
    one(form, 0)
}

// The scope document's number of a refusal.
pub fn refused(n: u64) -> Answer {
    one(REFUSED, n)
}

pub fn flag(x: bool) -> u64 {
    if x {
        return 1;
    }
    0
}
