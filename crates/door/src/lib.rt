// One door: what it keeps, and what its calls answer. The definitions and theorems are in specs/; the crates above have the calls.
#![tactic(auto)]

ghost use Rattle.std.specs.Prelude.{◌≡◌};
ghost use Rattle.door.specs.Door.{phase_number};
ghost use Rattle.door.specs.Answers.{refusal_number, phase_as};

use eno::{Cause, InHand, SessionRecord};

// How many records a door may hold.
pub const EACH: usize = 4;

// A door's own data, in plain numbers, so that a host can hold it.
#[repr(C)]
#[derive(Clone, Copy)]
pub struct Door {
    // 0 Idle, 1 Offered, 2 Crossed, 3 Answered, 4 Open, 5 Plain; any other reads as Idle.
    // It is no Phase: a host may lend any byte here, and a call that is refused leaves it as it was (unit_step's theorem refused_leaves_every_byte).
    pub phase: u8,
    pub mandatory: bool,
    // Why it is Plain.
    pub cause: Cause,
    // The verdict: this end's role, the TEP byte with v, fresh or resumed.
    pub role: u8,
    pub tep: u8,
    pub resumed: bool,
    // The two options; a length above 40 reads as 40.
    pub own_length: u8,
    pub peer_length: u8,
    pub own: [u8; 40],
    pub peer: [u8; 40],
    pub hand: InHand,
}

// What a door's calls see: its own data and the records that it holds, oldest first; a count above the most reads as the most.
#[derive(Clone, Copy)]
pub struct View {
    pub door: Door,
    pub count: u8,
    pub held: [SessionRecord; EACH],
}

// What a call does with the pool: the record that is added stands beside it.
#[derive(Clone, Copy)]
pub enum Change {
    Keep,
    Add,
    Remove(usize),
}

// Why a call is refused.
#[derive(Clone, Copy, PartialEq, Eq)]
pub enum Refusal {
    NoDoor,
    AreaTooLong,
    Unfit,
    OutOfTurn,
    NoRoom,
    Full,
    AlreadyHeld,
    NotHeld,
}

impl Refusal {
    // Document 01's number of it.
    pub fn number(self) -> u8
        ensures { result ≡ refusal_number self }
    {
        match self {
            Refusal::NoDoor => 1,
            Refusal::AreaTooLong => 2,
            Refusal::Unfit => 3,
            Refusal::OutOfTurn => 4,
            Refusal::NoRoom => 5,
            Refusal::Full => 6,
            Refusal::AlreadyHeld => 7,
            Refusal::NotHeld => 16,
        }
    }
}

#[derive(Clone, Copy, PartialEq, Eq)]
pub enum Phase {
    Idle,
    Offered,
    Crossed,
    Answered,
    Open,
    Plain,
}

impl Phase {
    // The number by which a door keeps it.
    #[tactic(auto, unfolding(crate::specs::Door::phase_number))]
    pub fn number(self) -> u8
        ensures { result ≡ phase_number (phase_as self) }
    {
        match self {
            Phase::Idle => 0,
            Phase::Offered => 1,
            Phase::Crossed => 2,
            Phase::Answered => 3,
            Phase::Open => 4,
            Phase::Plain => 5,
        }
    }
}

// What a call replies where it is not refused.
#[derive(Clone, Copy)]
pub enum Reply {
    Written(usize),
    Plain(Cause),
    Now(Phase),
    Encrypted {
        role: u8,
        tep: u8,
        resumed: bool,
        length: usize,
    },
    Done,
    Holds(usize),
}

// What result replies, and beside it the secret of the session that is resumed: zeros where there is none.
#[derive(Clone, Copy)]
pub struct Resulted {
    pub reply: Reply,
    pub secret: [u8; 32],
}
