// Messages in pieces: what a reader of pieces answers. The definitions and theorems are in specs/; the crates above have the calls.
#![tactic(auto)]

// What a call that is given a piece tells: it waits for more; a finished item; or the refusal with its position.
#[derive(Clone, Copy)]
pub enum PieceSays {
    Waiting,
    // nonce and key stand in the gathered bytes
    Init1 {
        cipher: u16,
        count: usize,
        length: usize,
        keys: usize,
    },
    Init2 {
        cipher: u16,
        length: usize,
        keys: usize,
    },
    Header {
        rekey: bool,
        clen: u16,
        next: u64,
        control: u8,
        high: u8,
        low: u8,
    },
    // a range of the stream
    Body {
        begins: u64,
        ends: u64,
    },
    Unreadable(u64),
    NoCommonCipher(u64),
    NoFrame(u64),
    NoRoom,
}

// That, and how many bytes of the piece were used.
#[derive(Clone, Copy)]
pub struct Fed {
    pub used: usize,
    pub says: PieceSays,
}

// What starting a reader answers.
#[derive(Clone, Copy)]
pub enum PieceStart {
    Started,
    Unfit,
    NoRoom,
}
