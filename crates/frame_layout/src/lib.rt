// Encryption frames: what the calls on them answer. The definitions and theorems are in specs/; the crates above have the calls.
#![tactic(auto)]

// Why a header is not written.
#[derive(Clone, Copy, Debug, PartialEq, Eq)]
pub enum HeaderWriteRefusal {
    NoRoom,
    NoFrame,
}

// A header as received: what it says, where the next frame begins, and the associated data, which are its three bytes.
#[derive(Clone, Copy, Debug, PartialEq, Eq)]
pub struct Header {
    pub rekey: bool,
    pub clen: u16,
    pub next: u64,
    pub associated: [u8; 3],
}

// Why a header is not read.
#[derive(Clone, Copy, Debug, PartialEq, Eq)]
pub enum HeaderReadRefusal {
    Incomplete,
    NoFrame,
}

// The fixed nonce has another length than a nonce.
#[derive(Clone, Copy, Debug, PartialEq, Eq)]
pub struct OtherLength;

// Why a plaintext is not written.
#[derive(Clone, Copy, Debug, PartialEq, Eq)]
pub enum PlaintextWriteRefusal {
    NoRoom,
    TooLong,
}

// A plaintext: its flags, the urgent field (0 without URGp) and where its data begin.
#[derive(Clone, Copy, Debug, PartialEq, Eq)]
pub struct Plaintext {
    pub fin: bool,
    pub urg: bool,
    pub urgent: u16,
    pub data_at: usize,
}

// The bytes are too few for a plaintext.
#[derive(Clone, Copy, Debug, PartialEq, Eq)]
pub struct TooShort;
