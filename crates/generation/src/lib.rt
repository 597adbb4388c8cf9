// Rekeying: the generation record of a connection, and what its steps answer. The definitions and theorems are in specs/; the crates above have the steps.
#![tactic(auto)]

// Local, remote, last used in sending, and whether FINp was sent.
#[repr(C)]
#[derive(Clone, Copy, Debug, PartialEq, Eq)]
pub struct GenerationRecord {
    pub local: u16,
    pub remote: u16,
    pub last: u16,
    pub fin: bool,
}

// What a step answers.
#[derive(Clone, Copy, Debug, PartialEq, Eq)]
pub enum GenerationReply {
    // A frame is sent under this generation, with rekey or without.
    Sent { generation: u16, rekey: bool },
    // A frame came under this generation.
    Received(u16),
}

// Why a step is refused: the record stays as it was.
#[derive(Clone, Copy, Debug, PartialEq, Eq)]
pub enum GenerationRefusal {
    Owed,
    PastLast,
    Finished,
    Unanswered,
}

// A step that was made: the record afterwards, and the answer.
#[derive(Clone, Copy, Debug, PartialEq, Eq)]
pub struct GenerationStep {
    pub next: GenerationRecord,
    pub reply: GenerationReply,
}
