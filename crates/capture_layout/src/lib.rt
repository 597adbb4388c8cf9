// Captures of handshakes: what the calls on them answer. The definitions and theorems are in specs/; the crates above have the calls.
#![tactic(auto)]

// Why a capture is refused: document 02's 18, 19, 20, and 1, 2 and 21. The checker gives the number of handshakes or this.
#[derive(Clone, Copy, PartialEq, Eq)]
pub enum CaptureRefusal {
    Size,
    PastEnd,
    Misplaced,
    NoDoor,
    AreaTooLong,
    BadSetting,
}

// Why a capture is not written: it is refused, or the lent buffer is shorter than the file. The writer gives the file's bytes by number or this.
#[derive(Clone, Copy, PartialEq, Eq)]
pub enum CaptureWriteRefusal {
    Refused(CaptureRefusal),
    NoRoom,
}
