// What the calls on frames give back, in plain numbers. The definitions and laws are in specs/; the crates above make the numbers.
#![tactic(auto)]

// What reading a header gives; all but kind and number are zeros beside a refusal.
#[repr(C)]
#[derive(Clone, Copy)]
pub struct HeaderNumbers {
    // The offset after the frame, or the refusal's number.
    pub number: usize,
    pub clen: u16,
    // 0 refused, 12 a header.
    pub kind: u8,
    // 1 where the frame carries rekey.
    pub rekey: u8,
    // The header's three bytes as received.
    pub associated: [u8; 3],
}

#[repr(C)]
#[derive(Clone, Copy)]
pub struct FrameId {
    pub bytes: [u8; 12],
}

// A frame's nonce, zeros beside a refusal.
#[repr(C)]
#[derive(Clone, Copy)]
pub struct NonceNumbers {
    // 0, or the refusal's number.
    pub number: usize,
    // 0 refused, 13 a nonce.
    pub kind: u8,
    pub nonce: [u8; 12],
}

// What reading a plaintext gives.
#[repr(C)]
#[derive(Clone, Copy)]
pub struct PlaintextNumbers {
    // Where the data begin, or the refusal's number.
    pub number: usize,
    // 0 without URGp.
    pub urgent: u16,
    // 0 refused, 14 a plaintext.
    pub kind: u8,
    // 1 with FINp, with URGp.
    pub fin: u8,
    pub urg: u8,
}
