// What the exported calls of the unit give back. In specs/: how it is read as a step of the unit, and the laws by which an export gives back the step of the call within it.
#![tactic(auto)]

use host_reply::ReplyNumbers;

// What a result gives back; the secret is zeros unless a session is resumed.
#[repr(C)]
#[derive(Clone, Copy)]
pub struct LinkResult {
    pub reply: ReplyNumbers,
    pub secret: [u8; 32],
}
