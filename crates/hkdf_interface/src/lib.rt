// HKDF as the crates above may know it: what extract and expand answer. The promise is specs/Interface.antt; the calls are in hkdf.
#![tactic(auto)]

// Why an extraction is refused: one of its hashes would be over more than 2^61 - 1 bytes.
pub use hash_layout::TooLong;

// Why an expansion is refused: a key not of 32 bytes, a lent buffer that is too short, or more than 255 hash lengths or a hash over more than 2^61 - 1 bytes.
#[derive(Clone, Copy, PartialEq, Eq)]
pub enum ExpandRefusal {
    Unfit,
    NoRoom,
    TooLong,
}
