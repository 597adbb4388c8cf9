// SHA-256, HMAC and HKDF: the words of a hash value, and what the calls on a hash answer. The definitions and theorems are in specs/; the crates above have the calls.
#![tactic(auto)]

// The working variables of FIPS 180-4, 6.2.2, and a hash value H. No array: `round_of` and `plus` (specs/Sha256) name the eight as the standard does.
#[derive(Clone, Copy)]
pub struct Words {
    pub a: u32,
    pub b: u32,
    pub c: u32,
    pub d: u32,
    pub e: u32,
    pub f: u32,
    pub g: u32,
    pub h: u32,
}

// A hash, one of a MAC's too, would be over more than 2^61 - 1 bytes.
#[derive(Clone, Copy, PartialEq, Eq)]
pub struct TooLong;
