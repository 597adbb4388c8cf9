// Init1 and Init2: the ciphers that an end has enabled, and what writers and readers answer. The definitions and theorems are in specs/; the crates above have the calls.
#![tactic(auto)]

// The ciphers that this end has enabled.
#[derive(Clone, Copy)]
pub struct Enabled {
    // 0001
    pub aes128: bool,
    // 0002
    pub aes256: bool,
    // 0010
    pub chacha20: bool,
}

// Why a writer writes nothing.
#[derive(Clone, Copy)]
pub enum InitWriteRefusal {
    Unfit,
    NoRoom,
}

// What a reader reads: the cipher that is taken, how many ciphers are listed, the length of the whole message, the nonce, and the key with zeros up to 56 bytes.
#[derive(Clone, Copy)]
pub struct InitMessage {
    pub cipher: u16,
    pub count: usize,
    pub length: usize,
    pub nonce: [u8; 32],
    pub key: [u8; 56],
}

// Why a reader reads nothing.
#[derive(Clone, Copy)]
pub enum InitRefusal {
    Unfit,
    Unreadable,
    Incomplete,
    NoCommonCipher,
}
