// The key schedule of tcpcrypt: its ciphers, and what the calls on it answer. The definitions and theorems are in specs/; the crates above have the calls.
#![tactic(auto)]

ghost use Rattle.std.specs.Prelude.{◌≡◌};
ghost use Rattle.key_layout.specs.Cipher.{cipher_number, cipher_of, key_length};

// The constants of RFC 8548, 4.3, which begin a label.
pub const NEXT_KEY: u8 = 0x01;

pub const SESSION_ID: u8 = 0x02;

pub const REKEY: u8 = 0x03;

pub const KEY_A: u8 = 0x04;

pub const KEY_B: u8 = 0x05;

pub const RESUME: u8 = 0x06;

// An AEAD cipher that the schedule knows.
#[derive(Clone, Copy, PartialEq, Eq)]
pub enum Cipher {
    Aes128Gcm,
    Aes256Gcm,
    Chacha20Poly1305,
}

impl Cipher {
    pub const AES_128_GCM: u16 = 0x0001;

    pub const AES_256_GCM: u16 = 0x0002;

    pub const CHACHA20_POLY1305: u16 = 0x0010;

    pub const KEY_128: usize = 16;

    pub const KEY_256: usize = 32;

    // The cipher with a number on the wire, if the schedule knows it.
    #[tactic(auto, using(crate::proofs::CipherLaws::cipher_128, crate::proofs::CipherLaws::cipher_256, crate::proofs::CipherLaws::cipher_chacha, crate::proofs::CipherLaws::cipher_unknown))]
    pub fn of(number: u16) -> Option<Cipher>
        ensures { result ≡ cipher_of number }
    {
        if number == Cipher::AES_128_GCM {
            Some(Cipher::Aes128Gcm)
        } else if number == Cipher::AES_256_GCM {
            Some(Cipher::Aes256Gcm)
        } else if number == Cipher::CHACHA20_POLY1305 {
            Some(Cipher::Chacha20Poly1305)
        } else {
            None
        }
    }

    // Its number on the wire.
    pub fn number(self) -> u16
        ensures { result ≡ cipher_number self }
    {
        match self {
            Cipher::Aes128Gcm => Cipher::AES_128_GCM,
            Cipher::Aes256Gcm => Cipher::AES_256_GCM,
            Cipher::Chacha20Poly1305 => Cipher::CHACHA20_POLY1305,
        }
    }

    // How long its key is.
    pub fn key_length(self) -> usize
        ensures { result ≡ key_length (cipher_number self) }
    {
        match self {
            Cipher::Aes128Gcm => Cipher::KEY_128,
            Cipher::Aes256Gcm => Cipher::KEY_256,
            Cipher::Chacha20Poly1305 => Cipher::KEY_256,
        }
    }
}

// Why a call is refused. A call gives a secret, a master key, a session ID or an identifier as an array of its bytes.
#[derive(Clone, Copy, PartialEq, Eq)]
pub enum KeyRefusal {
    Unfit,
    TooLong,
}

// What one host encrypts with: the cipher's key, its length, zeros behind it, and the fixed nonce. The memory is fixed, so a key of 16 bytes stands in 32 with its length beside it.
#[derive(Clone, Copy)]
pub struct TrafficKeys {
    pub length: usize,
    pub key: [u8; 32],
    pub fixed: [u8; 12],
}
