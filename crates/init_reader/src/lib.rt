// Init1 and Init2, read as far as bytes are at hand.
#![tactic(auto)]

ghost use Rattle.std.specs.Prelude.{◌≡◌, ◌+◌, ◌≤◌, length, Ok};
ghost use Rattle.wire.specs.Bytes.{bytes_from};
ghost use Rattle.init_layout.specs.Reading.{took, reading_as, padded, read_init1, read_init2};
ghost use Rattle.init_layout.specs.Answers.{reading_of};

use init_layout::{Enabled, InitMessage, InitRefusal};

// The most ciphers that an Init1 lists.
const MOST: usize = 255;

// The nonce at a place.
fn nonce_at(s: &[u8], at: usize) -> [u8; 32]
    requires { at + 32 ≤ length s.now }
    ensures { result ≡ bytes_from 32 s.now at }
{
    let mut nonce = [0u8; 32];
    nonce.copy_from_slice(&s[at..at + 32]);
    nonce
}

// The key at a place, with zeros up to 56 bytes.
fn key_at(s: &[u8], at: usize, keys: usize) -> [u8; 56]
    requires { (at + keys ≤ length s.now) × (keys ≤ 56) }
    ensures { result ≡ padded (bytes_from keys s.now at) }
{
    let mut key = [0u8; 56];
    wire::copy(&mut key, 0, &s[at..at + keys]);
    key
}

// A message that was read, and the cipher that is taken.
fn taken(cipher: u16, count: usize, whole: usize, s: &[u8], at: usize, keys: usize) -> InitMessage
    requires { (at + 32 + keys ≤ length s.now) × (keys ≤ 56) }
    ensures { reading_of (Ok result) ≡ reading_as (took cipher count whole) (bytes_from 32 s.now at) (padded (bytes_from keys s.now (at + 32))) }
{
    let nonce = nonce_at(s, at);
    let key = key_at(s, at + 32, keys);
    InitMessage {
        cipher,
        count,
        length: whole,
        nonce,
        key,
    }
}

// The two readers stay two functions: B takes a cipher of a list by what it has enabled, and A the one cipher by its own list.

// Init1 as host B reads it: the first of its ciphers that B has enabled, its nonce and its key.
pub fn init1_read(tep: u8, enabled: Enabled, bytes: &[u8]) -> Result<InitMessage, InitRefusal>
    ensures { reading_of result ≡ read_init1 tep enabled bytes.now }
{
    let keys = init_steps::keys_of(tep);
    if keys == 0 {
        return Err(InitRefusal::Unfit);
    }
    let n = init_progress::progress1(tep, bytes)?;
    let Some(cipher) = init_choice::first_enabled(enabled, bytes) else {
        return Err(InitRefusal::NoCommonCipher);
    };
    let count = init_steps::count_of(bytes);
    let at = 9 + 2 * count;
    Ok(taken(cipher, count, n, bytes, at, keys))
}

// Init2 as host A reads it, whose own Init1 offered the ciphers `own`: the cipher that B takes, its nonce and its key.
pub fn init2_read(tep: u8, own: &[u16], bytes: &[u8]) -> Result<InitMessage, InitRefusal>
    ensures { reading_of result ≡ read_init2 tep own.now bytes.now }
{
    let size = init_steps::keys_of(tep);
    if MOST < own.len() || size == 0 {
        return Err(InitRefusal::Unfit);
    }
    let n = init_progress::progress2(tep, bytes)?;
    let cipher = wire_numbers::read_u16(bytes, 8);
    if !init_listed::is_in(own, cipher) {
        return Err(InitRefusal::NoCommonCipher);
    }
    Ok(taken(cipher, 1, n, bytes, 10, size))
}
