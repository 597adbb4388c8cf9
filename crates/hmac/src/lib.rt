// HMAC-SHA-256 (RFC 2104) of a message, and of one that is given in four parts. Which way is taken and which index is read depends on lengths alone, never on the bytes.
#![tactic(auto)]

ghost use Rattle.std.specs.Prelude.{◌≡◌, ◌≤◌, ◌++◌, length, IfOk, is_err};
ghost use Rattle.hash_layout.specs.Hmac.{block_of, key_block, xor_all};
ghost use Rattle.hash_layout.specs.Calls.{Ask, outcome, too_long};
ghost use Rattle.hash_layout.specs.Answers.{hash_told};
ghost use Rattle.hmac.specs.Keyed.{keyed_outcome};

use hash_layout::TooLong;

// The bytes of s, and zeros up to 64.
fn block_of(s: &[u8]) -> [u8; 64]
    requires { length s.now ≤ 64 }
    ensures { result ≡ block_of s.now }
{
    let mut block = [0u8; 64];
    block[..s.len()].copy_from_slice(s);
    block
}

// A key's block: a key that is longer than a block is hashed first.
fn key_block(key: &[u8]) -> Result<[u8; 64], TooLong>
    ensures made { IfOk result (λ k. k ≡ key_block key.now) }
    ensures long { is_err result ≡ too_long (length key.now) }
{
    if key.len() <= 64 {
        return Ok(block_of(key));
    }
    let digest = sha256::hash(key)?;
    Ok(block_of(&digest))
}

// Each byte of the block XOR x.
fn xored(mut block: [u8; 64], x: u8) -> [u8; 64]
    ensures { result ≡ xor_all x block }
{
    for y in block.iter_mut() {
        *y ^= x;
    }
    block
}

// The MAC with a key's block: a hash over the digest of another.
fn keyed(k: [u8; 64], a: &[u8], b: &[u8], c: &[u8], d: &[u8]) -> Result<[u8; 32], TooLong>
    ensures { hash_told result ≡ keyed_outcome k (a.now ++ (b.now ++ (c.now ++ d.now))) }
{
    let pad = xored(k, 0x36);
    let inner = sha256::hash_parts(&pad, a, b, c, d)?;
    let pad = xored(k, 0x5c);
    sha256::hash_parts(&pad, &inner, &[], &[], &[])
}

// The MAC of four parts, one after the other.
pub fn mac_parts(key: &[u8], a: &[u8], b: &[u8], c: &[u8], d: &[u8]) -> Result<[u8; 32], TooLong>
    ensures { hash_told result ≡ outcome (Ask.mac key.now (a.now ++ (b.now ++ (c.now ++ d.now)))) }
{
    let k = key_block(key)?;
    keyed(k, a, b, c, d)
}

// The MAC of a message.
#[tactic(auto, using(crate::proofs::Macs::mac_one))]
pub fn mac(key: &[u8], message: &[u8]) -> Result<[u8; 32], TooLong>
    ensures { hash_told result ≡ outcome (Ask.mac key.now message.now) }
{
    mac_parts(key, message, &[], &[], &[])
}
