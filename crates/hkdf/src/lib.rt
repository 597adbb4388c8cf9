// HKDF over HMAC-SHA-256 (RFC 5869): extract, from one input or from four parts, and expand. Which way is taken and which index is read depends on lengths alone, never on the bytes.
#![tactic(auto)]

ghost use Rattle.std.specs.Prelude.{◌≡◌, ◌≤◌, ◌<◌, ◌+◌, ◌^◌, ◌++◌, length};
ghost use Rattle.wire.specs.Bytes.{pasted};
ghost use Rattle.hash_layout.specs.Hmac.{hmac};
ghost use Rattle.hash_layout.specs.Hkdf.{hkdf_expand};
ghost use Rattle.hash_layout.specs.Calls.{Ask, expand_too_long, outcome};
ghost use Rattle.hkdf_interface.specs.Answers.{extract_told, expand_told};
ghost use Rattle.hkdf.specs.Expanding.{Fits, least_of};

use hkdf_interface::{ExpandRefusal, TooLong};

// The key that is extracted from four parts, one after the other.
#[tactic(auto, using(crate::proofs::Told::extract_told_lem))]
pub fn extract_parts(
    salt: &[u8],
    a: &[u8],
    b: &[u8],
    c: &[u8],
    d: &[u8],
) -> Result<[u8; 32], TooLong>
    ensures { extract_told result ≡ outcome (Ask.extract salt.now (a.now ++ (b.now ++ (c.now ++ d.now)))) }
{
    hmac::mac_parts(salt, a, b, c, d)
}

// The key that is extracted from input keying material.
#[tactic(auto, using(crate::proofs::Told::extract_told_lem))]
pub fn extract(salt: &[u8], ikm: &[u8]) -> Result<[u8; 32], TooLong>
    ensures { extract_told result ≡ outcome (Ask.extract salt.now ikm.now) }
{
    hmac::mac(salt, ikm)
}

// Whether an expansion is above 255 hash lengths, or one of its hashes over too many bytes.
#[tactic(auto, using(crate::proofs::Told::long_over, crate::proofs::Told::more_is, crate::proofs::Told::first_is, crate::proofs::Told::fits_none))]
fn too_long(info: usize, size: usize) -> bool
    ensures { result ≡ expand_too_long info size }
{
    match size {
        0 => false,
        1..=32 => info > 0x1fffffffffffffbe,
        33..=8160 => info > 0x1fffffffffffff9e,
        _ => true,
    }
}

// T(i + 1), of T(i), info and the counter.
fn next_block(prk: &[u8], last: &[u8], info: &[u8], counter: &[u8]) -> [u8; 32]
    requires { (length prk.now ≤ 64) × (64 + (length last.now + (length info.now + length counter.now)) < 2 ^ 61) }
    ensures { result ≡ hmac prk.now (last.now ++ (info.now ++ counter.now)) }
{
    hmac::mac_parts(prk, last, info, counter, &[]).unwrap()
}

// The lesser of n and a hash length.
#[tactic(auto, using(crate::proofs::Blocks::least_full, crate::proofs::Blocks::least_part))]
fn least(n: usize) -> usize
    ensures { result ≡ least_of n }
{
    if n > 32 { 32 } else { n }
}

// Writes as many bytes as are asked for to the front of out: T after T, the last one as far as it goes.
fn write_expanded(prk: &[u8], info: &[u8], size: usize, out: &mut [u8])
    requires { Fits prk.now info.now size out.old }
    ensures { out.new ≡ pasted out.old 0 (hkdf_expand prk.now info.now size) }
{
    let mut t = [0u8; 32];
    let mut n = 0;
    let mut at = 0;
    // With `out[..size].chunks_mut(32)` the proof of this function did not close.
    while at < size {
        let m = least(size - at);
        let i = at / 32 + 1;
        let c = [i as u8];
        t = next_block(prk, &t[..n], info, &c);
        wire::copy(out, at, &t[..m]);
        n = 32;
        at += m;
    }
}

// As many bytes as are asked for, expanded from a key of 32 bytes, at the front of the lent buffer.
pub fn expand(key: &[u8], info: &[u8], size: usize, out: &mut [u8]) -> Result<usize, ExpandRefusal>
    ensures { expand_told result out.new ≡ outcome (Ask.expand key.now info.now size out.old) }
{
    if key.len() != 32 {
        return Err(ExpandRefusal::Unfit);
    }
    if out.len() < size {
        return Err(ExpandRefusal::NoRoom);
    }
    if too_long(info.len(), size) {
        return Err(ExpandRefusal::TooLong);
    }
    write_expanded(key, info, size, out);
    Ok(size)
}
