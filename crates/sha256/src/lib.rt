// SHA-256 (FIPS 180-4) of a message, and of one that is given in five parts. Which way is taken and which index is read depends on lengths alone, never on the bytes.
#![tactic(auto)]

ghost use Rattle.std.specs.Prelude.{◌≡◌, ◌≤◌, ◌<◌, ◌+◌, ◌-◌, ◌^◌, ◌++◌, length, drop};
ghost use Rattle.std.proofs.Math.Seq.{paste};
ghost use Rattle.wire.specs.Number.{big_endian};
ghost use Rattle.hash_layout.specs.Sha256.{bytes_of, sha256};
ghost use Rattle.hash_layout.specs.Calls.{Ask, outcome};
ghost use Rattle.hash_layout.specs.Answers.{hash_told};
ghost use Rattle.sha256.specs.Running.{Begun, Adds, Stepped, Finished};

use hash_layout::{TooLong, Words};

// A running hash: the hash value of the whole blocks, and the number of bytes. The bytes after the blocks stand in a buffer of 64 bytes that is lent to each step, and no field, since `Held` and `Adds` (specs/Running) name the buffer beside the two.
#[derive(Clone, Copy)]
struct Running {
    h: Words,
    len: u64,
}

// A running hash, and the first byte of the part that it has not taken in.
#[derive(Clone, Copy)]
struct Taken {
    s: Running,
    next: usize,
}

// The most bytes that are hashed, 2^61 - 1.
const LONGEST: u128 = 0x1fffffffffffffff;

fn start() -> Running
    ensures { Begun result }
{
    let h = Words {
        a: 0x6a09e667,
        b: 0xbb67ae85,
        c: 0x3c6ef372,
        d: 0xa54ff53a,
        e: 0x510e527f,
        f: 0x9b05688c,
        g: 0x1f83d9ab,
        h: 0x5be0cd19,
    };
    Running { h, len: 0 }
}

// Writes k bytes of part from i on into buf, from used on.
fn fill(buf: &mut [u8], used: usize, part: &[u8], i: usize, k: usize)
    requires { (used + k ≤ length buf.old) × (i + k ≤ length part.now) }
    ensures { buf.new ≡ paste buf.old used (drop i part.now) k }
{
    buf[used..used + k].copy_from_slice(&part[i..i + k]);
}

// Takes in bytes of part from i on: a whole block where it can, else what fills the buffer.
fn step(s: Running, buf: &mut [u8], part: &[u8], i: usize) -> Taken
    requires { (length buf.old ≡ 64) × (s.len + (length part.now - i) < 2 ^ 62) × (i < length part.now) }
    ensures { Stepped s buf.old part.now i result.s buf.new result.next }
{
    let used = (s.len % 64) as usize;
    let rest = part.len() - i;
    if used == 0 && rest >= 64 {
        let h = sha256_block::compress(s.h, part, i);
        return Taken {
            s: Running { h, len: s.len + 64 },
            next: i + 64,
        };
    }
    let room = 64 - used;
    if rest < room {
        fill(buf, used, part, i, rest);
        return Taken {
            s: Running {
                h: s.h,
                len: s.len + (rest as u64),
            },
            next: i + rest,
        };
    }
    fill(buf, used, part, i, room);
    let h = sha256_block::compress(s.h, buf, 0);
    Taken {
        s: Running {
            h,
            len: s.len + (room as u64),
        },
        next: i + room,
    }
}

// Takes in the whole part.
fn update(s: Running, buf: &mut [u8], part: &[u8]) -> Running
    requires { (length buf.old ≡ 64) × (s.len + length part.now < 2 ^ 62) }
    ensures { Adds s buf.old result buf.new part.now }
{
    let mut r = s;
    let mut i = 0;
    // A step takes a whole block, or what fills the buffer, so no iterator over chunks of part has its places.
    while i < part.len() {
        let t = step(r, buf, part, i);
        r = t.s;
        i = t.next;
    }
    r
}

// The words of h, the highest byte of each first.
fn bytes_of(h: Words) -> [u8; 32]
    ensures { result ≡ bytes_of h }
{
    let mut bytes = [0u8; 32];
    bytes[0..4].copy_from_slice(&h.a.to_be_bytes());
    bytes[4..8].copy_from_slice(&h.b.to_be_bytes());
    bytes[8..12].copy_from_slice(&h.c.to_be_bytes());
    bytes[12..16].copy_from_slice(&h.d.to_be_bytes());
    bytes[16..20].copy_from_slice(&h.e.to_be_bytes());
    bytes[20..24].copy_from_slice(&h.f.to_be_bytes());
    bytes[24..28].copy_from_slice(&h.g.to_be_bytes());
    bytes[28..32].copy_from_slice(&h.h.to_be_bytes());
    bytes
}

// The digest of what the running hash has taken in: the padding is taken in behind it.
fn finish(s: Running, buf: &mut [u8]) -> [u8; 32]
    requires { (length buf.old ≡ 64) × (s.len < 2 ^ 61) }
    ensures { Finished s buf.old result }
{
    let len = s.len;
    let k = ((119 - len % 64) % 64) as usize;
    let n = k + 1;
    let mut pad = [0u8; 64];
    pad[0] = 0x80;
    let t = update(s, buf, &pad[..n]);
    let bits = (len * 8).to_be_bytes();
    let u = update(t, buf, &bits);
    bytes_of(u.h)
}

// The digest of five parts, with a buffer of 64 bytes.
fn digest_of(buf: &mut [u8], a: &[u8], b: &[u8], c: &[u8], d: &[u8], e: &[u8]) -> [u8; 32]
    requires { (length buf.old ≡ 64) × (length a.now + length b.now + length c.now + length d.now + length e.now < 2 ^ 61) }
    ensures { result ≡ sha256 (a.now ++ (b.now ++ (c.now ++ (d.now ++ e.now)))) }
{
    let s0 = start();
    let s1 = update(s0, buf, a);
    let s2 = update(s1, buf, b);
    let s3 = update(s2, buf, c);
    let s4 = update(s3, buf, d);
    let s5 = update(s4, buf, e);
    finish(s5, buf)
}

// The hash of five parts, one after the other.
#[tactic(auto, using(crate::proofs::Holding::five_over, crate::proofs::Holding::five_fits))]
pub fn hash_parts(a: &[u8], b: &[u8], c: &[u8], d: &[u8], e: &[u8]) -> Result<[u8; 32], TooLong>
    ensures { hash_told result ≡ outcome (Ask.hash (a.now ++ (b.now ++ (c.now ++ (d.now ++ e.now))))) }
{
    let n = (a.len() as u128)
        + (b.len() as u128)
        + (c.len() as u128)
        + (d.len() as u128)
        + (e.len() as u128);
    if n > LONGEST {
        return Err(TooLong);
    }
    let mut buf = [0u8; 64];
    Ok(digest_of(&mut buf, a, b, c, d, e))
}

// The hash of a message.
#[tactic(auto, using(crate::proofs::Holding::hash_one))]
pub fn hash(message: &[u8]) -> Result<[u8; 32], TooLong>
    ensures { hash_told result ≡ outcome (Ask.hash message.now) }
{
    hash_parts(message, &[], &[], &[], &[])
}
