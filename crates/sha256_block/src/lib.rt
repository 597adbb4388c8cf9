// The compression function of SHA-256 (FIPS 180-4, 6.2.2).
#![tactic(auto)]

ghost use Rattle.std.specs.Prelude.{◌≡◌, ◌≤◌, ◌+◌, ◌*◌, ◌%◌, ◌^◌, length, take, drop};
ghost use Rattle.hash_layout.specs.Constants.{k256};
ghost use Rattle.hash_layout.specs.Sha256.{ch, maj, big_sigma0, big_sigma1, sigma0, sigma1, schedule, round_of, plus, compressed};
ghost use Rattle.sha256_block.specs.Blocks.{compressed_at};

use hash_layout::Words;

// K, FIPS 180-4, 4.2.2.
const K: [u32; 64] = [
    0x428a2f98, 0x71374491, 0xb5c0fbcf, 0xe9b5dba5, 0x3956c25b, 0x59f111f1, 0x923f82a4, 0xab1c5ed5,
    0xd807aa98, 0x12835b01, 0x243185be, 0x550c7dc3, 0x72be5d74, 0x80deb1fe, 0x9bdc06a7, 0xc19bf174,
    0xe49b69c1, 0xefbe4786, 0x0fc19dc6, 0x240ca1cc, 0x2de92c6f, 0x4a7484aa, 0x5cb0a9dc, 0x76f988da,
    0x983e5152, 0xa831c66d, 0xb00327c8, 0xbf597fc7, 0xc6e00bf3, 0xd5a79147, 0x06ca6351, 0x14292967,
    0x27b70a85, 0x2e1b2138, 0x4d2c6dfc, 0x53380d13, 0x650a7354, 0x766a0abb, 0x81c2c92e, 0x92722c85,
    0xa2bfe8a1, 0xa81a664b, 0xc24b8b70, 0xc76c51a3, 0xd192e819, 0xd6990624, 0xf40e3585, 0x106aa070,
    0x19a4c116, 0x1e376c08, 0x2748774c, 0x34b0bcb5, 0x391c0cb3, 0x4ed8aa4a, 0x5b9cca4f, 0x682e6ff3,
    0x748f82ee, 0x78a5636f, 0x84c87814, 0x8cc70208, 0x90befffa, 0xa4506ceb, 0xbef9a3f7, 0xc67178f2,
];

fn ch(x: u32, y: u32, z: u32) -> u32
    ensures { result ≡ ch x y z }
{
    (x & y) ^ (!x & z)
}

fn maj(x: u32, y: u32, z: u32) -> u32
    ensures { result ≡ maj x y z }
{
    (x & y) ^ (x & z) ^ (y & z)
}

fn big0(x: u32) -> u32
    ensures { result ≡ big_sigma0 x }
{
    x.rotate_right(2) ^ x.rotate_right(13) ^ x.rotate_right(22)
}

fn big1(x: u32) -> u32
    ensures { result ≡ big_sigma1 x }
{
    x.rotate_right(6) ^ x.rotate_right(11) ^ x.rotate_right(25)
}

fn small0(x: u32) -> u32
    ensures { result ≡ sigma0 x }
{
    x.rotate_right(7) ^ x.rotate_right(18) ^ (x >> 3)
}

fn small1(x: u32) -> u32
    ensures { result ≡ sigma1 x }
{
    x.rotate_right(17) ^ x.rotate_right(19) ^ (x >> 10)
}

fn round(s: Words, k: u32, w: u32) -> Words
    ensures { result ≡ round_of s k w }
{
    let t1 = s
        .h
        .wrapping_add(big1(s.e))
        .wrapping_add(ch(s.e, s.f, s.g))
        .wrapping_add(k)
        .wrapping_add(w);
    let t2 = big0(s.a).wrapping_add(maj(s.a, s.b, s.c));
    Words {
        a: t1.wrapping_add(t2),
        b: s.a,
        c: s.b,
        d: s.c,
        e: s.d.wrapping_add(t1),
        f: s.e,
        g: s.f,
        h: s.g,
    }
}

// The message schedule of the 64 bytes from at on.
fn scheduled(m: &[u8], at: usize) -> [u32; 64]
    requires { at + 64 ≤ length m.now }
    ensures { result ≡ schedule (take 64 (drop at m.now)) 64 }
{
    let mut w = [0u32; 64];
    for t in 0..16 {
        let i = at + t * 4;
        w[t] = u32::from_be_bytes([m[i], m[i + 1], m[i + 2], m[i + 3]]);
    }
    for t in 16..64 {
        w[t] = small1(w[t - 2])
            .wrapping_add(w[t - 7])
            .wrapping_add(small0(w[t - 15]))
            .wrapping_add(w[t - 16]);
    }
    w
}

// The constants, copied once a block: `K[t]` in the loop would write the whole table to the stack in every round.
fn table() -> [u32; 64]
    ensures { result ≡ k256 }
{
    K
}

fn added(x: Words, y: Words) -> Words
    ensures { result ≡ plus x y }
{
    Words {
        a: x.a.wrapping_add(y.a),
        b: x.b.wrapping_add(y.b),
        c: x.c.wrapping_add(y.c),
        d: x.d.wrapping_add(y.d),
        e: x.e.wrapping_add(y.e),
        f: x.f.wrapping_add(y.f),
        g: x.g.wrapping_add(y.g),
        h: x.h.wrapping_add(y.h),
    }
}

// The hash value after the 64 bytes from at on.
fn block(h: Words, m: &[u8], at: usize) -> Words
    requires { at + 64 ≤ length m.now }
    ensures { result ≡ compressed h (take 64 (drop at m.now)) }
{
    let w = scheduled(m, at);
    let k = table();
    let mut s = h;
    for t in 0..64 {
        s = round(s, k[t], w[t]);
    }
    added(h, s)
}

// The hash value after the 64 bytes from at on; h itself where no 64 bytes stand there.
#[tactic(auto, using(crate::proofs::Schedule::at_none, crate::proofs::Schedule::at_block))]
pub fn compress(h: Words, m: &[u8], at: usize) -> Words
    ensures { result ≡ compressed_at h m.now at }
{
    if m.len() < 64 || m.len() - 64 < at {
        h
    } else {
        block(h, m, at)
    }
}
