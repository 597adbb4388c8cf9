// Big-endian numbers on the wire, read at any place of any slice.
#![tactic(auto, unfolding(wire::specs::Bytes::bytes_from, wire::specs::Number::number, wire::specs::Number::number_after, wire::specs::Number::number_at))]

ghost use Rattle.std.specs.Prelude.{◌≡◌, ◌+◌, get_or};
ghost use Rattle.wire.specs.Bytes.{bytes_from};
ghost use Rattle.wire.specs.Number.{number_at};

// The byte k places after `at`; 0 past the end.
fn byte_at(s: &[u8], at: usize, k: usize) -> u8
    ensures { result ≡ get_or s.now (at + k) 0 }
{
    if s.len() <= at || s.len() - at <= k {
        0
    } else {
        s[at + k]
    }
}

// The N bytes from `at` on; a byte past the end reads as 0. Byte by byte: `copy_from_slice` of as many as there are, which is no constant, is a call for each number.
fn bytes_from<const N: usize>(s: &[u8], at: usize) -> [u8; N]
    ensures { result ≡ bytes_from N s.now at }
{
    let mut bytes = [0; N];
    for k in 0..N {
        bytes[k] = byte_at(s, at, k);
    }
    bytes
}

pub fn read_u16(s: &[u8], at: usize) -> u16
    ensures { result ≡ number_at 2 s.now at }
{
    u16::from_be_bytes(bytes_from(s, at))
}

pub fn read_u32(s: &[u8], at: usize) -> u32
    ensures { result ≡ number_at 4 s.now at }
{
    u32::from_be_bytes(bytes_from(s, at))
}

pub fn read_u64(s: &[u8], at: usize) -> u64
    ensures { result ≡ number_at 8 s.now at }
{
    u64::from_be_bytes(bytes_from(s, at))
}
