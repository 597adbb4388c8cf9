// Big-endian numbers on the wire, written at any place of any slice.
#![tactic(auto, unfolding(wire::specs::Number::big_endian))]

ghost use Rattle.std.specs.Prelude.{◌≡◌};
ghost use Rattle.wire.specs.Bytes.{pasted};
ghost use Rattle.wire.specs.Number.{big_endian};

// Writes the two bytes of x from `at` on, or nothing where they do not fit.
pub fn write_u16(s: &mut [u8], at: usize, x: u16)
    ensures { s.new ≡ pasted s.old at (big_endian 2 x) }
{
    wire::copy(s, at, &u16::to_be_bytes(x));
}

// Writes the four bytes of x from `at` on, or nothing where they do not fit.
pub fn write_u32(s: &mut [u8], at: usize, x: u32)
    ensures { s.new ≡ pasted s.old at (big_endian 4 x) }
{
    wire::copy(s, at, &u32::to_be_bytes(x));
}

// Writes the eight bytes of x from `at` on, or nothing where they do not fit.
pub fn write_u64(s: &mut [u8], at: usize, x: u64)
    ensures { s.new ≡ pasted s.old at (big_endian 8 x) }
{
    wire::copy(s, at, &u64::to_be_bytes(x));
}
