// Big-endian numbers on the wire, read and written at any place of any slice, in one place, and the frame ID.
#![tactic(auto)]

ghost use Rattle.std.specs.Prelude.{◌≡◌};
ghost use Rattle.wire.specs.Bytes.{pasted};
ghost use Rattle.wire.specs.Frame.{frame_id};

pub use wire_reader::{read_u16, read_u32, read_u64};
pub use wire_writer::{write_u16, write_u32, write_u64};

// Writes the frame ID of an offset to the place `at`, or nothing where its 12 bytes do not fit. The bytes are put together first, one by one, so that a buffer of 12 bytes
// that is returned stays in registers.
#[tactic(auto, unfolding(wire::specs::Number::big_endian, wire::specs::Frame::frame_id, wire::specs::Frame::frame_id_after, wire::specs::Frame::frame_prefix))]
pub fn write_frame_id(s: &mut [u8], at: usize, offset: u64)
    ensures { s.new ≡ pasted s.old at (frame_id offset) }
{
    let [d, a, t, e] = *b"DATA";
    let [o, p, q, r, u, v, w, x] = offset.to_be_bytes();
    wire::copy(s, at, &[d, a, t, e, o, p, q, r, u, v, w, x]);
}
