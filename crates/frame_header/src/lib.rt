// Frame headers, written and read.
#![tactic(auto)]

ghost use Rattle.std.specs.Prelude.{◌≡◌, ◌∷◌, ◌≤◌, length};
ghost use Rattle.wire.specs.Bytes.{pasted};
ghost use Rattle.wire.specs.Number.{big_endian};
ghost use Rattle.frame_layout.specs.Layout.{control_sent};
ghost use Rattle.frame_layout.specs.Calls.{Ask, outcome};
ghost use Rattle.frame_layout.specs.Answers.{header_written, header_told};

use frame_layout::{Header, HeaderReadRefusal, HeaderWriteRefusal};

// Writes a byte and a number of two bytes.
fn put_three(s: &mut [u8], x: u8, y: u16)
    requires { 3 ≤ length s.old }
    ensures { s.new ≡ pasted s.old 0 (x ∷ big_endian 2 y) }
{
    wire::copy(s, 0, &[x]);
    wire_numbers::write_u16(s, 1, y);
}

// The control byte that is sent.
#[tactic(auto, using(crate::proofs::Headers::rekey_sent))]
fn control_sent(rekey: bool) -> u8
    ensures { result ≡ control_sent rekey }
{
    u8::from(rekey)
}

// Writes the header of a frame that begins at an offset and has clen bytes of ciphertext; gives the offset after the frame.
#[tactic(auto, using(crate::proofs::Headers::header_over, crate::proofs::Headers::header_none))]
pub fn write_header(
    rekey: bool,
    clen: usize,
    offset: u64,
    out: &mut [u8],
) -> Result<u64, HeaderWriteRefusal>
    ensures { header_written result out.new ≡ outcome (Ask.write_header rekey clen offset out.old) }
{
    if out.len() < 3 {
        return Err(HeaderWriteRefusal::NoRoom);
    }
    let next = frame_offset::next_offset(offset, clen).ok_or(HeaderWriteRefusal::NoFrame)?;
    put_three(out, control_sent(rekey), clen as u16);
    Ok(next)
}

// Reads the header of a frame that begins at an offset.
#[tactic(auto, using(crate::proofs::Headers::header_short, crate::proofs::Headers::header_unfit))]
pub fn read_header(bytes: &[u8], offset: u64) -> Result<Header, HeaderReadRefusal>
    ensures { header_told result ≡ outcome (Ask.read_header bytes.now offset) }
{
    if bytes.len() < 3 {
        return Err(HeaderReadRefusal::Incomplete);
    }
    let clen = wire_numbers::read_u16(bytes, 1);
    let next = frame_offset::next_offset(offset, clen as usize).ok_or(HeaderReadRefusal::NoFrame)?;
    Ok(Header {
        rekey: bytes[0] % 2 == 1,
        clen,
        next,
        associated: [bytes[0], bytes[1], bytes[2]],
    })
}
