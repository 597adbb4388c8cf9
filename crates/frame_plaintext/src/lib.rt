// Plaintexts of frames, written and read.
#![tactic(auto)]

ghost use Rattle.std.specs.Prelude.{◌≡◌, ◌≤◌, length};
ghost use Rattle.wire.specs.Bytes.{pasted};
ghost use Rattle.frame_layout.specs.Layout.{flags_sent, heading, heading_length};
ghost use Rattle.frame_layout.specs.Calls.{Ask, outcome};
ghost use Rattle.frame_layout.specs.Answers.{plaintext_written, plaintext_told};

use frame_layout::{Plaintext, PlaintextWriteRefusal, TooShort};

// The flags that are sent.
#[tactic(auto, using(crate::proofs::Plaintexts::flags_are))]
fn flags_sent(fin: bool, urg: bool) -> u8
    ensures { result ≡ flags_sent fin urg }
{
    u8::from(fin) + 2 * u8::from(urg)
}

// How many bytes stand before the data.
#[tactic(auto, unfolding(frame_layout::specs::Layout::heading_length))]
fn heading_length(urg: bool) -> usize
    ensures { (result ≡ heading_length urg) × (result ≤ 3) }
{
    if urg { 3 } else { 1 }
}

// Writes what stands before the data.
fn put_heading(s: &mut [u8], fin: bool, urg: bool, urgent: u16)
    requires { heading_length urg ≤ length s.old }
    ensures { s.new ≡ pasted s.old 0 (heading (flags_sent fin urg) urgent) }
{
    wire::copy(s, 0, &[flags_sent(fin, urg)]);
    if urg {
        wire_numbers::write_u16(s, 1, urgent);
    }
}

// Writes a plaintext, whose data field is the payload; the urgent field is written only with URGp. Gives how many bytes were written.
pub fn write_plaintext(
    fin: bool,
    urg: bool,
    urgent: u16,
    payload: &[u8],
    out: &mut [u8],
) -> Result<usize, PlaintextWriteRefusal>
    ensures { plaintext_written result out.new ≡ outcome (Ask.write_plaintext fin urg urgent payload.now out.old) }
{
    let n = heading_length(urg);
    if out.len() < n || out.len() - n < payload.len() {
        return Err(PlaintextWriteRefusal::NoRoom);
    }
    let size = n + payload.len();
    if 65519 < size {
        return Err(PlaintextWriteRefusal::TooLong);
    }
    put_heading(out, fin, urg, urgent);
    wire::copy(out, n, payload);
    Ok(size)
}

// Reads a plaintext.
pub fn read_plaintext(bytes: &[u8]) -> Result<Plaintext, TooShort>
    ensures { plaintext_told result ≡ outcome (Ask.read_plaintext bytes.now) }
{
    if bytes.is_empty() {
        return Err(TooShort);
    }
    let flags = bytes[0];
    let fin = flags % 2 == 1;
    if flags / 2 % 2 != 1 {
        return Ok(Plaintext {
            fin,
            urg: false,
            urgent: 0,
            data_at: 1,
        });
    }
    if bytes.len() < 3 {
        return Err(TooShort);
    }
    Ok(Plaintext {
        fin,
        urg: true,
        urgent: wire_numbers::read_u16(bytes, 1),
        data_at: 3,
    })
}
