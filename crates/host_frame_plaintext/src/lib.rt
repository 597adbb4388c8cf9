// Frames: plaintexts.
#![tactic(auto)]

ghost use Rattle.std.specs.Prelude.{◌≡◌};
ghost use Rattle.frame_layout.specs.Calls.{Ask, outcome};
ghost use Rattle.host_frame_numbers.specs.Replies.{plaintext_numbers, GivesFrame};

use host_frame_numbers::PlaintextNumbers;
use host_frame_plaintext_numbers::{plaintext_numbers, plaintext_written_numbers};
use host_reply::ReplyNumbers;

// Writes a plaintext, whose data field is the payload; the urgent field is written only with URGp.
#[unsafe(no_mangle)]
pub extern "C" fn door_link_plaintext_write(
    fin: bool,
    urg: bool,
    urgent: u16,
    payload: &[u8],
    out: &mut [u8],
) -> ReplyNumbers
    ensures { GivesFrame result out.new (outcome (Ask.write_plaintext fin urg urgent payload.now out.old)) }
{
    let told = frame::write_plaintext(fin, urg, urgent, payload, out);
    plaintext_written_numbers(told)
}

// Reads a plaintext.
#[unsafe(no_mangle)]
pub extern "C" fn door_link_plaintext_read(bytes: &[u8]) -> PlaintextNumbers
    ensures { result ≡ plaintext_numbers (outcome (Ask.read_plaintext bytes.now)) }
{
    let told = frame::read_plaintext(bytes);
    plaintext_numbers(told)
}
