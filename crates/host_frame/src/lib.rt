// Frames: offsets and headers.
#![tactic(auto)]

ghost use Rattle.std.specs.Prelude.{◌≡◌};
ghost use Rattle.frame_layout.specs.Calls.{Ask, outcome};
ghost use Rattle.host_frame_numbers.specs.Replies.{frame_numbers, header_numbers, GivesFrame};

use host_frame_header_numbers::header_numbers;
use host_frame_numbers::HeaderNumbers;
use host_frame_offset_numbers::{next_numbers, written_numbers};
use host_reply::ReplyNumbers;

// The offset after a frame: header and ciphertext.
#[unsafe(no_mangle)]
pub extern "C" fn door_link_next_offset(offset: u64, clen: usize) -> ReplyNumbers
    ensures { result ≡ frame_numbers (outcome (Ask.next offset clen)).reply }
{
    let told = frame::next_offset(offset, clen);
    next_numbers(told)
}

// Writes the header of a frame that begins at an offset and has clen bytes of ciphertext; gives the offset after the frame.
#[unsafe(no_mangle)]
pub extern "C" fn door_link_header_write(
    rekey: bool,
    clen: usize,
    offset: u64,
    out: &mut [u8],
) -> ReplyNumbers
    ensures { GivesFrame result out.new (outcome (Ask.write_header rekey clen offset out.old)) }
{
    let told = frame::write_header(rekey, clen, offset, out);
    written_numbers(told)
}

// Reads the header of a frame that begins at an offset.
#[unsafe(no_mangle)]
pub extern "C" fn door_link_header_read(bytes: &[u8], offset: u64) -> HeaderNumbers
    ensures { result ≡ header_numbers (outcome (Ask.read_header bytes.now offset)) }
{
    let told = frame::read_header(bytes, offset);
    header_numbers(told)
}
