// Frames: frame IDs and nonces.
#![tactic(auto)]

ghost use Rattle.std.specs.Prelude.{◌≡◌};
ghost use Rattle.wire.specs.Frame.{frame_id};
ghost use Rattle.frame_layout.specs.Calls.{Ask, outcome};
ghost use Rattle.host_frame_numbers.specs.Replies.{id_of, nonce_numbers};

use host_frame_nonce_numbers::nonce_numbers;
use host_frame_numbers::{FrameId, NonceNumbers};

// The frame ID of a frame that begins at an offset.
#[unsafe(no_mangle)]
pub extern "C" fn door_link_frame_id(offset: u64) -> FrameId
    ensures { result ≡ id_of (frame_id offset) }
{
    let bytes = frame::frame_id(offset);
    FrameId { bytes }
}

// The nonce of a frame that begins at an offset: its frame ID XOR the fixed nonce.
#[unsafe(no_mangle)]
pub extern "C" fn door_link_nonce(fixed: &[u8], offset: u64) -> NonceNumbers
    ensures { result ≡ nonce_numbers (outcome (Ask.nonce fixed.now offset)) }
{
    let told = frame::nonce(fixed, offset);
    nonce_numbers(told)
}
