// The frame ID and the nonce of a frame.
#![tactic(auto)]

ghost use Rattle.std.specs.Prelude.{◌≡◌};
ghost use Rattle.wire.specs.Frame.{frame_id};
ghost use Rattle.frame_layout.specs.Calls.{Ask, outcome};
ghost use Rattle.frame_layout.specs.Answers.{nonce_told};

use frame_layout::OtherLength;

// The frame ID of a frame that begins at an offset.
pub fn frame_id(offset: u64) -> [u8; 12]
    ensures { result ≡ frame_id offset }
{
    let mut id = [0u8; 12];
    wire_numbers::write_frame_id(&mut id, 0, offset);
    id
}

// The nonce of a frame that begins at an offset: its frame ID XOR the fixed nonce.
pub fn nonce(fixed: &[u8], offset: u64) -> Result<[u8; 12], OtherLength>
    ensures { nonce_told result ≡ outcome (Ask.nonce fixed.now offset) }
{
    if fixed.len() != 12 {
        return Err(OtherLength);
    }
    let mut made = frame_id(offset);
    for (i, x) in fixed.iter().enumerate() {
        made[i] ^= x;
    }
    Ok(made)
}
