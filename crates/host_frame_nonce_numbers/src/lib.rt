// A frame's nonce, in plain numbers.
#![tactic(auto)]

ghost use Rattle.std.specs.Prelude.{◌≡◌};
ghost use Rattle.frame_layout.specs.Answers.{nonce_told};
ghost use Rattle.host_frame_numbers.specs.Replies.{nonce_numbers};

use frame::OtherLength;
use host_frame_numbers::NonceNumbers;

// A function: an `impl From` would say the same clause once more, as `from_gives`, and be no plainer.
#[tactic(auto, unfolding(host_frame_numbers::specs::Replies::frame_numbers, host_frame_numbers::specs::Replies::nonce_numbers))]
pub fn nonce_numbers(made: Result<[u8; 12], OtherLength>) -> NonceNumbers
    ensures { result ≡ nonce_numbers (nonce_told made) }
{
    match made {
        Ok(nonce) => NonceNumbers {
            number: 0,
            kind: 13,
            nonce,
        },
        Err(OtherLength) => NonceNumbers {
            number: 3,
            kind: 0,
            nonce: [0; 12],
        },
    }
}
