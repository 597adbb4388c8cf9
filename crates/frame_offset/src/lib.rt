// The offset of the next frame.
#![tactic(auto)]

ghost use Rattle.std.specs.Prelude.{◌≡◌};
ghost use Rattle.frame_layout.specs.Calls.{Ask, outcome};
ghost use Rattle.frame_layout.specs.Answers.{next_told};

// The offset after a frame: header and ciphertext.
#[tactic(auto, using(crate::proofs::Next::next_short, crate::proofs::Next::next_long, crate::proofs::Next::next_sum))]
pub fn next_offset(offset: u64, clen: usize) -> Option<u64>
    ensures { next_told result ≡ outcome (Ask.next offset clen) }
{
    match clen {
        17..=65535 => offset.checked_add(3 + clen as u64),
        _ => None,
    }
}
