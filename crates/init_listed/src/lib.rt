// Whether a cipher is in a list.
#![tactic(auto)]

ghost use Rattle.std.specs.Prelude.{◌≡◌};
ghost use Rattle.init_layout.specs.Reading.{in_init1};

// Whether a cipher is in a list.
#[tactic(auto, using(crate::proofs::Listed::found_listed))]
pub fn is_in(ciphers: &[u16], cipher: u16) -> bool
    ensures { result ≡ in_init1 ciphers.now cipher }
{
    ciphers.contains(&cipher)
}
