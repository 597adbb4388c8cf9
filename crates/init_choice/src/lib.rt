// The cipher of Init1 that an end takes: the first that it has enabled.
#![tactic(auto)]

ghost use Rattle.std.specs.Prelude.{◌≡◌};
ghost use Rattle.init_layout.specs.Layout.{init1};
ghost use Rattle.init_layout.specs.Reading.{count_at, ciphers_at, first_that, is_enabled};
ghost use Rattle.init_steps.specs.Answers.{choice_of};

use init_layout::Enabled;

// Whether this end has a cipher enabled.
pub fn is_enabled(enabled: Enabled, cipher: u16) -> bool
    ensures { result ≡ is_enabled enabled cipher }
{
    match cipher {
        0x0001 => enabled.aes128,
        0x0002 => enabled.aes256,
        0x0010 => enabled.chacha20,
        _ => false,
    }
}

// The first of the ciphers that Init1 lists which this end has enabled.
pub fn first_enabled(enabled: Enabled, s: &[u8]) -> Option<u16>
    ensures { choice_of result ≡ first_that (is_enabled enabled) (ciphers_at (count_at init1 s.now) s.now 9) }
{
    for i in 0..init_steps::count_of(s) {
        let cipher = wire_numbers::read_u16(s, 9 + 2 * i);
        if is_enabled(enabled, cipher) {
            return Some(cipher);
        }
    }
    None
}
