// The cipher that is taken from an Init message in a reader's gathered bytes, if any.
#![tactic(auto)]

ghost use Rattle.std.specs.Prelude.{◌≡◌, ◌≤◌};
ghost use Rattle.eno.specs.Option.{is_listed};
ghost use Rattle.init_layout.specs.Reading.{ciphers_at};
ghost use Rattle.init_steps.specs.Answers.{choice_of};
ghost use Rattle.pieces_layout.specs.Reader.{enabled_in};
ghost use Rattle.pieces_cipher.specs.Choosing.{own_count, chosen_in};

use init_layout::Enabled;

// The ciphers that the low three bits say are enabled.
fn enabled_in(second: u64) -> Enabled
    ensures { result ≡ enabled_in second }
{
    let aes128 = second % 2 == 1;
    let aes256 = second / 2 % 2 == 1;
    let chacha20 = second / 4 % 2 == 1;
    Enabled {
        aes128,
        aes256,
        chacha20,
    }
}

// How many ciphers A's own Init1 listed: at most 255.
fn own_count(second: u64) -> usize
    ensures { (result ≡ own_count second) × (result ≤ 255) }
{
    if 255 < second {
        return 255;
    }
    second as usize
}

// Whether a cipher is one of those that stand from place 4,096 on, two bytes each.
fn is_own(gathered: &[u8], count: usize, cipher: u16) -> bool
    requires { count ≤ 255 }
    ensures { result ≡ is_listed cipher (ciphers_at count gathered.now 4096) }
{
    for i in 0..count {
        let own = wire_numbers::read_u16(gathered, 4096 + 2 * i);
        if own == cipher {
            return true;
        }
    }
    false
}

// The cipher that is taken: of Init1 the first that is enabled, of Init2 its own where A's Init1 listed it.
pub fn choose(two: bool, second: u64, gathered: &[u8]) -> Option<u16>
    ensures { choice_of result ≡ chosen_in two second gathered.now }
{
    if two {
        let cipher = wire_numbers::read_u16(gathered, 8);
        let count = own_count(second);
        if is_own(gathered, count, cipher) {
            return Some(cipher);
        }
        return None;
    }
    let enabled = enabled_in(second);
    init_choice::first_enabled(enabled, gathered)
}
