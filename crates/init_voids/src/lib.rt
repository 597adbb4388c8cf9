// Whether one of the ciphers of an Init is 0000, as far as the bytes at hand go.
#![tactic(auto)]

ghost use Rattle.std.specs.Prelude.{◌≡◌};
ghost use Rattle.init_layout.specs.Reading.{void_from};

// Whether one of a number of ciphers from a place on is 0000, as far as both its bytes are at hand.
pub fn has_void(s: &[u8], at: usize, count: usize) -> bool
    ensures { result ≡ void_from count s.now at }
{
    let mut next = at;
    for _ in 0..count {
        if s.len() < 2 || s.len() - 2 < next {
            return false;
        }
        if wire_numbers::read_u16(s, next) == 0x0000 {
            return true;
        }
        next += 2;
    }
    false
}
