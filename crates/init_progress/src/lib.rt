// How the bytes at hand stand as an Init1 and as an Init2. The two stay two functions: of Init1 a count of ciphers is read and refused, and Init2 has none.
#![tactic(auto)]

ghost use Rattle.std.specs.Prelude.{◌≡◌};
ghost use Rattle.eno.specs.Tep.{key_length};
ghost use Rattle.init_layout.specs.Layout.{init1, init2};
ghost use Rattle.init_layout.specs.Reading.{standing_of};
ghost use Rattle.init_steps.specs.Answers.{standing_in};

use init_steps::NotWhole;

// How the bytes at hand stand as an Init1 for a TEP: the length of the whole message.
pub fn progress1(tep: u8, s: &[u8]) -> Result<usize, NotWhole>
    ensures { standing_in result ≡ standing_of init1 (key_length tep) s.now }
{
    let count = init_steps::count_of(s);
    if count == 0 || init_voids::has_void(s, 9, count) {
        return Err(NotWhole::Unreadable);
    }
    let at = 9 + 2 * count;
    let keys = init_steps::keys_of(tep);
    init_standing::settle(b"\x15\x10\x1a\x0e", at + 32 + keys, s)
}

// How the bytes at hand stand as an Init2 for a TEP: the length of the whole message.
pub fn progress2(tep: u8, s: &[u8]) -> Result<usize, NotWhole>
    ensures { standing_in result ≡ standing_of init2 (key_length tep) s.now }
{
    if init_voids::has_void(s, 8, 1) {
        return Err(NotWhole::Unreadable);
    }
    let keys = init_steps::keys_of(tep);
    init_standing::settle(b"\x09\x71\x05\xe0", 42 + keys, s)
}
