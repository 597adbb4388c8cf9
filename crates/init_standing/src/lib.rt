// How the bytes at hand stand, for a magic and for fields that end at a place.
#![tactic(auto)]

ghost use Rattle.std.specs.Prelude.{◌≡◌};
ghost use Rattle.init_layout.specs.Reading.{agrees, standing};
ghost use Rattle.init_steps.specs.Answers.{standing_in};

use init_steps::NotWhole;

// The greatest length that is read.
const MOST: usize = 4096;

// Whether the bytes at hand are the magic as far as both go.
fn begins(magic: &[u8], s: &[u8]) -> bool
    ensures { result ≡ agrees magic.now s.now }
{
    if s.len() < magic.len() {
        wire::stands_at(magic, 0, s)
    } else {
        wire::stands_at(s, 0, magic)
    }
}

// How the bytes at hand stand, for a magic and for fields that end at a place: the length of the whole message.
pub fn settle(magic: &[u8], fields: usize, s: &[u8]) -> Result<usize, NotWhole>
    ensures { standing_in result ≡ standing magic.now fields s.now }
{
    let n = wire_numbers::read_u32(s, 4) as usize;
    if !begins(magic, s) || MOST < n {
        return Err(NotWhole::Unreadable);
    }
    if s.len() < 8 {
        return Err(NotWhole::Incomplete);
    }
    if n < fields {
        return Err(NotWhole::Unreadable);
    }
    if s.len() < n {
        return Err(NotWhole::Incomplete);
    }
    Ok(n)
}
