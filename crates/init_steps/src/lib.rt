// Steps of the Init readers: how the bytes at hand stand, how long a key is, and how many ciphers the bytes at hand name.
#![tactic(auto)]

ghost use Rattle.std.specs.Prelude.{◌≡◌, ◌≤◌, ◌<◌, get_or};
ghost use Rattle.eno.specs.Tep.{key_length};
ghost use Rattle.init_steps.specs.Answers.{BecomesRefusal};

use eno::Tep;
use init_layout::InitRefusal;

// Why the bytes at hand are no whole message: no continuation of them is readable, or some are missing.
#[derive(Clone, Copy)]
pub enum NotWhole {
    Unreadable,
    Incomplete,
}

impl From<NotWhole> for InitRefusal {
    ghost from_gives = { BecomesRefusal };

    fn from(reason: NotWhole) -> Self {
        match reason {
            NotWhole::Unreadable => InitRefusal::Unreadable,
            NotWhole::Incomplete => InitRefusal::Incomplete,
        }
    }
}

// How long the public key of a TEP is; 0 where its Init is not read or written here.
pub fn keys_of(tep: u8) -> usize
    ensures { (result ≡ key_length tep) × (result ≤ 56) }
{
    Tep::key_length_of(tep)
}

// How many ciphers Init1 says it has; 1, the least that may follow, where its count is not at hand.
pub fn count_of(s: &[u8]) -> usize
    ensures { (result ≡ get_or s.now 8 1) × (result < 256) }
{
    s.get(8).map_or(1, |count| usize::from(*count))
}
