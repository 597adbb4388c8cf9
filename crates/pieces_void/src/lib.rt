// Whether the byte of an Init message that was gathered last settles that no continuation is readable.
#![tactic(auto)]

ghost use Rattle.std.specs.Prelude.{◌≡◌, ◌≤◌, ◌<◌};
ghost use Rattle.eno.specs.Tep.{key_length};
ghost use Rattle.init_layout.specs.Reading.{ciphers_from, standing_of};
ghost use Rattle.init_steps.specs.Answers.{standing_in};
ghost use Rattle.pieces_layout.specs.Step.{is_unreadable, settles};
ghost use Rattle.pieces_steps.specs.Kinds.{kind_of};

use init_steps::NotWhole;

fn is_unreadable(progress: Result<usize, NotWhole>) -> bool
    ensures { result ≡ is_unreadable (standing_in progress) }
{
    matches!(progress, Err(NotWhole::Unreadable))
}

// Whether the one-shot reader refuses these bytes with 8.
fn refuses(two: bool, tep: u8, s: &[u8]) -> bool
    ensures { result ≡ is_unreadable (standing_of (kind_of two) (key_length tep) s.now) }
{
    if two {
        let progress = init_progress::progress2(tep, s);
        return is_unreadable(progress);
    }
    let progress = init_progress::progress1(tep, s);
    is_unreadable(progress)
}

// Where the ciphers begin.
fn ciphers_from(two: bool) -> usize
    ensures { (result ≡ ciphers_from (kind_of two)) × (result ≤ 9) × (8 ≤ result) }
{
    if two { 8 } else { 9 }
}

// Whether the byte at place n settles it: up to the count the one-shot reader says so, behind it a cipher 0000.
pub fn settled(two: bool, tep: u8, gathered: &[u8], n: usize) -> bool
    ensures { result ≡ settles (kind_of two) (key_length tep) gathered.now n }
{
    let from = ciphers_from(two);
    if n < from {
        let end = n + 1;
        if gathered.len() < end {
            return refuses(two, tep, gathered);
        }
        return refuses(two, tep, &gathered[0..end]);
    }
    let place = n - from;
    if place % 2 != 1 {
        return false;
    }
    let cipher = wire_numbers::read_u16(gathered, n - 1);
    cipher == 0
}
