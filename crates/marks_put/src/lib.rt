// The marks of rows with one set or cleared.
#![tactic(auto)]

ghost use Rattle.std.specs.Prelude.{◌<◌, ◌≡◌};
ghost use Rattle.unit.specs.Numbers.{word_n};
ghost use Rattle.unit.specs.Marks.{with_bit, with_mark, mark_for};

use unit::WORDS;

// A word with one mark set or cleared.
fn with_bit(word: u32, k: u32, used: bool) -> u32
    requires { k < word_n }
    ensures { result ≡ with_bit word k (mark_for used) }
{
    let place = 1u32 << k;
    if used { word | place } else { word & !place }
}

// The words with the mark of a row set or cleared; past the last row nothing is changed.
pub fn with_mark(words: [u32; WORDS], row: usize, used: bool) -> [u32; WORDS]
    ensures { result ≡ with_mark words row (mark_for used) }
{
    let mut after = words;
    let at = row / 32;
    if at < WORDS {
        after[at] = with_bit(words[at], (row % 32) as u32, used);
    }
    after
}
