// One word of marks: how many of its rows are marked before the first that is not.
#![tactic(auto)]

ghost use Rattle.std.specs.Prelude.{◌≡◌};
ghost use Rattle.unit.specs.Numbers.{word_n};
ghost use Rattle.unit.specs.Marks.{bits_of};
ghost use Rattle.unit.specs.Unit.{first_free};

// How many rows of a word are marked before the first that is not; all of them where none is free.
pub fn trailing_marked(word: u32) -> u32
    ensures { result ≡ first_free (bits_of word_n word) }
{
    (!word).trailing_zeros()
}
