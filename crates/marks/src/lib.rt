// The marks of rows, a bit for each: the lowest row that is not marked.
#![tactic(auto)]

ghost use Rattle.std.specs.Prelude.{◌<◌, ◌≡◌, length};
ghost use Rattle.unit.specs.Numbers.{words_n};
ghost use Rattle.unit.specs.Marks.{marks_in};
ghost use Rattle.unit.specs.Unit.{first_free};

use unit::WORDS;

// The lowest row that is not marked; the number of rows where all are. There is a word for every 32 rows.
// A number and no Option: `with_record` tests any row number against ROWS, and `first_free`, of which `takes_lowest` speaks, is the number of rows where none is free.
pub fn lowest_unmarked(words: [u32; WORDS]) -> usize
    ensures { (result ≡ first_free (marks_in words)) × (length words ≡ words_n) }
{
    let mut row = 0;
    for word in words {
        let marked = marks_word::trailing_marked(word) as usize;
        if marked < 32 {
            return row + marked;
        }
        row += 32;
    }
    row
}
