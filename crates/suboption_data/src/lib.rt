// What was sent of a TEP, by its byte and the length of its data: fresh or bad.
#![tactic(auto)]

ghost use Rattle.std.specs.Prelude.{◌≡◌};
ghost use Rattle.eno.specs.Judge.{is_fresh, is_bad};
ghost use Rattle.suboptions.specs.Summary.{as_sent};

use suboptions::Entry;

// Whether what was sent of a TEP is fresh.
#[tactic(auto, unfolding(eno::specs::Judge::is_fresh))]
pub fn is_fresh(e: Entry) -> bool
    ensures { result ≡ is_fresh (as_sent e) }
{
    e.byte < 0x80 || e.len < 9
}

// Whether it is bad.
#[tactic(auto, unfolding(eno::specs::Judge::is_bad))]
pub fn is_bad(e: Entry) -> bool
    ensures { result ≡ is_bad (as_sent e) }
{
    !is_fresh(e) && 18 <= e.len
}
