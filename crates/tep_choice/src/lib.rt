// The TEP that an answer chooses of a list in rising priority, and the record that is resumed with it. Total for every view and every argument.
#![tactic(auto)]

ghost use Rattle.std.specs.Prelude.{◌≡◌};
ghost use Rattle.door.specs.Door.{seen_of};
ghost use Rattle.tep_choice.specs.Choosing.{decision_of, chosen_or_none, entry_of, candidate_by, fitting_by, last_resumed, last_fresh, chosen_by};

use door::View;
use door_search::Sought;
use eno::Cause;
use suboptions::Entry;

// The TEP that is answered, and which record is resumed; the number of records where none is, as in the definition `Choice`.
#[derive(Clone, Copy)]
pub struct Chosen {
    pub tep: u8,
    pub at: usize,
}

// The entry of a TEP; never sent where the unit does not know it.
#[tactic(auto, unfolding(crate::specs::Choosing::entry_of, eno::specs::Tep::is_known, suboptions::specs::Summary::never))]
fn entry_of(entries: [Entry; 4], t: u8) -> Entry
    ensures { result ≡ entry_of entries t }
{
    match t {
        0x21..=0x24 => entries[(t - 0x21) as usize],
        _ => Entry {
            times: 0,
            byte: 0,
            start: 0,
            len: 0,
        },
    }
}

// Whether A sent a TEP once and not bad.
#[tactic(auto, unfolding(crate::specs::Choosing::candidate_by))]
fn is_candidate(e: Entry) -> bool
    ensures { result ≡ candidate_by e }
{
    e.times == 1 && !suboption_data::is_bad(e)
}

// The oldest record that can be resumed with the TEP t, by what A sent of it; the number of records where there is none.
#[tactic(auto, using(door_search::specs::Laws::first_expecting), unfolding(crate::specs::Choosing::fitting_by))]
fn fitting(view: View, option: &[u8], e: Entry, t: u8) -> usize
    ensures { result ≡ fitting_by option.now t e (seen_of view).held }
{
    let n = door_counts::held_count(view);
    if !is_candidate(e) || suboption_data::is_fresh(e) {
        return n;
    }
    let at = e.start as usize;
    door_search::first_sought(view, Sought::Expecting { tep: t, at }, option)
}

// The last listed TEP that can be resumed.
fn last_resumed(view: View, option: &[u8], entries: [Entry; 4], teps: &[u8]) -> Option<Chosen>
    ensures { chosen_or_none result ≡ last_resumed option.now entries teps.now (seen_of view).held }
{
    let count = door_counts::held_count(view);
    let mut left = teps;
    while let [others @ .., tep] = left {
        let at = fitting(view, option, entry_of(entries, *tep), *tep);
        if at < count {
            return Some(Chosen { tep: *tep, at });
        }
        left = others;
    }
    None
}

// The last listed TEP that A sent once and not bad, answered fresh.
fn last_fresh(view: View, entries: [Entry; 4], teps: &[u8]) -> Option<Chosen>
    ensures { chosen_or_none result ≡ last_fresh entries teps.now (seen_of view).held }
{
    let mut left = teps;
    while let [before @ .., tep] = left {
        if is_candidate(entry_of(entries, *tep)) {
            return Some(Chosen {
                tep: *tep,
                at: door_counts::held_count(view),
            });
        }
        left = before;
    }
    None
}

// The TEP of an answer to an option, whose entries are given: the last listed that can be resumed, else the last that A sent once and not bad; else plain TCP, since no TEP is valid.
pub fn choose(view: View, option: &[u8], entries: [Entry; 4], teps: &[u8]) -> Result<Chosen, Cause>
    ensures { decision_of result ≡ chosen_by option.now entries teps.now (seen_of view).held }
{
    match last_resumed(view, option, entries, teps) {
        Some(choice) => Ok(choice),
        None => last_fresh(view, entries, teps).ok_or(Cause::numbered(6)),
    }
}
