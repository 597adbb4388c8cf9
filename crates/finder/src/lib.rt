// The finder: the ENO option of a TCP option area, as a part of that area.
#![tactic(auto)]

ghost use Rattle.std.specs.Prelude.{◌≡◌, ◌+◌};
ghost use Rattle.eno.specs.Area.{finding, part_of, status};
ghost use Rattle.finder.specs.Answers.{status_of, start_of};

use area_walk::{Located, locate};

// The ENO option, kind and length byte included, as a part of the area; the empty part area[0..0] where there is none.
pub fn find_option(area: &[u8], syn: bool) -> &[u8]
    ensures { (result.now ≡ part_of area.now (finding area.now syn)) × (result.ref_ptr.0 ≡ area.entry.ref_ptr.0) × (result.ref_ptr.1 ≡ area.entry.ref_ptr.1 + start_of (finding area.now syn)) }
{
    let place = locate(area, syn);
    match place {
        Located::Found { start, len } => &area[start..start + len],
        _ => &area[0..0],
    }
}

// What `find_option` found.
#[derive(Clone, Copy)]
pub enum FindStatus {
    Found,
    Nothing,
    // The option that makes the area unreadable: where it begins, and its kind.
    Unreadable { place: u8, kind: u8 },
    Refused,
}

pub fn find_status(area: &[u8], syn: bool) -> FindStatus
    ensures { status_of result ≡ status (finding area.now syn) }
{
    let outcome = locate(area, syn);
    match outcome {
        Located::Found { start: _, len: _ } => FindStatus::Found,
        Located::Missing => FindStatus::Nothing,
        Located::Unreadable { place, kind } => FindStatus::Unreadable { place, kind },
        Located::Refused => FindStatus::Refused,
    }
}
