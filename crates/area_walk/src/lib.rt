// The walk of a TCP option area: where its ENO option stands, or why there is none.
#![tactic(auto)]

ghost use Rattle.std.specs.Prelude.{◌≡◌};
ghost use Rattle.eno.specs.Area.{option_at};
ghost use Rattle.area_walk.specs.Answers.{piece_of, Locates};

// What stands at a place of an option area.
#[derive(Clone, Copy)]
enum OptionAt {
    End,
    Fault { kind: u8 },
    Item { kind: u8, len: usize, next: usize },
}

fn option_at(area: &[u8], i: usize) -> OptionAt
    ensures { piece_of i result ≡ option_at area.now i }
{
    if area.len() <= i {
        return OptionAt::End;
    }
    let kind = area[i];
    if kind == 0 {
        return OptionAt::End;
    }
    if kind == 1 {
        let next = i + 1;
        return OptionAt::Item { kind, len: 1, next };
    }
    if area.len() - i < 2 {
        return OptionAt::Fault { kind };
    }
    let len = area[i + 1] as usize;
    if len < 2 {
        return OptionAt::Fault { kind };
    }
    if area.len() - i < len {
        return OptionAt::Fault { kind };
    }
    let next = i + len;
    OptionAt::Item { kind, len, next }
}

// Where the ENO option of an area stands, or why there is none.
#[derive(Clone, Copy)]
pub enum Located {
    Refused,
    Unreadable { place: u8, kind: u8 },
    Missing,
    Found { start: usize, len: usize },
}

#[tactic(auto, using(crate::proofs::Locating::item_onward))]
pub fn locate(area: &[u8], syn: bool) -> Located
    ensures { Locates area.now syn result }
{
    if 40 < area.len() {
        return Located::Refused;
    }
    let mut i = 0;
    let mut seen: u8 = 0;
    let mut start = 0;
    let mut len = 0;
    loop {
        let p = option_at(area, i);
        match p {
            OptionAt::End => {
                break;
            }
            OptionAt::Fault { kind } => {
                let at = i as u8;
                return Located::Unreadable { place: at, kind };
            }
            OptionAt::Item { kind, len: n, next } => {
                if kind == 0x45 {
                    if seen == 0 {
                        seen = 1;
                        start = i;
                        len = n;
                    } else {
                        seen = 2;
                    }
                }
                i = next;
            }
        }
    }
    if seen == 0 {
        return Located::Missing;
    }
    if seen == 2 {
        if syn {
            return Located::Missing;
        }
    }
    Located::Found { start, len }
}
