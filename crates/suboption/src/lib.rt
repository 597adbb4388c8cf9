// What stands at a place of an ENO option: one suboption, the option's end, or what makes it ill-formed.
#![tactic(auto)]

ghost use Rattle.std.specs.Prelude.{◌≡◌};
ghost use Rattle.eno.specs.Suboption.{suboption_at};
ghost use Rattle.suboption.specs.Piece.{piece_of};

// What stands at a place of an option.
#[derive(Clone, Copy)]
pub enum SuboptionAt {
    End,
    IllFormed,
    Global {
        byte: u8,
        next: usize,
    },
    Tep {
        counted: bool,
        byte: u8,
        start: usize,
        len: usize,
        next: usize,
    },
}

pub fn suboption_at(option: &[u8], i: usize) -> SuboptionAt
    ensures { piece_of result ≡ suboption_at option.now i }
{
    if option.len() <= i {
        return SuboptionAt::End;
    }
    let x = option[i];
    let j = i + 1;
    if x < 0x20 {
        return SuboptionAt::Global { byte: x, next: j };
    }
    if x < 0x80 {
        return SuboptionAt::Tep {
            counted: false,
            byte: x,
            start: j,
            len: 0,
            next: j,
        };
    }
    if 0xa0 <= x {
        let len = option.len() - j;
        return SuboptionAt::Tep {
            counted: false,
            byte: x,
            start: j,
            len,
            next: option.len(),
        };
    }
    if option.len() <= j {
        return SuboptionAt::IllFormed;
    }
    let y = option[j];
    if y < 0xa0 {
        return SuboptionAt::IllFormed;
    }
    let k = j + 1;
    let n = (x as usize) - 0x7f;
    if option.len() - k < n {
        return SuboptionAt::IllFormed;
    }
    let next = k + n;
    SuboptionAt::Tep {
        counted: true,
        byte: y,
        start: k,
        len: n,
        next,
    }
}
