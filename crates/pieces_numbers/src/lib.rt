// Document 01's number of each answer of a reader of pieces, and the position of a refusal; 0 where nothing is refused.
#![tactic(auto)]

ghost use Rattle.std.specs.Prelude.{◌≡◌, []};
ghost use Rattle.pieces_layout.specs.Answers.{told_of, start_number};
ghost use Rattle.pieces_numbers.specs.Refused.{in_told, position_in, in_start};

use pieces_layout::{PieceSays, PieceStart};

pub fn by_piece(says: PieceSays) -> u64
    ensures { result ≡ in_told (told_of says []) }
{
    match says {
        PieceSays::Waiting => 0,
        PieceSays::Init1 {
            cipher: _,
            count: _,
            length: _,
            keys: _,
        } => 0,
        PieceSays::Init2 {
            cipher: _,
            length: _,
            keys: _,
        } => 0,
        PieceSays::Header {
            rekey: _,
            clen: _,
            next: _,
            control: _,
            high: _,
            low: _,
        } => 0,
        PieceSays::Body { begins: _, ends: _ } => 0,
        PieceSays::Unreadable(_) => 8,
        PieceSays::NoCommonCipher(_) => 10,
        PieceSays::NoFrame(_) => 11,
        PieceSays::NoRoom => 5,
    }
}

// The byte that settled a refusal.
pub fn position_of(says: PieceSays) -> u64
    ensures { result ≡ position_in (told_of says []) }
{
    match says {
        PieceSays::Waiting => 0,
        PieceSays::Init1 {
            cipher: _,
            count: _,
            length: _,
            keys: _,
        } => 0,
        PieceSays::Init2 {
            cipher: _,
            length: _,
            keys: _,
        } => 0,
        PieceSays::Header {
            rekey: _,
            clen: _,
            next: _,
            control: _,
            high: _,
            low: _,
        } => 0,
        PieceSays::Body { begins: _, ends: _ } => 0,
        PieceSays::Unreadable(position) => position,
        PieceSays::NoCommonCipher(position) => position,
        PieceSays::NoFrame(position) => position,
        PieceSays::NoRoom => 0,
    }
}

pub fn by_start(answer: PieceStart) -> u64
    ensures { result ≡ in_start (start_number answer) }
{
    match answer {
        PieceStart::Started => 0,
        PieceStart::Unfit => 3,
        PieceStart::NoRoom => 5,
    }
}
