// What the calls on pieces give back, in plain numbers.
#![tactic(auto)]

ghost use Rattle.std.specs.Prelude.{◌≡◌, []};
ghost use Rattle.pieces_layout.specs.Answers.{told_of, start_number};
ghost use Rattle.host_pieces_numbers.specs.Replies.{bare_numbers, nonce_place, fed_numbers, start_numbers};

use host_reply::{ReplyNumbers, flag_number, of_kind};
use pieces_layout::{Fed, PieceSays, PieceStart};

// What feeding a piece gives; a number that a kind does not have is 0.
#[repr(C)]
#[derive(Clone, Copy)]
pub struct FedNumbers {
    // The refusal's number, the length of an Init message, the offset after a frame, or where a body ends.
    pub number: u64,
    // The refusal's position, where the nonce stands in the gathered bytes (the key is behind it), or where a body begins.
    pub place: u64,
    // How many bytes of the piece were used.
    pub used: usize,
    // How many ciphers an Init message lists.
    pub count: usize,
    pub cipher: u16,
    // The length of a frame's ciphertext.
    pub clen: u16,
    // 0 refused, 10 an Init message, 12 a header, 17 waiting, 18 a body.
    pub kind: u8,
    pub rekey: u8,
    // The header's three bytes.
    pub associated: [u8; 3],
}

// Two numbers, and how many bytes were used.
fn bare(kind: u8, number: u64, place: u64, used: usize) -> FedNumbers
    ensures { result ≡ bare_numbers kind number place used }
{
    FedNumbers {
        number,
        place,
        used,
        count: 0,
        cipher: 0,
        clen: 0,
        kind,
        rekey: 0,
        associated: [0u8; 3],
    }
}

// Where the nonce of an Init1 stands that lists so many ciphers: at most 255.
fn nonce_place(count: usize) -> u64
    ensures { result ≡ nonce_place count }
{
    if 255 < count {
        return 0;
    }
    9 + 2 * count as u64
}

pub fn fed_numbers(fed: Fed) -> FedNumbers
    ensures { result ≡ fed_numbers fed.used (told_of fed.says []) }
{
    let used = fed.used;
    let says = fed.says;
    match says {
        PieceSays::Waiting => bare(17, 0, 0, used),
        PieceSays::Init1 {
            cipher,
            count,
            length,
            keys: _,
        } => {
            let place = nonce_place(count);
            FedNumbers {
                number: length as u64,
                place,
                used,
                count,
                cipher,
                clen: 0,
                kind: 10,
                rekey: 0,
                associated: [0u8; 3],
            }
        }
        PieceSays::Init2 {
            cipher,
            length,
            keys: _,
        } => FedNumbers {
            number: length as u64,
            place: 10,
            used,
            count: 1,
            cipher,
            clen: 0,
            kind: 10,
            rekey: 0,
            associated: [0u8; 3],
        },
        PieceSays::Header {
            rekey,
            clen,
            next,
            control,
            high,
            low,
        } => {
            let flag = flag_number(rekey);
            FedNumbers {
                number: next,
                place: 0,
                used,
                count: 0,
                cipher: 0,
                clen,
                kind: 12,
                rekey: flag,
                associated: [control, high, low],
            }
        }
        PieceSays::Body { begins, ends } => bare(18, ends, begins, used),
        PieceSays::Unreadable(position) => bare(0, 8, position, used),
        PieceSays::NoCommonCipher(position) => bare(0, 10, position, used),
        PieceSays::NoFrame(position) => bare(0, 11, position, used),
        PieceSays::NoRoom => bare(0, 5, 0, used),
    }
}

pub fn start_numbers(begun: PieceStart) -> ReplyNumbers
    ensures { result ≡ start_numbers (start_number begun) }
{
    match begun {
        PieceStart::Started => of_kind(5, 0),
        PieceStart::Unfit => of_kind(0, 3),
        PieceStart::NoRoom => of_kind(0, 5),
    }
}
