// Frames in pieces: a header's bytes, a body, and a reader that has refused.
#![tactic(auto)]

ghost use Rattle.std.specs.Prelude.{◌≡◌, [], ◌∷◌, ◌+◌, ◌-◌, ◌%◌, ◌≤◌, ◌<◌, length, drop};
ghost use Rattle.frame_layout.specs.Layout.{no_frame};
ghost use Rattle.pieces_layout.specs.Step.{least_in};
ghost use Rattle.pieces_frames.specs.Frames.{again_of, Stops, Heads, HeadsLast, FedBody, FedFrames};

use pieces_layout::{Fed, PieceSays};
use pieces_steps::{set_numbers, waiting};

// What a reader that has refused tells again.
fn again(number: u64, position: u64) -> Fed
    ensures { result ≡ again_of number position }
{
    if number == 8 {
        return Fed {
            used: 0,
            says: PieceSays::Unreadable(position),
        };
    }
    if number == 10 {
        return Fed {
            used: 0,
            says: PieceSays::NoCommonCipher(position),
        };
    }
    Fed {
        used: 0,
        says: PieceSays::NoFrame(position),
    }
}

// Notes that no frame begins so, settled by the byte at a position.
fn stop(numbers: &mut [u64], position: u64) -> Fed
    requires { 4 ≤ length numbers.old }
    ensures { Stops result numbers.new numbers.old position }
{
    set_numbers(numbers, position, 11, 0, 6);
    Fed {
        used: 0,
        says: PieceSays::NoFrame(position),
    }
}

// The difference, or 0.
fn less(a: u64, b: u64) -> u64
    ensures { result ≡ a - b }
{
    if a < b {
        return 0;
    }
    a - b
}

// The low byte.
fn low_byte(x: u64) -> u8
    ensures { result ≡ x % 256 }
{
    (x % 256) as u8
}

// The least length that a header may have whose second byte is this one.
fn least_length(high: u8) -> usize
    ensures { result ≡ least_in (0 ∷ high ∷ []) }
{
    if high == 0 {
        return 17;
    }
    wire::wide(high) * 256
}

// A header's third byte, `used` bytes of the piece before it.
fn third(numbers: &mut [u64], at: u64, control: u8, high: u8, low: u8, used: usize) -> Fed
    requires { (4 ≤ length numbers.old) × (used < 0xffffffffffffffff) }
    ensures { HeadsLast result numbers.new numbers.old at (control ∷ high ∷ low ∷ []) used }
{
    let offset = less(at, 2);
    let clen = wire::wide(high) * 256 + wire::wide(low);
    let after = frame_offset::next_offset(offset, clen);
    match after {
        None => stop(numbers, at),
        Some(next) => {
            let begins = at + 1;
            set_numbers(numbers, begins, begins, next, 3);
            let rekey = control % 2 == 1;
            Fed {
                used: used + 1,
                says: PieceSays::Header {
                    rekey,
                    clen: clen as u16,
                    next,
                    control,
                    high,
                    low,
                },
            }
        }
    }
}

// Whether no frame of this length begins at an offset.
fn is_none(offset: u64, clen: usize) -> bool
    ensures { result ≡ no_frame offset clen }
{
    frame_offset::next_offset(offset, clen).is_none()
}

// A header's second byte, which stands at place i of the piece.
fn second(numbers: &mut [u64], at: u64, control: u8, high: u8, piece: &[u8], i: usize) -> Fed
    requires { (4 ≤ length numbers.old) × (i < length piece.now) }
    ensures { Heads result numbers.new numbers.old at (control ∷ high ∷ []) (drop (i + 1) piece.now) i }
{
    let offset = less(at, 1);
    let least = least_length(high);
    if is_none(offset, least) {
        return stop(numbers, at);
    }
    let position = at + 1;
    let used = i + 1;
    if piece.len() <= used {
        let first = wire::wide(control) as u64;
        let next = wire::wide(high) as u64;
        set_numbers(numbers, position, first, next, 2);
        return waiting(used);
    }
    third(numbers, position, control, high, piece[used], used)
}

// A header's first byte, the first of the piece.
fn first(numbers: &mut [u64], at: u64, control: u8, piece: &[u8]) -> Fed
    requires { (4 ≤ length numbers.old) × (0 < length piece.now) }
    ensures { Heads result numbers.new numbers.old at (control ∷ []) (drop 1 piece.now) 0 }
{
    if is_none(at, 17) {
        return stop(numbers, at);
    }
    let position = at + 1;
    if piece.len() <= 1 {
        let first = wire::wide(control) as u64;
        set_numbers(numbers, position, first, 0, 1);
        return waiting(1);
    }
    second(numbers, position, control, piece[1], piece, 1)
}

// The bytes of a body [begins, ends).
fn body_at(numbers: &mut [u64], at: u64, begins: u64, ends: u64, piece: &[u8]) -> Fed
    requires { 4 ≤ length numbers.old }
    ensures { FedBody result numbers.new numbers.old at begins ends piece.now }
{
    let n = piece.len() as u64;
    if at < ends {
        let left = ends - at;
        if n < left {
            numbers[0] = at + n;
            return waiting(piece.len());
        }
        set_numbers(numbers, ends, 0, 0, 0);
        return Fed {
            used: left as usize,
            says: PieceSays::Body { begins, ends },
        };
    }
    if n == 0 {
        return waiting(0);
    }
    set_numbers(numbers, ends, 0, 0, 0);
    Fed {
        used: 1,
        says: PieceSays::Body { begins, ends },
    }
}

// A piece of a stream that has come to its frames; while an Init message is read the reader is left as it is.
pub fn feed_frames(numbers: &mut [u64], piece: &[u8]) -> Fed
    ensures { FedFrames result numbers.new numbers.old piece.now }
{
    if numbers.len() < 4 {
        return Fed {
            used: 0,
            says: PieceSays::NoRoom,
        };
    }
    let at = numbers[0];
    let stage = numbers[3];
    if stage == 3 {
        let begins = numbers[1];
        let ends = numbers[2];
        return body_at(numbers, at, begins, ends, piece);
    }
    if stage == 6 {
        return again(numbers[1], at);
    }
    if stage == 4 {
        return waiting(0);
    }
    if stage == 5 {
        return waiting(0);
    }
    if piece.len() == 0 {
        return waiting(0);
    }
    if stage == 2 {
        let control = low_byte(numbers[1]);
        let high = low_byte(numbers[2]);
        return third(numbers, at, control, high, piece[0], 0);
    }
    if stage == 1 {
        let control = low_byte(numbers[1]);
        return second(numbers, at, control, piece[0], piece, 0);
    }
    first(numbers, at, piece[0], piece)
}
