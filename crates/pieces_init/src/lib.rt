// Init messages in pieces: bytes gathered one by one up to the ciphers' end, then at once, and what the whole message says.
#![tactic(auto)]

ghost use Rattle.std.specs.Prelude.{◌≡◌, true, false, ◌+◌, ◌≤◌, ◌<◌, length, get_or, set, drop};
ghost use Rattle.eno.specs.Tep.{key_length};
ghost use Rattle.init_layout.specs.Reading.{count_at, nonce_from};
ghost use Rattle.pieces_layout.specs.Reader.{reader_of};
ghost use Rattle.pieces_layout.specs.Step.{message_end, fed_on};
ghost use Rattle.pieces_layout.specs.Answers.{taken_of};
ghost use Rattle.pieces_steps.specs.Kinds.{kind_of};
ghost use Rattle.pieces_steps.specs.Later.{later};
ghost use Rattle.pieces_init.specs.Gathering.{stored_in, finished_at, Reads, fed_init};

use pieces_layout::{Fed, PieceSays};
use pieces_steps::{set_numbers, waiting};

// The place behind the longest message, and how many bytes a reader is lent.
const MESSAGE: usize = 4096;

const GATHERED: usize = 4608;

// The TEP that a number names; 0 where it is above a byte.
fn tep_in(first: u64) -> u8
    ensures { key_length result ≡ key_length first }
{
    if 255 < first {
        return 0;
    }
    first as u8
}

// Where the nonce begins.
fn nonce_at(two: bool, gathered: &[u8]) -> usize
    ensures { (result ≡ nonce_from (kind_of two) (count_at (kind_of two) gathered.now)) × (result < 520) }
{
    if two {
        return 10;
    }
    let count = init_steps::count_of(gathered);
    let double = 2 * count;
    9 + double
}

// Where the message ends: at 4,096 at the latest.
fn end_of(gathered: &[u8]) -> usize
    ensures { (result ≡ message_end gathered.now) × (result ≤ 4096) }
{
    let length = wire_numbers::read_u32(gathered, 4) as usize;
    if MESSAGE < length {
        return MESSAGE;
    }
    length
}

// Gathers a byte at place n, if messages reach there.
fn store(gathered: &mut [u8], n: usize, byte: u8)
    requires { 4608 ≤ length gathered.old }
    ensures { gathered.new ≡ stored_in gathered.old n byte }
{
    if MESSAGE <= n {
        return;
    }
    gathered[n] = byte;
}

// The message is whole, with the byte at the place `last`: an item, or 10.
fn finish(
    two: bool,
    tep: u8,
    numbers: &mut [u64],
    gathered: &[u8],
    end: usize,
    last: usize,
    used: usize,
) -> Fed
    requires { 4 ≤ length numbers.old }
    ensures { taken_of result numbers.new gathered.now ≡ finished_at (kind_of two) (key_length tep) (reader_of numbers.old gathered.now) end last used }
{
    let second = numbers[2];
    match pieces_cipher::choose(two, second, gathered) {
        None => {
            let position = last as u64;
            set_numbers(numbers, position, 10, 0, 6);
            Fed {
                used: 0,
                says: PieceSays::NoCommonCipher(position),
            }
        }
        Some(cipher) => {
            let keys = init_steps::keys_of(tep);
            set_numbers(numbers, end as u64, 0, 0, 0);
            if two {
                return Fed {
                    used,
                    says: PieceSays::Init2 {
                        cipher,
                        length: end,
                        keys,
                    },
                };
            }
            let count = init_steps::count_of(gathered);
            Fed {
                used,
                says: PieceSays::Init1 {
                    cipher,
                    count,
                    length: end,
                    keys,
                },
            }
        }
    }
}

// Behind the ciphers: the rest of the piece from place i on, gathered from place n on.
fn rest(
    two: bool,
    tep: u8,
    numbers: &mut [u64],
    gathered: &mut [u8],
    n: usize,
    piece: &[u8],
    i: usize,
) -> Fed
    requires { Reads two tep numbers.old gathered.old × (i < length piece.now) × (nonce_from (kind_of two) (count_at (kind_of two) gathered.old) ≤ n) }
    ensures { taken_of result numbers.new gathered.new ≡ later i (fed_on (reader_of (set numbers.old 0 n) gathered.old) (drop i piece.now)) }
{
    let end = end_of(gathered);
    if end <= n {
        store(gathered, n, piece[i]);
        let used = i + 1;
        return finish(two, tep, numbers, gathered, end, n, used);
    }
    let left = end - n;
    let have = piece.len() - i;
    if have < left {
        wire::copy(gathered, n, &piece[i..]);
        let position = n + have;
        numbers[0] = position as u64;
        return waiting(piece.len());
    }
    let behind = i + left;
    wire::copy(gathered, n, &piece[i..behind]);
    let last = end - 1;
    finish(two, tep, numbers, gathered, end, last, behind)
}

// A piece of an Init message, from the reader's position on.
fn gather(
    two: bool,
    tep: u8,
    numbers: &mut [u64],
    gathered: &mut [u8],
    position: u64,
    piece: &[u8],
) -> Fed
    requires { Reads two tep numbers.old gathered.old × (get_or numbers.old 0 0 ≡ position) }
    ensures { taken_of result numbers.new gathered.new ≡ fed_on (reader_of numbers.old gathered.old) piece.now }
{
    let mut n = position as usize;
    for (i, byte) in piece.iter().enumerate() {
        let nonce = nonce_at(two, gathered);
        if nonce <= n {
            return rest(two, tep, numbers, gathered, n, piece, i);
        }
        gathered[n] = *byte;
        if pieces_void::settled(two, tep, gathered, n) {
            let at = n as u64;
            set_numbers(numbers, at, 8, 0, 6);
            return Fed {
                used: 0,
                says: PieceSays::Unreadable(at),
            };
        }
        n += 1;
    }
    numbers[0] = n as u64;
    waiting(piece.len())
}

// A piece of the stream at B while Init1 is read; at another stage the reader is left as it is.
pub fn feed_init1(numbers: &mut [u64], gathered: &mut [u8], piece: &[u8]) -> Fed
    ensures { taken_of result numbers.new gathered.new ≡ fed_init false (reader_of numbers.old gathered.old) piece.now }
{
    if numbers.len() < 4 {
        return waiting(0);
    }
    let stage = numbers[3];
    if stage != 4 {
        return waiting(0);
    }
    if gathered.len() < GATHERED {
        return Fed {
            used: 0,
            says: PieceSays::NoRoom,
        };
    }
    let tep = tep_in(numbers[1]);
    let position = numbers[0];
    gather(false, tep, numbers, gathered, position, piece)
}

// A piece of the stream at A while Init2 is read; at another stage the reader is left as it is.
pub fn feed_init2(numbers: &mut [u64], gathered: &mut [u8], piece: &[u8]) -> Fed
    ensures { taken_of result numbers.new gathered.new ≡ fed_init true (reader_of numbers.old gathered.old) piece.now }
{
    if numbers.len() < 4 {
        return waiting(0);
    }
    let stage = numbers[3];
    if stage != 5 {
        return waiting(0);
    }
    if gathered.len() < GATHERED {
        return Fed {
            used: 0,
            says: PieceSays::NoRoom,
        };
    }
    let tep = tep_in(numbers[1]);
    let position = numbers[0];
    gather(true, tep, numbers, gathered, position, piece)
}
