// The starts of a reader of pieces: for Init1 at B, for Init2 at A, and for frames at once.
#![tactic(auto)]

ghost use Rattle.std.specs.Prelude.{◌≡◌, [], ◌≤◌};
ghost use Rattle.pieces_layout.specs.Reader.{reader_of, bits_of};
ghost use Rattle.pieces_layout.specs.Starts.{Start, start};
ghost use Rattle.pieces_layout.specs.Answers.{begun_of};
ghost use Rattle.pieces_start.specs.Starting.{bit_with};

use init_layout::Enabled;
use pieces_layout::PieceStart;
use pieces_steps::set_numbers;

// How many bytes a reader is lent, and where A's own ciphers stand in them.
const GATHERED: usize = 4608;

const OWN: usize = 4096;

// The value of a bit.
fn bit(set: bool, value: u64) -> u64
    requires { value ≤ 4 }
    ensures { (result ≡ bit_with set value) × (result ≤ 4) }
{
    if set { value } else { 0 }
}

// The ciphers that are enabled, as bits 0 to 2.
fn bits_of(enabled: Enabled) -> u64
    ensures { result ≡ bits_of enabled }
{
    let aes128 = bit(enabled.aes128, 1);
    let aes256 = bit(enabled.aes256, 2);
    let chacha20 = bit(enabled.chacha20, 4);
    aes128 + aes256 + chacha20
}

// Starts at B, which reads Init1 and has these ciphers enabled.
pub fn start_init1(tep: u8, enabled: Enabled, numbers: &mut [u64]) -> PieceStart
    ensures { begun_of result numbers.new [] ≡ start (Start.for_init1 tep enabled) (reader_of numbers.old []) }
{
    let keys = init_steps::keys_of(tep);
    if keys == 0 {
        return PieceStart::Unfit;
    }
    if numbers.len() < 4 {
        return PieceStart::NoRoom;
    }
    let bits = bits_of(enabled);
    let first = wire::wide(tep) as u64;
    set_numbers(numbers, 0, first, bits, 4);
    PieceStart::Started
}

// Starts at A, which reads Init2 and whose own Init1 listed these ciphers.
pub fn start_init2(tep: u8, own: &[u16], numbers: &mut [u64], gathered: &mut [u8]) -> PieceStart
    ensures { begun_of result numbers.new gathered.new ≡ start (Start.for_init2 tep own.now) (reader_of numbers.old gathered.old) }
{
    let keys = init_steps::keys_of(tep);
    if keys == 0 {
        return PieceStart::Unfit;
    }
    if 255 < own.len() {
        return PieceStart::Unfit;
    }
    if numbers.len() < 4 {
        return PieceStart::NoRoom;
    }
    if gathered.len() < GATHERED {
        return PieceStart::NoRoom;
    }
    init1_writer::put_ciphers(gathered, OWN, own);
    let first = wire::wide(tep) as u64;
    let second = own.len() as u64;
    set_numbers(numbers, 0, first, second, 5);
    PieceStart::Started
}

// Starts at once with frames, as a resumed connection does.
pub fn start_frames(numbers: &mut [u64]) -> PieceStart
    ensures { begun_of result numbers.new [] ≡ start Start.for_frames (reader_of numbers.old []) }
{
    if numbers.len() < 4 {
        return PieceStart::NoRoom;
    }
    set_numbers(numbers, 0, 0, 0, 0);
    PieceStart::Started
}
