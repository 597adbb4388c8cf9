// Messages in pieces: a reader is started and fed. The host lends its memory to each call.
#![tactic(auto)]

ghost use Rattle.std.specs.Prelude.{◌≡◌, []};
ghost use Rattle.pieces_layout.specs.Reader.{reader_of};
ghost use Rattle.pieces_layout.specs.Step.{fed};
ghost use Rattle.pieces_layout.specs.Starts.{Start, start};
ghost use Rattle.host_pieces_numbers.specs.Replies.{GivesFed, GivesStart};
ghost use Rattle.host_pieces.specs.Arguments.{enabled_as};

use host_pieces_numbers::{FedNumbers, fed_numbers, start_numbers};
use host_reply::ReplyNumbers;
use init_layout::Enabled;

// Takes bytes of a piece up to the last of the first item that they finish.
#[unsafe(no_mangle)]
pub extern "C" fn door_link_feed(
    numbers: &mut [u64],
    gathered: &mut [u8],
    piece: &[u8],
) -> FedNumbers
    ensures { GivesFed result numbers.new gathered.new (fed (reader_of numbers.old gathered.old) piece.now) }
{
    let told = pieces::feed(numbers, gathered, piece);
    fed_numbers(told)
}

// Starts at B, which reads Init1 and has these ciphers enabled.
#[unsafe(no_mangle)]
pub extern "C" fn door_link_start_init1(
    tep: u8,
    aes128: bool,
    aes256: bool,
    chacha20: bool,
    numbers: &mut [u64],
) -> ReplyNumbers
    ensures { GivesStart result numbers.new [] (start (Start.for_init1 tep (enabled_as aes128 aes256 chacha20)) (reader_of numbers.old [])) }
{
    let enabled = Enabled {
        aes128,
        aes256,
        chacha20,
    };
    let told = pieces::start_init1(tep, enabled, numbers);
    start_numbers(told)
}

// Starts at A, which reads Init2 and whose own Init1 listed these ciphers.
#[unsafe(no_mangle)]
pub extern "C" fn door_link_start_init2(
    tep: u8,
    own: &[u16],
    numbers: &mut [u64],
    gathered: &mut [u8],
) -> ReplyNumbers
    ensures { GivesStart result numbers.new gathered.new (start (Start.for_init2 tep own.now) (reader_of numbers.old gathered.old)) }
{
    let told = pieces::start_init2(tep, own, numbers, gathered);
    start_numbers(told)
}

// Starts at once with frames, as a resumed connection does.
#[unsafe(no_mangle)]
pub extern "C" fn door_link_start_frames(numbers: &mut [u64]) -> ReplyNumbers
    ensures { GivesStart result numbers.new [] (start Start.for_frames (reader_of numbers.old [])) }
{
    let told = pieces::start_frames(numbers);
    start_numbers(told)
}
