// The reply in plain numbers that the exported calls share.
#![tactic(auto)]

ghost use Rattle.std.specs.Prelude.{◌≡◌};
ghost use Rattle.host_reply.specs.Numbers.{with_place, of_kind, plain_numbers, broken_numbers, flag_number};

use eno::Cause;

// A reply in plain numbers; a number that a kind of reply does not have is 0.
#[repr(C)]
#[derive(Clone, Copy)]
pub struct ReplyNumbers {
    // The refusal's number, the bytes written, the reason for plain TCP, the phase, the bytes of the transcript, the records held, or the offset after a frame.
    pub number: usize,
    // 0 refused, 1 written, 2 plain, 3 the phase now, 4 encrypted, 5 done, 6 holds; of the finder 7 found, 8 none, 9 unreadable; 11 the offset after a frame.
    pub kind: u8,
    // Of an encrypted connection: this end's role, the TEP byte with v, and 1 where a session is resumed.
    pub role: u8,
    pub tep: u8,
    pub resumed: u8,
    // Of an unreadable area (9, and 2 with reason 1): where the option begins that makes it so, and its kind.
    pub place: u8,
    pub option: u8,
}

// 1 where a flag stands.
pub fn flag_number(flag: bool) -> u8
    ensures { result ≡ flag_number flag }
{
    if flag { 1 } else { 0 }
}

// A reply without role, TEP and way.
fn with_place(kind: u8, number: usize, place: u8, option: u8) -> ReplyNumbers
    ensures { result ≡ with_place kind number place option }
{
    ReplyNumbers {
        number,
        kind,
        role: 0,
        tep: 0,
        resumed: 0,
        place,
        option,
    }
}

// A reply of one number.
pub fn of_kind(kind: u8, number: usize) -> ReplyNumbers
    ensures { result ≡ of_kind kind number }
{
    with_place(kind, number, 0, 0)
}

// Plain TCP: its reason, with place and kind of an unreadable area.
pub fn plain_numbers(cause: Cause) -> ReplyNumbers
    ensures { result ≡ plain_numbers cause }
{
    let number = cause.reason as usize;
    with_place(2, number, cause.place, cause.kind)
}

// The finder's word of an unreadable area, with its place and kind.
pub fn broken_numbers(place: u8, kind: u8) -> ReplyNumbers
    ensures { result ≡ broken_numbers place kind }
{
    with_place(9, 0, place, kind)
}
