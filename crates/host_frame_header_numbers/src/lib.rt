// What reading a header gives, in plain numbers.
#![tactic(auto)]

ghost use Rattle.std.specs.Prelude.{◌≡◌, replicate};
ghost use Rattle.frame_layout.specs.Answers.{header_told};
ghost use Rattle.host_reply.specs.Numbers.{of_kind};
ghost use Rattle.host_frame_numbers.specs.Replies.{bare_header, header_numbers};

use frame::{Header, HeaderReadRefusal};
use host_frame_numbers::HeaderNumbers;
use host_reply::flag_number;

// A refusal of a header.
fn refused_header(number: usize) -> HeaderNumbers
    ensures { result ≡ bare_header (of_kind 0 number) (replicate 3 0) }
{
    HeaderNumbers {
        number,
        clen: 0,
        kind: 0,
        rekey: 0,
        associated: [0; 3],
    }
}

// A function: an `impl From` would say the same clause once more, as `from_gives`, and be no plainer.
#[tactic(auto, unfolding(host_frame_numbers::specs::Replies::frame_numbers, host_frame_numbers::specs::Replies::header_with, host_frame_numbers::specs::Replies::header_numbers))]
pub fn header_numbers(read: Result<Header, HeaderReadRefusal>) -> HeaderNumbers
    ensures { result ≡ header_numbers (header_told read) }
{
    match read {
        Ok(header) => {
            let associated = header.associated;
            HeaderNumbers {
                number: header.next as usize,
                clen: header.clen,
                kind: 12,
                rekey: flag_number(header.rekey),
                associated,
            }
        }
        Err(HeaderReadRefusal::Incomplete) => refused_header(9),
        Err(HeaderReadRefusal::NoFrame) => refused_header(11),
    }
}
