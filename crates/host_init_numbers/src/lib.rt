// What the calls on Init messages give, in plain numbers.
#![tactic(auto)]

ghost use Rattle.std.specs.Prelude.{◌≡◌};
ghost use Rattle.init_layout.specs.Reading.{zeros};
ghost use Rattle.init_layout.specs.Answers.{writing_of, reading_of};
ghost use Rattle.host_init_numbers.specs.Replies.{writing_numbers, refused_init, init_numbers};

use host_reply::{ReplyNumbers, of_kind};
use init::{InitMessage, InitRefusal, InitWriteRefusal};

// What reading an Init message gives; all but kind and number are zeros beside a refusal.
#[repr(C)]
#[derive(Clone, Copy)]
pub struct InitNumbers {
    // The length of the whole message, or the refusal's number.
    pub number: usize,
    // How many ciphers the message lists.
    pub count: usize,
    pub cipher: u16,
    // 0 refused, 10 an Init message.
    pub kind: u8,
    pub nonce: [u8; 32],
    // Zeros after the key's own length.
    pub key: [u8; 56],
}

// What a writer answers.
#[tactic(auto, unfolding(crate::specs::Replies::writing_numbers))]
pub fn writing_numbers(written: Result<usize, InitWriteRefusal>) -> ReplyNumbers
    ensures { result ≡ writing_numbers (writing_of written) }
{
    match written {
        Ok(length) => of_kind(1, length),
        Err(InitWriteRefusal::Unfit) => of_kind(0, 3),
        Err(InitWriteRefusal::NoRoom) => of_kind(0, 5),
    }
}

// A refusal, with zeros beside it.
fn refused_init(number: usize) -> InitNumbers
    ensures { result ≡ refused_init number (zeros 32) (zeros 56) }
{
    InitNumbers {
        number,
        count: 0,
        cipher: 0,
        kind: 0,
        nonce: [0u8; 32],
        key: [0u8; 56],
    }
}

// What a reader answers.
#[tactic(auto, unfolding(crate::specs::Replies::says_numbers, crate::specs::Replies::init_numbers))]
pub fn init_numbers(read: Result<InitMessage, InitRefusal>) -> InitNumbers
    ensures { result ≡ init_numbers (reading_of read) }
{
    match read {
        Ok(message) => {
            let nonce = message.nonce;
            let key = message.key;
            InitNumbers {
                number: message.length,
                count: message.count,
                cipher: message.cipher,
                kind: 10,
                nonce,
                key,
            }
        }
        Err(InitRefusal::Unfit) => refused_init(3),
        Err(InitRefusal::Unreadable) => refused_init(8),
        Err(InitRefusal::Incomplete) => refused_init(9),
        Err(InitRefusal::NoCommonCipher) => refused_init(10),
    }
}
