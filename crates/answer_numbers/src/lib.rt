// Document 01's number of each answer, as the answer's own crate defines it; 0 where nothing is refused.
#![tactic(auto)]

ghost use Rattle.std.specs.Prelude.{◌≡◌};
ghost use Rattle.door.specs.Answers.{refusal_number};
ghost use Rattle.finder.specs.Answers.{status_of};
ghost use Rattle.init_layout.specs.Answers.{writing_of, says_of};
ghost use Rattle.frame_layout.specs.Answers.{written_reply, header_reply, nonce_reply, plaintext_written_reply, plaintext_reply};
ghost use Rattle.generation.specs.Answers.{reply_of};
ghost use Rattle.answer_numbers.specs.Refused.{in_status, in_writing, in_says, in_frame, in_generation};

use door::Refusal;
use finder::FindStatus;
use frame::{
    Header, HeaderReadRefusal, HeaderWriteRefusal, OtherLength, Plaintext, PlaintextWriteRefusal,
    TooShort,
};
use generation::{GenerationRefusal, GenerationReply};
use init::{InitMessage, InitRefusal, InitWriteRefusal};

pub fn by_unit(refusal: Refusal) -> u64
    ensures { result ≡ refusal_number refusal }
{
    u64::from(refusal.number())
}

pub fn by_finder(status: FindStatus) -> u64
    ensures { result ≡ in_status (status_of status) }
{
    match status {
        FindStatus::Found => 0,
        FindStatus::Nothing => 0,
        FindStatus::Unreadable { place: _, kind: _ } => 0,
        FindStatus::Refused => 2,
    }
}

pub fn by_init_writer(answer: Result<usize, InitWriteRefusal>) -> u64
    ensures { result ≡ in_writing (writing_of answer) }
{
    match answer {
        Ok(_) => 0,
        Err(InitWriteRefusal::Unfit) => 3,
        Err(InitWriteRefusal::NoRoom) => 5,
    }
}

pub fn by_init_reader(answer: Result<InitMessage, InitRefusal>) -> u64
    ensures { result ≡ in_says (says_of answer) }
{
    match answer {
        Ok(_) => 0,
        Err(InitRefusal::Unfit) => 3,
        Err(InitRefusal::Unreadable) => 8,
        Err(InitRefusal::Incomplete) => 9,
        Err(InitRefusal::NoCommonCipher) => 10,
    }
}

pub fn by_header_writer(answer: Result<u64, HeaderWriteRefusal>) -> u64
    ensures { result ≡ in_frame (written_reply answer) }
{
    match answer {
        Ok(_) => 0,
        Err(HeaderWriteRefusal::NoRoom) => 5,
        Err(HeaderWriteRefusal::NoFrame) => 11,
    }
}

pub fn by_header_reader(answer: Result<Header, HeaderReadRefusal>) -> u64
    ensures { result ≡ in_frame (header_reply answer) }
{
    match answer {
        Ok(_) => 0,
        Err(HeaderReadRefusal::Incomplete) => 9,
        Err(HeaderReadRefusal::NoFrame) => 11,
    }
}

pub fn by_nonce(answer: Result<[u8; 12], OtherLength>) -> u64
    ensures { result ≡ in_frame (nonce_reply answer) }
{
    match answer {
        Ok(_nonce) => 0,
        Err(OtherLength) => 3,
    }
}

pub fn by_plaintext_writer(answer: Result<usize, PlaintextWriteRefusal>) -> u64
    ensures { result ≡ in_frame (plaintext_written_reply answer) }
{
    match answer {
        Ok(_) => 0,
        Err(PlaintextWriteRefusal::NoRoom) => 5,
        Err(PlaintextWriteRefusal::TooLong) => 11,
    }
}

pub fn by_plaintext_reader(answer: Result<Plaintext, TooShort>) -> u64
    ensures { result ≡ in_frame (plaintext_reply answer) }
{
    match answer {
        Ok(_) => 0,
        Err(TooShort) => 12,
    }
}

pub fn by_generation(answer: Result<GenerationReply, GenerationRefusal>) -> u64
    ensures { result ≡ in_generation (reply_of answer) }
{
    match answer {
        Ok(_) => 0,
        Err(GenerationRefusal::Owed) => 4,
        Err(GenerationRefusal::PastLast) => 13,
        Err(GenerationRefusal::Finished) => 14,
        Err(GenerationRefusal::Unanswered) => 15,
    }
}
