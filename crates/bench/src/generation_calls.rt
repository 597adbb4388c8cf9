// Lines that are steps of a generation record.
use crate::said::Answer;
use crate::{read, said, say, word};
use generation::{GenerationRecord, GenerationRefusal, GenerationReply};
use generation_lender::Returned;
use std::io;
use std::io::Stdout;

fn reply_answer(reply: Result<GenerationReply, GenerationRefusal>) -> Answer {
    match reply {
        Ok(GenerationReply::Sent { generation, rekey }) => {
            said::four(said::SENT, generation as u64, said::flag(rekey), 0, 0)
        }
        Ok(GenerationReply::Received(generation)) => said::one(said::RECEIVED, generation as u64),
        Err(GenerationRefusal::Owed) => said::refused(4),
        Err(GenerationRefusal::PastLast) => said::refused(13),
        Err(GenerationRefusal::Finished) => said::refused(14),
        Err(GenerationRefusal::Unanswered) => said::refused(15),
    }
}

fn record_answer(g: GenerationRecord) -> Answer {
    said::five(
        said::RECORD,
        g.local as u64,
        g.remote as u64,
        g.last as u64,
        said::flag(g.fin),
        said::flag(generation_record::is_owed(g)),
    )
}

// A step on the record, which is lent for it.
fn step(g: GenerationRecord, line: &[u8]) -> Returned {
    if read::has(line, word::RECEIVE) {
        return generation_lender::lend_to_receive(g, read::flag(line, word::REKEY));
    }
    let fin = read::flag(line, word::FIN);
    if read::has(line, word::SEND) {
        return generation_lender::lend_to_send(g, fin);
    }
    generation_lender::lend_to_initiate(g, read::flag(line, word::DATA), fin)
}

fn number(line: &[u8], word: u32) -> u16 {
    read::at_most(line, word, 65535) as u16
}

// The record that a line lends in place of the one that there is.
pub fn lent(line: &[u8]) -> GenerationRecord {
    GenerationRecord {
        local: number(line, word::LOCAL),
        remote: number(line, word::REMOTE),
        last: number(line, word::LAST),
        fin: read::flag(line, word::FIN),
    }
}

pub fn made(to: Stdout, g: GenerationRecord, line: &[u8]) -> io::Result<GenerationRecord> {
    let r = step(g, read::given(line));
    let after = r.next;
    let reply = r.reply;
    let mut words = [0u8; 80];
    let n = say::put_answer(&mut words, 0, reply_answer(reply));
    let n = say::put_answer(&mut words, n, record_answer(after));
    say::words_compared(to, line, text_words::first(&words, n), true)?;
    Ok(after)
}
