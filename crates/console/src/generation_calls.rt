// The generation record that the console lends: each step is made with the words of its line, and its reply's words are put with the record afterwards.
use crate::text::Line;
use crate::words::Said;
use answer_numbers::by_generation;
use generation::{GenerationRecord, GenerationRefusal, GenerationReply, GenerationStep};

// A record stands last in its line.
fn put_record(line: &mut Line, record: &GenerationRecord) {
    line.numbers(&[
        u64::from(record.local),
        u64::from(record.remote),
        u64::from(record.last),
        u64::from(record.fin),
    ]);
}

fn put_answer(line: &mut Line, answer: Result<GenerationReply, GenerationRefusal>) {
    match answer {
        Ok(GenerationReply::Sent { generation, rekey }) => {
            line.put(b"sent");
            line.numbers(&[u64::from(generation), u64::from(rekey)]);
        }
        Ok(GenerationReply::Received(generation)) => line.counted(b"took", u64::from(generation)),
        Err(_) => line.refuse(by_generation(answer)),
    }
}

// Puts what a step on a record answers; a refusal leaves the record as it was.
fn answered(
    record: &mut GenerationRecord,
    step: Result<GenerationStep, GenerationRefusal>,
    line: &mut Line,
) {
    if let Ok(made) = step {
        *record = made.next;
    }
    put_answer(line, step.map(|made| made.reply));
    put_record(line, record);
}

pub fn lend(record: &mut GenerationRecord, said: &Said, line: &mut Line) {
    *record = GenerationRecord {
        local: said.short(0),
        remote: said.short(1),
        last: said.short(2),
        fin: said.flag(3),
    };
    line.put(b"generation");
    put_record(line, record);
}

pub fn send(record: &mut GenerationRecord, said: &Said, line: &mut Line) {
    let step = generation_send::send(*record, said.flag(0));
    answered(record, step, line);
}

pub fn initiate(record: &mut GenerationRecord, said: &Said, line: &mut Line) {
    let step = generation_initiate::initiate(*record, said.flag(0), said.flag(1));
    answered(record, step, line);
}

pub fn take(record: &mut GenerationRecord, said: &Said, line: &mut Line) {
    let step = generation_receive::receive(*record, said.flag(0));
    answered(record, step, line);
}

pub fn owed(record: &GenerationRecord, line: &mut Line) {
    let owed = generation_record::is_owed(*record);
    line.counted(b"owed", u64::from(owed));
}
