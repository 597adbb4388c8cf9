// The call of each form: it is made with the words of its line, and its reply's words are put.
use crate::forms::Form;
use crate::piece_calls::Reader;
use crate::text::Line;
use crate::unit_calls::Unit;
use crate::words::Said;
use crate::{generation_calls, judge_calls, message_calls, piece_calls, unit_calls};
use generation::GenerationRecord;

// What the console holds from line to line.
#[derive(Drop)]
pub struct Console {
    unit: Unit,
    record: GenerationRecord,
    reader: Reader,
}

impl Console {
    pub fn new() -> Console {
        Console {
            unit: Unit::empty(),
            record: generation_record::first_record(),
            reader: Reader::of_frames(),
        }
    }

    // Makes the call of a form, and puts its reply's words. No table of functions: each takes other parts of the console, and a static holds no function pointers.
    pub fn call(&mut self, form: Form, said: &Said, lent: &mut [u8], line: &mut Line) {
        let unit = &mut self.unit;
        let record = &mut self.record;
        let reader = &mut self.reader;
        match form {
            Form::Offer => unit_calls::offer(unit, said, lent, line),
            Form::Answer => unit_calls::answer(unit, said, lent, line),
            Form::Receive => unit_calls::receive(unit, said, line),
            Form::Resend => unit_calls::resend(unit, said, lent, line),
            Form::Result => unit_calls::result(unit, said, lent, line),
            Form::Close => unit_calls::close(unit, said, line),
            Form::Store => unit_calls::store(unit, said, line),
            Form::Forget => unit_calls::forget(unit, said, line),
            Form::Count => unit_calls::count(unit, said, line),
            Form::Erase => unit_calls::erase(unit, line),
            Form::Find => message_calls::find(said, line),
            Form::Init1Write => message_calls::init1_write(said, lent, line),
            Form::Init1Read => message_calls::init1_read(said, line),
            Form::Init2Write => message_calls::init2_write(said, lent, line),
            Form::Init2Read => message_calls::init2_read(said, line),
            Form::HeaderWrite => message_calls::header_write(said, lent, line),
            Form::HeaderRead => message_calls::header_read(said, line),
            Form::Nonce => message_calls::nonce(said, line),
            Form::PlaintextWrite => message_calls::plaintext_write(said, lent, line),
            Form::PlaintextRead => message_calls::plaintext_read(said, line),
            Form::Generation => generation_calls::lend(record, said, line),
            Form::Send => generation_calls::send(record, said, line),
            Form::Initiate => generation_calls::initiate(record, said, line),
            Form::Take => generation_calls::take(record, said, line),
            Form::Owed => generation_calls::owed(record, line),
            Form::Judge => judge_calls::judged(said, line),
            Form::JudgePlainly => judge_calls::judged_plainly(said, line),
            Form::PiecesInit1 => piece_calls::start_init1(reader, said, line),
            Form::PiecesInit2 => piece_calls::start_init2(reader, said, line),
            Form::PiecesFrames => piece_calls::start_frames(reader, line),
            Form::Feed => piece_calls::feed(reader, said, line),
            Form::Help => line.put(b"help"),
        }
    }
}
