// offer and answer, exported: over arrays that the host lends, with any door number, any bytes and any content of the unit.
#![tactic(auto)]

ghost use Rattle.door.specs.Calls.{offer, answer};
ghost use Rattle.unit.specs.Run.{on, step};
ghost use Rattle.unit_bytes.specs.Content.{unit_in};
ghost use Rattle.pool.specs.Placed.{DoorsKept};
ghost use Rattle.host_step.specs.Replies.{Gives};

use host_numbers::reply_numbers;
use host_reply::ReplyNumbers;
use link_unit::{DOORS, PLACE, ROW, ROWS, WORDS};

// An active open, or one that may cross: writes this end's option.
#[unsafe(no_mangle)]
pub extern "C" fn door_link_offer(
    marks: &mut [u32; WORDS],
    rows: &mut [[u8; ROW]; ROWS],
    doors: &mut [[u8; PLACE]; DOORS],
    door: usize,
    b: u8,
    aware: bool,
    mandatory: bool,
    teps: &[u8],
    resume: bool,
    nonce: &[u8],
    out: &mut [u8],
) -> ReplyNumbers
    ensures { (Gives result out.new (unit_in marks.new rows.new doors.new) (step (unit_in marks.old rows.old doors.old) (on door (offer b aware mandatory teps.now resume nonce.now out.old)))) × DoorsKept door doors.old doors.new }
{
    let told = link_unit::offer(
        marks, rows, doors, door, b, aware, mandatory, teps, resume, nonce, out,
    );
    reply_numbers(told)
}

// A passive open: takes the area of a received SYN and writes this end's option, or ends in plain TCP.
#[unsafe(no_mangle)]
pub extern "C" fn door_link_answer(
    marks: &mut [u32; WORDS],
    rows: &mut [[u8; ROW]; ROWS],
    doors: &mut [[u8; PLACE]; DOORS],
    door: usize,
    area: &[u8],
    aware: bool,
    mandatory: bool,
    teps: &[u8],
    nonce: &[u8],
    out: &mut [u8],
) -> ReplyNumbers
    ensures { (Gives result out.new (unit_in marks.new rows.new doors.new) (step (unit_in marks.old rows.old doors.old) (on door (answer area.now aware mandatory teps.now nonce.now out.old)))) × DoorsKept door doors.old doors.new }
{
    let told = link_unit::answer(
        marks, rows, doors, door, area, aware, mandatory, teps, nonce, out,
    );
    reply_numbers(told)
}
