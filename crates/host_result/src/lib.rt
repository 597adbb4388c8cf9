// resend and result, exported: over arrays that the host lends, with any door number, any bytes and any content of the unit.
#![tactic(auto)]

ghost use Rattle.door.specs.Calls.{resend, result as ask_result};
ghost use Rattle.unit.specs.Run.{on, step};
ghost use Rattle.unit_bytes.specs.Content.{unit_in};
ghost use Rattle.host_step.specs.Replies.{Gives, GivesResult};

use host_numbers::reply_numbers;
use host_reply::ReplyNumbers;
use host_step::LinkResult;
use link_unit::{DOORS, PLACE, ROW, ROWS, WORDS};

// Writes the option that was sent once more.
#[unsafe(no_mangle)]
pub extern "C" fn door_link_resend(
    marks: &[u32; WORDS],
    rows: &[[u8; ROW]; ROWS],
    doors: &[[u8; PLACE]; DOORS],
    door: usize,
    out: &mut [u8],
) -> ReplyNumbers
    ensures { Gives result out.new (unit_in marks.now rows.now doors.now) (step (unit_in marks.now rows.now doors.now) (on door (resend out.old))) }
{
    let told = link_unit::resend(marks, rows, doors, door, out);
    reply_numbers(told)
}

// What the connection is: encrypted, with its transcript, or plain.
#[unsafe(no_mangle)]
pub extern "C" fn door_link_result(
    marks: &[u32; WORDS],
    rows: &[[u8; ROW]; ROWS],
    doors: &[[u8; PLACE]; DOORS],
    door: usize,
    out: &mut [u8],
) -> LinkResult
    ensures { GivesResult result out.new (unit_in marks.now rows.now doors.now) (step (unit_in marks.now rows.now doors.now) (on door (ask_result out.old))) }
{
    match link_unit::result(marks, rows, doors, door, out) {
        Ok(told) => {
            let secret = told.secret;
            LinkResult {
                reply: reply_numbers(Ok(told.reply)),
                secret,
            }
        }
        Err(refusal) => LinkResult {
            reply: reply_numbers(Err(refusal)),
            secret: [0u8; 32],
        },
    }
}
