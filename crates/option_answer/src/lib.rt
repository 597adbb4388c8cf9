// The option of an answer, as the offer of one TEP by host B.
#![tactic(auto)]

ghost use Rattle.std.specs.Prelude.{◌≡◌};
ghost use Rattle.eno.specs.Session.{in_hand};
ghost use Rattle.eno.specs.Option.{written_as, write_answer};
ghost use Rattle.option_writer.specs.Answers.{writing_of};

use eno::InHand;
use option_writer::OptionRefusal;

// The option of an answer: one TEP, as host B. Tells how many bytes it wrote.
pub fn write_answer(
    aware: bool,
    t: u8,
    hand: InHand,
    nonce: &[u8],
    out: &mut [u8],
) -> Result<usize, OptionRefusal>
    ensures { written_as (writing_of result) out.new ≡ write_answer aware t (in_hand hand) nonce.now out.old }
{
    option_writer::write_offer(1, aware, &[t], hand, nonce, out)
}
