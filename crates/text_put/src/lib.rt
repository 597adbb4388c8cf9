// Text that is put at a place. Total for any place of any slice.
#![tactic(auto)]

ghost use Rattle.text_put.specs.Answers.{Put};

// Puts text at a place and gives the place after it; where it does not fit, it is left out.
pub fn put(out: &mut [u8], at: usize, text: &[u8]) -> usize
    ensures { Put out.old at text.now out.new result }
{
    if at <= out.len() && text.len() <= out.len() - at {
        wire::copy(out, at, text);
        at + text.len()
    } else {
        at
    }
}
