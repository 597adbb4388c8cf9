// The suboptions of an ENO option, read in one walk for all TEPs that the unit knows.
#![tactic(auto)]

ghost use Rattle.std.specs.Prelude.{◌≡◌};
ghost use Rattle.suboptions.specs.Summary.{never, ill_formed, summary_of};

use suboption::SuboptionAt;
use suboptions::{Entry, Summary};

// A TEP that was not sent.
fn never() -> Entry
    ensures { result ≡ never }
{
    Entry {
        times: 0,
        byte: 0,
        start: 0,
        len: 0,
    }
}

// The summary of an ill-formed option: nothing was sent.
fn ill_formed() -> Summary
    ensures { result ≡ ill_formed }
{
    Summary {
        ill_formed: true,
        role: 0,
        aware: false,
        teps: [never(); 4],
    }
}

// The summary of an option, whose suboptions stand behind its kind and length byte.
#[tactic(auto, using(crate::proofs::Told::item_onward))]
pub fn summarize(option: &[u8]) -> Summary
    ensures { result ≡ summary_of option.now }
{
    if 255 < option.len() {
        return ill_formed();
    }
    let mut teps = [never(); 4];
    let mut i = 2;
    let mut first = true;
    let mut global: u8 = 0;
    loop {
        let p = suboption::suboption_at(option, i);
        match p {
            SuboptionAt::End => {
                return Summary {
                    ill_formed: false,
                    role: global % 2,
                    aware: global / 2 % 2 == 1,
                    teps,
                };
            }
            SuboptionAt::IllFormed => {
                return ill_formed();
            }
            SuboptionAt::Global { byte, next } => {
                if first {
                    first = false;
                    global = byte;
                }
                i = next;
            }
            SuboptionAt::Tep {
                counted: _,
                byte,
                start,
                len,
                next,
            } => {
                let name = byte % 128;
                if 0x21 <= name {
                    if name <= 0x24 {
                        let k = (name - 0x21) as usize;
                        let e = teps[k];
                        let times = e.times + 1;
                        let from = start as u8;
                        let size = len as u8;
                        teps[k] = Entry {
                            times,
                            byte,
                            start: from,
                            len: size,
                        };
                    }
                }
                i = next;
            }
        }
    }
}
