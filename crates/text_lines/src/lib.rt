// Lines of text that is read in chunks: each is collected into a lent buffer, to its newline.
#![tactic(auto)]

ghost use Rattle.std.specs.Prelude.{◌≡◌, ◌≤◌, length};
ghost use Rattle.text_lines.specs.Line.{longer, without_return};
ghost use Rattle.text_lines.specs.LineLaws.{Pushed};
ghost use Rattle.text_lines.specs.Answers.{Collects};

// A line so far.
#[derive(Clone, Copy)]
pub struct Collected {
    // How much of the chunk is used.
    pub used: usize,
    // The bytes of the line that were kept, and whether there were more than it holds.
    pub length: usize,
    pub long: bool,
    // Whether its newline was met.
    pub whole: bool,
}

// Whether a line that keeps n bytes is too long with one more.
#[tactic(auto, using(crate::specs::LineLaws::longer_room, crate::specs::LineLaws::longer_full))]
fn one_longer(room: usize, n: usize, long: bool) -> bool
    ensures { result ≡ longer room n long }
{
    long || room <= n
}

// Keeps one byte more, where there is room.
fn push(line: &mut [u8], n: usize, byte: u8) -> usize
    requires { n ≤ length line.old }
    ensures { Pushed line.old n byte line.new result }
{
    if n < line.len() {
        line[n] = byte;
        n + 1
    } else {
        n
    }
}

// Collects a chunk's bytes from a place on into a line, of which `before` bytes are kept already, to its newline or the chunk's end.
pub fn collect(chunk: &[u8], from: usize, line: &mut [u8], before: usize, long: bool) -> Collected
    ensures { Collects chunk.now from line.old before long line.new result }
{
    // The place is itself a part of the answer, also where it begins past the end, so the loop counts it.
    let mut used = from;
    let mut kept = before.min(line.len());
    let mut too_long = long;
    while used < chunk.len() {
        let byte = chunk[used];
        used += 1;
        if byte == b'\n' {
            return Collected {
                used,
                length: kept,
                long: too_long,
                whole: true,
            };
        }
        too_long = one_longer(line.len(), kept, too_long);
        kept = push(line, kept, byte);
    }
    Collected {
        used,
        length: kept,
        long: too_long,
        whole: false,
    }
}

// A line without the one carriage return that may stand before its newline.
pub fn without_return(line: &[u8]) -> &[u8]
    ensures { result.now ≡ without_return line.now }
{
    if 0 < line.len() && line[line.len() - 1] == b'\r' {
        &line[..line.len() - 1]
    } else {
        line
    }
}
