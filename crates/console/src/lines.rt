// A line as a command: its form by its first word, then its words in order.
use crate::forms::{FORMS, Form, Kind};
use crate::unfit::Unfit;
use crate::words::Said;

// A line has at most this many bytes.
const LONGEST: usize = 20000;

// What a line asks: its form, and how many bytes its lent buffer has, where it has one.
#[derive(Clone, Copy)]
pub struct Asked {
    pub form: Form,
    pub lent: Option<usize>,
}

// A line by its first word.
fn parse_form(line: &[u8], said: &mut Said, lent: &mut [u8]) -> Result<Asked, Unfit> {
    let end = text_words::word_end(line, 0);
    let name = text_words::first(line, end);
    let (form, text, kinds) = *FORMS
        .iter()
        .find(|(_, text, _)| text_words::word(text, 0) == name)
        .ok_or(Unfit::Unknown)?;
    let last = said.read(line, end, text, kinds, lent)?;
    Ok(Asked {
        form,
        lent: (kinds.last() == Some(&Kind::Lent)).then_some(last as usize),
    })
}

// What a line asks, its end taken off: nothing where it is empty or a comment. `long`: it has more bytes than `line`, which has the first of them.
pub fn parse(
    line: &[u8],
    long: bool,
    said: &mut Said,
    lent: &mut [u8],
) -> Result<Option<Asked>, Unfit> {
    if line.is_empty() || line.starts_with(b"#") {
        return Ok(None);
    }
    if long || LONGEST < line.len() {
        return Err(Unfit::Long);
    }
    // A byte-order mark.
    if line.starts_with(b"\xef\xbb\xbf") {
        return Err(Unfit::Marked);
    }
    Ok(Some(parse_form(line, said, lent)?))
}
