// Hex words, read.
#![tactic(auto)]

ghost use Rattle.std.specs.Prelude.{◌≡◌, true, ◌*◌, ◌≤◌, length};
ghost use Rattle.wire.specs.Bytes.{pasted};
ghost use Rattle.text_hex.specs.Hex.{all_hex, pairs};
ghost use Rattle.text_hex.specs.Answers.{Took};

use text_hex_digits::value;

// Whether each byte of a word is a hex digit.
fn is_hex(word: &[u8]) -> bool
    ensures { result ≡ all_hex word.now }
{
    for c in word {
        if value(*c).is_none() {
            return false;
        }
    }
    true
}

// The bytes of pairs of hex digits.
fn take_pairs(word: &[u8], into: &mut [u8])
    requires { (all_hex word.now ≡ true) × (length (pairs word.now) ≤ length into.old) × (length (pairs word.now) * 2 ≡ length word.now) }
    ensures { into.new ≡ pasted into.old 0 (pairs word.now) }
{
    for i in 0..word.len() / 2 {
        let high = value(word[2 * i]).unwrap_or(0);
        let low = value(word[2 * i + 1]).unwrap_or(0);
        into[i] = high * 16 + low;
    }
}

// The bytes that a word says in hex, put at the beginning of `into`: two digits a byte, - for none. Where it says none, or there is no room, `into` is left as it was.
pub fn bytes_said(word: &[u8], into: &mut [u8]) -> Option<usize>
    ensures { Took word.now into.old into.new result }
{
    if wire::same(word, b"-") {
        return Some(0);
    }
    let count = word.len() / 2;
    if word.is_empty() || word.len() % 2 != 0 || into.len() < count || !is_hex(word) {
        return None;
    }
    take_pairs(word, into);
    Some(count)
}
