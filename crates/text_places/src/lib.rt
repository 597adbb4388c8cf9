// Places in a text: where a byte stands, and the word at a place. Total for any place of any slice.
#![tactic(auto)]

ghost use Rattle.std.specs.Prelude.{◌≡◌, ◌≤◌};
ghost use Rattle.text_places.specs.Word.{place_of, word_end, word_at};

// The first place from `at` on where a byte stands; the end where it stands nowhere, and `at` itself past the end.
pub fn place_of(s: &[u8], at: usize, byte: u8) -> usize
    ensures { (result ≡ place_of byte s.now at) × (at ≤ result) }
{
    for i in at..s.len() {
        if s[i] == byte {
            return i;
        }
    }
    at.max(s.len())
}

// Where the word that begins at a place ends: at a space or with the text.
pub fn word_end(s: &[u8], at: usize) -> usize
    ensures { (result ≡ word_end s.now at) × (at ≤ result) }
{
    place_of(s, at, b' ')
}

// The word that begins at a place.
pub fn word(s: &[u8], at: usize) -> &[u8]
    ensures { result.now ≡ word_at s.now at }
{
    text_parts::between(s, at, word_end(s, at))
}
