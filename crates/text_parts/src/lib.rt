// Parts of a text: its first bytes, those from a place on, and those between two places. Total for any place of any slice.
#![tactic(auto)]

ghost use Rattle.std.specs.Prelude.{◌≡◌, ◌-◌, take, drop};

// The first n bytes of s; all of them where it has fewer.
pub fn first(s: &[u8], n: usize) -> &[u8]
    ensures { result.now ≡ take n s.now }
{
    &s[..n.min(s.len())]
}

// The bytes of s from a place on; none where it has no more.
pub fn from(s: &[u8], at: usize) -> &[u8]
    ensures { result.now ≡ drop at s.now }
{
    &s[at.min(s.len())..]
}

// The bytes from a place to before another, as far as there are any.
pub fn between(s: &[u8], at: usize, end: usize) -> &[u8]
    ensures { result.now ≡ take (end - at) (drop at s.now) }
{
    first(from(s, at), end.saturating_sub(at))
}
