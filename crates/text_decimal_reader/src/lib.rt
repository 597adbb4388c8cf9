// Decimal words, read.
#![tactic(auto)]

ghost use Rattle.std.specs.Prelude.{◌≡◌};
ghost use Rattle.text_decimal.specs.Decimal.{fitting, with_digit, number_said};

// A number with one more digit.
#[tactic(auto, using(crate::proofs::Digits::digit_added, text_decimal::specs::DecimalLaws::with_low, text_decimal::specs::DecimalLaws::with_high, text_decimal::specs::DecimalLaws::with_over))]
fn with_digit(n: u64, c: u8) -> Option<u64>
    ensures { result ≡ fitting (with_digit n c) }
{
    match c {
        b'0'..=b'9' => n.checked_mul(10)?.checked_add(u64::from(c - b'0')),
        _ => None,
    }
}

// The number below 2^64 that a word says in decimal digits, of which the first is no 0 but in 0 itself.
pub fn number_said(word: &[u8]) -> Option<u64>
    ensures { result ≡ number_said word.now }
{
    if word.is_empty() || 1 < word.len() && word[0] == b'0' {
        return None;
    }
    let mut value = 0;
    for c in word {
        value = with_digit(value, *c)?;
    }
    Some(value)
}
