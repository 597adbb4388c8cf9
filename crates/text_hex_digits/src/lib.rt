// Hex digits: the value of one, and the byte that two say.
#![tactic(auto)]

ghost use Rattle.std.specs.Prelude.{◌≡◌, ◌<◌, IfSome, unwrap_or};
ghost use Rattle.text_hex.specs.Hex.{hex_value, pair_said};

// The value of a lower-case hex digit.
#[tactic(auto, using(text_hex::specs::HexLaws::value_low, text_hex::specs::HexLaws::value_decimal, text_hex::specs::HexLaws::value_between, text_hex::specs::HexLaws::value_letter, text_hex::specs::HexLaws::value_high))]
pub fn value(c: u8) -> Option<u8>
    ensures value { unwrap_or result 16 ≡ hex_value c }
    ensures digit { IfSome result (λ n. n < 16) }
{
    match c {
        b'0'..=b'9' => Some(c - b'0'),
        b'a'..=b'f' => Some(c - b'a' + 10),
        _ => None,
    }
}

// The byte that two hex digits say.
#[tactic(auto, using(text_hex::specs::HexLaws::pair_high, text_hex::specs::HexLaws::pair_low, text_hex::specs::HexLaws::pair_both))]
pub fn byte_said(high: u8, low: u8) -> Option<u8>
    ensures { result ≡ pair_said high low }
{
    let tens = value(high)?;
    let units = value(low)?;
    Some(tens * 16 + units)
}
