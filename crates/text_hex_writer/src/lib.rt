// Bytes written as hex words.
#![tactic(auto)]

ghost use Rattle.std.specs.Prelude.{◌≡◌, [], ◌∷◌, ◌/◌, ◌%◌, ◌<◌};
ghost use Rattle.wire.specs.Bytes.{pasted};
ghost use Rattle.text_hex.specs.Hex.{hex_digit, hex_text};
ghost use Rattle.text_put.specs.Answers.{Put};

// The hex digit of a value below 16.
fn digit(n: u8) -> u8
    requires { n < 16 }
    ensures { result ≡ hex_digit n }
{
    if n < 10 { b'0' + n } else { b'a' + (n - 10) }
}

// Puts the two digits of a byte at a place, or nothing where they do not fit.
fn put_pair(out: &mut [u8], at: usize, byte: u8)
    ensures { out.new ≡ pasted out.old at (hex_digit (byte / 16) ∷ (hex_digit (byte % 16) ∷ [])) }
{
    wire::copy(out, at, &[digit(byte / 16), digit(byte % 16)]);
}

// Puts bytes in hex at a place, two digits a byte and - for none, and gives the place after them; where they do not fit, they are left out.
pub fn put_hex(out: &mut [u8], at: usize, bytes: &[u8]) -> usize
    ensures { Put out.old at (hex_text bytes.now) out.new result }
{
    if bytes.is_empty() {
        return text_put::put(out, at, b"-");
    }
    if out.len() < at || (out.len() - at) / 2 < bytes.len() {
        return at;
    }
    let mut end = at;
    for byte in bytes {
        put_pair(out, end, *byte);
        end += 2;
    }
    end
}
