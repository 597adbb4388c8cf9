// Numbers written as decimal words.
#![tactic(auto)]

ghost use Rattle.std.specs.Prelude.{◌≡◌, ◌≤◌, drop};
ghost use Rattle.text_decimal.specs.Decimal.{decimal_text};
ghost use Rattle.text_put.specs.Answers.{Put};

// Puts the decimal digits of a number at the end of a buffer, and gives the place where they begin. A number below 2^64 has at most 20.
fn put_at_end(digits: &mut [u8; 20], n: u64) -> usize
    ensures within { result ≤ 20 }
    ensures digits { drop result digits.new ≡ decimal_text n }
{
    // The loop goes by what is left of the number, and the place only follows it: a `for` over places would still stop by the number.
    let mut at = 19;
    let mut left = n;
    while 9 < left {
        digits[at] = b'0' + (left % 10) as u8;
        left /= 10;
        at -= 1;
    }
    digits[at] = b'0' + left as u8;
    at
}

// Puts the decimal digits of a number at a place and gives the place after them; where they do not fit, they are left out.
pub fn put_number(out: &mut [u8], at: usize, n: u64) -> usize
    ensures { Put out.old at (decimal_text n) out.new result }
{
    let mut digits = [0u8; 20];
    let from = put_at_end(&mut digits, n);
    text_put::put(out, at, &digits[from..])
}
