//! Numbers of any length as digits, kept in 64 bits.
ghost use Rattle.std.specs.Prelude.{◌≡◌, ◌≤◌, ◌<◌, ◌-◌, IsTrue, length, slice_index, nat_lt, nat_le, if◌then◌else◌, option_map, is_some, Some};
ghost use Rattle.std.specs.Str.{all_ascii_digits};
ghost use Rattle.std.specs.Char.{is_ascii_digit, digit_value};
ghost use Rattle.std.specs.Str.Parse.{digits_value};
ghost use Rattle.http_fields.specs.Digits.{number, capped};

fn are_digits(text: &[u8]) -> bool
    ensures { result ≡ all_ascii_digits text.now }
{
    for b in text {
        if !b.is_ascii_digit() {
            return false;
        }
    }
    true
}

fn digit_of(b: u8) -> u64
    requires { IsTrue (is_ascii_digit b) }
    ensures value { result ≡ digit_value b }
    ensures small { result < 10 }
{
    (b - b'0') as u64
}

/// Returns the digit at place `i` of the text, padded in front with zeros to `n` places.
fn padded_digit(text: &[u8], n: usize, i: usize) -> u64
    requires digits { IsTrue (all_ascii_digits text.now) }
    requires room { length text.now ≤ n }
    requires inside { i < n }
    ensures value { result ≡ (if nat_lt i (n - length text.now) then 0
        else digit_value (slice_index text.now (i - (n - length text.now)))) }
    ensures small { result < 10 }
{
    let skip = n - text.len();
    if i < skip {
        return 0;
    }
    digit_of(text[i - skip])
}

/// Returns the number that the digits write, or the greatest of 64 bits where it is greater.
pub fn capped(text: &[u8]) -> u64
    requires { IsTrue (all_ascii_digits text.now) }
    ensures { result ≡ capped (digits_value 10 text.now) }
{
    let mut n: u64 = 0;
    for b in text {
        let digit = digit_of(*b);
        if n > (u64::MAX - digit) / 10 {
            n = u64::MAX;
        } else {
            n = n * 10 + digit;
        }
    }
    n
}

/// Returns whether the first number isn't above the second, however many digits they have.
pub fn in_order(a: &[u8], b: &[u8]) -> bool
    requires first { IsTrue (all_ascii_digits a.now) }
    requires second { IsTrue (all_ascii_digits b.now) }
    ensures { result ≡ nat_le (digits_value 10 a.now) (digits_value 10 b.now) }
{
    let n = a.len().max(b.len());
    let mut below = false;
    let mut above = false;
    for i in 0..n {
        let x = padded_digit(a, n, i);
        let y = padded_digit(b, n, i);
        if !below && !above {
            below = x < y;
            above = y < x;
        }
    }
    !above
}

/// Returns the number that the text writes, or `None` where it writes none. A number past 64 bits is lowered to the
/// greatest.
pub fn number(text: &[u8]) -> Option<u64>
    ensures { result ≡ option_map capped (number text.now) }
{
    if text.len() == 0 {
        return None;
    }
    if !are_digits(text) {
        return None;
    }
    Some(capped(text))
}

/// Returns whether the text writes a number: it has a digit, and nothing but digits.
pub fn is_number(text: &[u8]) -> bool
    ensures test { result ≡ is_some (number text.now) }
    ensures digits { IsTrue result → IsTrue (all_ascii_digits text.now) }
    ensures value { IsTrue result → number text.now ≡ Some (digits_value 10 text.now) }
{
    if text.len() == 0 {
        return false;
    }
    are_digits(text)
}
