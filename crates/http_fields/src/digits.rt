//! Numbers of 64 bits as digits.
ghost use Rattle.std.specs.Prelude.{◌≡◌};
ghost use Rattle.http_fields.specs.Digits.{number_64};

/// Returns the number that the digits write. Returns `None` where there is no digit, another byte, or a number past 64
/// bits.
pub fn number_64(text: &[u8]) -> Option<u64>
    ensures { result ≡ number_64 text.now }
{
    if text.is_empty() {
        return None;
    }
    let mut n: u64 = 0;
    for b in text {
        if !b.is_ascii_digit() {
            return None;
        }
        let digit = (*b - b'0') as u64;
        if n > (u64::MAX - digit) / 10 {
            return None;
        }
        n = n * 10 + digit;
    }
    Some(n)
}
