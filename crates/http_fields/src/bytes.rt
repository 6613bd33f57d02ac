//! Parts of a slice, and words whose case is ignored.
ghost use Rattle.std.specs.Prelude.{◌≡◌, ◌≤◌, ◌==◌, length, take, drop};
ghost use Rattle.std.specs.List.{before_first, after_first, position, position_or_len};
ghost use Rattle.std.specs.Str.{bytes_eq, str_to_ascii_lowercase};

/// Returns the bytes from place `at` on. `at` is at most the length.
pub fn after(bytes: &[u8], at: usize) -> &[u8]
    requires { at ≤ length bytes.now }
    ensures { result.now ≡ drop at bytes.now }
{
    &bytes[at..]
}

/// Returns the bytes from place `at` on, or none where `at` is past the end.
pub fn past(bytes: &[u8], at: usize) -> &[u8]
    ensures { result.now ≡ drop at bytes.now }
{
    if at <= bytes.len() { &bytes[at..] } else { &[] }
}

/// Returns the first `n` bytes, or all where there are fewer.
pub fn up_to(bytes: &[u8], n: u64) -> &[u8]
    ensures { result.now ≡ take n bytes.now }
{
    if (bytes.len() as u64) <= n {
        bytes
    } else {
        &bytes[..n as usize]
    }
}

fn position_of(text: &[u8], byte: u8) -> Option<usize>
    ensures { result ≡ position (λ b. b == byte) text.now }
{
    text.iter().position(|b| *b == byte)
}

/// Returns the place of the first byte `byte`, or the length where there is none.
pub fn place_of(text: &[u8], byte: u8) -> usize
    ensures { result ≡ position_or_len (λ b. b == byte) text.now }
{
    match position_of(text, byte) {
        Some(i) => i,
        None => text.len(),
    }
}

/// Returns what stands before and after the first byte `byte`. Where there is none, all stands before it.
pub fn split_first(text: &[u8], byte: u8) -> (&[u8], &[u8])
    ensures front { result.0.now ≡ before_first (λ b. b == byte) text.now }
    ensures back { result.1.now ≡ after_first (λ b. b == byte) text.now }
{
    let i = place_of(text, byte);
    if i < text.len() {
        let back = after(text, i + 1);
        (&text[..i], back)
    } else {
        (text, &[])
    }
}

/// Returns whether two texts are equal, apart from their case.
pub fn is_same_word(text: &[u8], word: &[u8]) -> bool
    ensures { result ≡ bytes_eq (str_to_ascii_lowercase text.now) (str_to_ascii_lowercase word.now) }
{
    text.eq_ignore_ascii_case(word)
}
