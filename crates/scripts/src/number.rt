//! Numbers of scripts.
ghost use Rattle.std.specs.Prelude.{◌≡◌};
ghost use Rattle.scripts.specs.Script.{number};

/// Returns the number that a word of decimal digits writes, however many they are, or `None` above 4,294,967,295.
pub fn number(word: &[u8]) -> Option<u32>
    ensures { result ≡ number word.now }
{
    if !word.iter().all(u8::is_ascii_digit) {
        return None;
    }
    str::from_utf8(word).ok()?.parse().ok()
}
