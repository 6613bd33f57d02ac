//! Numbers of command lines.
ghost use Rattle.std.specs.Prelude.{◌≡◌};
ghost use Rattle.command_lines.specs.Number.{number_from};

use http_fields::digits::number_64;

/// Returns the number that a word of 1 to 10 decimal digits writes, or `None` where it isn't from `least` to `greatest`.
pub fn number_from(word: &str, least: u32, greatest: u32) -> Option<u32>
    ensures { result ≡ number_from least greatest word.now }
{
    let (least, greatest) = (u64::from(least), u64::from(greatest));
    match number_64(word.as_bytes()) {
        Some(n) if word.len() <= 10 && least <= n && n <= greatest => Some(n as u32),
        _ => None,
    }
}
