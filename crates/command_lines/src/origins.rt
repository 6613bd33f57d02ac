//! The origins whose pages may read files in a browser.
ghost use Rattle.std.specs.Prelude.{◌≡◌};
ghost use Rattle.std.specs.List.{list_all};
ghost use Rattle.command_lines.specs.Origins.{is_origin, is_visible};

/// The most bytes of an origin.
const MAX_ORIGIN: usize = 255;

fn is_visible(b: u8) -> bool
    ensures { result ≡ is_visible b }
{
    b >= b'!' && b <= b'~'
}

fn are_visible(word: &[u8]) -> bool
    ensures { result ≡ list_all is_visible word.now }
{
    word.iter().all(|b| is_visible(*b))
}

/// Returns whether a word is an origin: 1 to 255 visible bytes. The word `*`, which stands for any origin, is one.
pub fn is_origin(word: &str) -> bool
    ensures { result ≡ is_origin word.now }
{
    !word.is_empty() && word.len() <= MAX_ORIGIN && are_visible(word.as_bytes())
}
