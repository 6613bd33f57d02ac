//! Lines in which a number is negative.
use crate::exit::Exit;
use clap::Error;
use clap::error::ErrorKind;
use std::alloc::AllocError;

/// Returns whether a word is a minus sign before a digit.
fn is_negative(word: &str) -> bool {
    match word.strip_prefix('-') {
        Some(rest) => rest.starts_with(|c: char| c.is_ascii_digit()),
        None => false,
    }
}

/// Returns the first negative number of words, or `None`. The values of `--bounds` may be negative, so that of words with it none is
/// returned.
fn first_negative<'a>(words: &[&'a str]) -> Option<&'a str> {
    if words.iter().any(|word| word.starts_with("--bounds")) {
        return None;
    }
    words.iter().copied().find(|word| is_negative(word))
}

/// Returns the fault of words that clap refuses by `error`: `Negative` where it takes a negative number for an option, else `CommandLine`.
pub fn refused_words<R: AllocGlobal>(
    rt: &R,
    words: &[&str],
    error: Error,
) -> Result<Exit, AllocError> {
    match first_negative(words) {
        Some(word) if error.kind() == ErrorKind::UnknownArgument => {
            Ok(Exit::Negative(String::from_str(rt.alloc(), word)?))
        }
        _ => Ok(Exit::CommandLine(error)),
    }
}
