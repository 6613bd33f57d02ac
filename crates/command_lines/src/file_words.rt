//! How the words of `cogread` name a file: by a server and a name, or by one word instead of both.
ghost use Rattle.std.specs.Prelude.{◌≡◌, ◌+◌, ◌++◌, ◌∷◌, ◌<◌, [], if◌then◌else◌, IfOk, OnOk, codes, drop, eqb, length, map, take};
ghost use Rattle.std.specs.List.{starts_with};
ghost use Rattle.command_lines.specs.FileWord.{IsFileWord, expected_after, expected_after_any, is_command, is_place, is_spaced_option, places, single_word, words_needed};
ghost use Rattle.command_lines.specs.declared.file_words.Expected.TheVariants.{Any};

use crate::quick::has_option;
use crate::urls::is_url;
use std::alloc::{AllocError, Global};
use std::convert::AsStr;

/// Says what the next word of a line is expected to be.
#[derive(Clone, Copy)]
enum Expected {
    /// An option or a positional argument.
    Any,
    /// A value of the option before it, and this many values after it.
    Value(u32),
    /// A positional argument, since `--` stood before it.
    Place,
}

/// Says how a line of `cogread` names its file. A word is given by its index in the line.
#[derive(Clone, Copy, Debug, PartialEq, Eq)]
pub enum FileWord {
    /// By a server and a name, as the command has them. Or words are missing, and none of them may stand for both.
    ServerAndName,
    /// By a URL: it is the first word after the program's own name, instead of `describe SERVER NAME`.
    Alone(usize),
    /// By one word where the server is expected, since words are missing. It may stand for a server and a name.
    Single(usize),
}

/// The number of values of `--bounds` after the first.
const BOUNDS_AFTER_THE_FIRST: u32 = 3;

/// Returns whether a word is an option whose value is the next word.
fn is_spaced_option(word: &str) -> bool
    ensures { result ≡ is_spaced_option word.now }
{
    word == "--requests"
        || word == "--blocks"
        || word == "--ahead"
        || word == "--header"
        || word == "--output"
        || word == "--level"
        || word == "--columns"
}

/// Returns what is expected after a word that isn't the value of an option.
fn expected_after_any(word: &str) -> Expected
    ensures { result ≡ expected_after_any word.now }
{
    if word == "--" {
        Expected::Place
    } else if word == "--bounds" {
        Expected::Value(BOUNDS_AFTER_THE_FIRST)
    } else if is_spaced_option(word) {
        Expected::Value(0)
    } else {
        Expected::Any
    }
}

/// Returns whether a word begins with `-`.
fn begins_with_dash(word: &str) -> bool
    ensures { result ≡ starts_with eqb word.now (codes "-") }
{
    word.starts_with("-")
}

/// Returns whether a word is a positional argument where `expected` says what it may be.
fn is_place(expected: Expected, word: &str) -> bool
    ensures { result ≡ is_place expected word.now }
{
    match expected {
        Expected::Any => !begins_with_dash(word) || word == "-",
        Expected::Value(_) => false,
        Expected::Place => true,
    }
}

/// Returns what is expected after a word of which `expected` says what it may be.
fn expected_after(expected: Expected, word: &str) -> Expected
    ensures { result ≡ expected_after expected word.now }
{
    match expected {
        Expected::Any => expected_after_any(word),
        Expected::Value(0) => Expected::Any,
        Expected::Value(more) => Expected::Value(more - 1),
        Expected::Place => Expected::Place,
    }
}

/// Appends `index` where the word at it is a positional argument.
fn add_place(
    found: &mut Vec<usize>,
    index: usize,
    expected: Expected,
    word: &str,
) -> Result<(), AllocError>
    ensures { OnOk result (found.new.items ≡ found.old.items ++ (if is_place expected word.now then index ∷ [] else [])) }
{
    if is_place(expected, word) {
        found.push(index)?;
    }
    Ok(())
}

/// Returns the indices of the positional arguments.
fn places<S: AsStr>(alloc: Global, words: &[S]) -> Result<Vec<usize>, AllocError>
    ensures { IfOk result (λ found. found.items ≡ places Any 0 (map S.text words.now)) }
{
    let mut found = Vec::new(alloc);
    let mut expected = Expected::Any;
    for k in 0..words.len() {
        let word = words[k].as_str();
        add_place(&mut found, k, expected, word)?;
        expected = expected_after(expected, word);
    }
    Ok(found)
}

/// Returns whether a word is one of the commands.
fn is_command(word: &str) -> bool
    ensures { result ≡ is_command word.now }
{
    word == "window" || word == "info" || word == "describe"
}

/// Returns how many positional arguments a line of a command has. They are the program's own name, the command, SERVER, NAME, and the sides
/// of a window. With `is_whole` there are no sides: `--whole` or `--bounds` stands for them.
fn words_needed(command: &str, is_whole: bool) -> usize
    ensures { result ≡ words_needed command.now is_whole }
{
    if command == "window" && !is_whole {
        8
    } else {
        4
    }
}

/// Returns the index of the word that stands where the server does, in a line of a command that lacks words. Returns `None` for any other
/// line.
fn single_word<S: AsStr>(alloc: Global, words: &[S]) -> Result<Option<usize>, AllocError>
    ensures { IfOk result (λ index. index ≡ single_word (map S.text words.now)) }
{
    let Some(command) = words.get(1) else {
        return Ok(None);
    };
    let command = command.as_str();
    let found = places(alloc, words)?;
    let is_whole = has_option(words, "--whole") || has_option(words, "--bounds");
    if is_command(command) && found.len() < words_needed(command, is_whole) {
        Ok(found.get(2).copied())
    } else {
        Ok(None)
    }
}

/// Returns how the words of `cogread` name a file. The first word is the program's own name. Fails where no memory is left.
pub fn file_word<S: AsStr>(alloc: Global, words: &[S]) -> Result<FileWord, AllocError>
    ensures { IfOk result (IsFileWord (map S.text words.now)) }
{
    if let Some(first) = words.get(1)
        && is_url(first.as_str())
    {
        return Ok(FileWord::Alone(1));
    }
    match single_word(alloc, words)? {
        Some(index) => Ok(FileWord::Single(index)),
        None => Ok(FileWord::ServerAndName),
    }
}

/// Returns `words` with the words `instead` for the one at `index`. Fails where no memory is left.
pub fn words_instead<'a>(
    alloc: Global,
    words: &[&'a str],
    index: usize,
    instead: &[&'a str],
) -> Result<Vec<&'a str>, AllocError>
    requires { index < length words.now }
    ensures { IfOk result (λ line. line.items ≡ take index words.now ++ (instead.now ++ drop (index + 1) words.now)) }
{
    let mut line = Vec::new(alloc);
    line.extend_from_slice(&words[..index])?;
    line.extend_from_slice(instead)?;
    line.extend_from_slice(&words[index + 1..])?;
    Ok(line)
}
