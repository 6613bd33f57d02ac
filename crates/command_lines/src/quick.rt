//! The command line of `cogserve` in which each option may be left out, and the choice between its two forms.
ghost use Rattle.std.specs.Prelude.{◌≡◌, true, false, IfOk, IfErr, codes, map};
ghost use Rattle.std.specs.List.{before_first};
ghost use Rattle.clap.specs.Words.{FailsBy, fault_of, kind_of, matches_of, takes};
ghost use Rattle.command_lines.specs.QuickLine.{HasQuickValues, HasStart, has_option, is_full, option_name, quick_app, start_app};

use crate::serve::{QUICK, ServeLine, serve_command, serve_line};
use clap::Error;
use clap::error::ErrorKind;
use std::alloc::Global;
use std::convert::AsStr;

/// Holds the words of `cogserve` in the form where each option may be left out. A file may be given by its path alone.
#[derive(Drop)]
pub struct QuickLine<'a> {
    pub listen: Option<&'a str>,
    pub epoch: Option<&'a str>,
    pub connections: Option<&'a str>,
    pub at_once: Option<&'a str>,
    pub patience: Option<&'a str>,
    /// The origin whose pages may read the files in a browser, or `*` for any.
    pub allow_origin: Option<&'a str>,
    /// Whether `--announce-last` stands. In this form the last answer on a connection says that it is the last in any case.
    pub announce_last: bool,
    /// The least number of seconds between two comparisons of the bytes of a file that seems unchanged.
    pub verify: Option<&'a str>,
    /// Whether a log is kept on standard error.
    pub log: bool,
    pub files: Vec<&'a str>,
}

/// Holds a line of `cogserve` in one of its two forms.
#[derive(Drop)]
pub enum StartLine<'a> {
    /// The line has the options `--listen`, `--epoch` and `--connections`, and each file has its name.
    Full(ServeLine<'a>),
    /// The line is of the form in which each option may be left out.
    Quick(QuickLine<'a>),
}

/// Returns the name of the option that a word may be: all before the first `=`, or the whole word.
fn option_name(word: &str) -> &str
    ensures { result.now ≡ option_name word.now }
{
    match word.split_once('=') {
        Some((name, _)) => name,
        None => word,
    }
}

/// Returns whether an option with the name `name` stands before a word `--`.
pub(crate) fn has_option<S: AsStr>(words: &[S], name: &str) -> bool
    ensures { result ≡ has_option name.now (map S.text words.now) }
{
    for word in words {
        let word = word.as_str();
        if word == "--" {
            return false;
        }
        if option_name(word) == name {
            return true;
        }
    }
    false
}

/// Returns whether words are of the full form, in which `--listen`, `--epoch` and `--connections` all stand.
fn is_full<S: AsStr>(words: &[S]) -> bool
    ensures { result ≡ is_full (map S.text words.now) }
{
    has_option(words, "--listen")
        && has_option(words, "--epoch")
        && has_option(words, "--connections")
}

/// Reads words of the form in which each option may be left out. Fails where clap refuses them, or where no memory is left.
fn quick_line<'a, S: AsStr>(alloc: Global, words: &'a [S]) -> Result<QuickLine<'a>, Error>
    ensures ok { IfOk result (HasQuickValues (matches_of quick_app (map S.text words.entry.now))) }
    ensures err { IfErr result (λ e. takes quick_app (map S.text words.entry.now) ≡ true → kind_of e ≡ ErrorKind.OutOfMemory) }
    ensures kinds { FailsBy (fault_of quick_app (map S.text words.entry.now)) result }
{
    let command = serve_command(alloc, QUICK)?;
    let matches = command.try_get_matches_from(words)?;
    let files = Vec::from_slice(alloc, matches.get_strs("files").unwrap())?;
    Ok(QuickLine {
        listen: matches.get_str("listen"),
        epoch: matches.get_str("epoch"),
        connections: matches.get_str("connections"),
        at_once: matches.get_str("at-once"),
        patience: matches.get_str("patience"),
        allow_origin: matches.get_str("allow-origin"),
        announce_last: matches.get_flag("announce-last"),
        verify: matches.get_str("verify"),
        log: matches.get_flag("log"),
        files,
    })
}

/// Reads the words of `cogserve`, of which the first is its own name. The line is of the full form only where `--listen`, `--epoch` and
/// `--connections` all stand. Fails where clap refuses the words, or where no memory is left.
pub fn start_line<'a, S: AsStr>(alloc: Global, words: &'a [S]) -> Result<StartLine<'a>, Error>
    ensures ok { IfOk result (HasStart (map S.text words.entry.now)) }
    ensures err { IfErr result (λ e. takes (start_app (map S.text words.entry.now)) (map S.text words.entry.now) ≡ true
        → kind_of e ≡ ErrorKind.OutOfMemory) }
    // Words that clap refuses fail with clap's kind of error.
    ensures kinds { FailsBy (fault_of (start_app (map S.text words.entry.now)) (map S.text words.entry.now)) result }
{
    if is_full(words) {
        match serve_line(alloc, words) {
            Ok(line) => Ok(StartLine::Full(line)),
            Err(error) => Err(error),
        }
    } else {
        match quick_line(alloc, words) {
            Ok(line) => Ok(StartLine::Quick(line)),
            Err(error) => Err(error),
        }
    }
}
