//! The command line of `cogworld`.
ghost use Rattle.std.specs.Prelude.{◌≡◌, false, true, IfErr, IfOk, codes, map};
ghost use Rattle.clap.specs.Words.{FailsBy, app_of, fault_of, kind_of, matches_of, rule_of, takes};
ghost use Rattle.command_lines.specs.WorldLine.{HasValues, word as some_word, world_app};

use crate::arguments::choice;
use crate::help::{VERSION, WORLD_NOTES};
use clap::error::ErrorKind;
use clap::{Arg, ArgAction, Command, Error};
use std::alloc::{AllocError, Global};
use std::convert::AsStr;

/// Holds the words of `cogworld`: the path of the script, and the number of bytes of a piece of an answer.
#[derive(Clone, Copy, Debug, PartialEq, Eq)]
pub struct WorldLine<'a> {
    pub script: &'a str,
    pub pieces: Option<&'a str>,
}

fn script<'a>(alloc: Global) -> Arg<'a>
    ensures rule { rule_of result ≡ some_word (codes "SCRIPT") }
    ensures local { result.global ≡ false }
{
    Arg::new(alloc, "SCRIPT")
        .help(
            "The file of the script: lines of events, its paths from the current folder on (no default)",
        )
        .required(true)
        .action(ArgAction::Set)
}

fn world_command<'a>(alloc: Global) -> Result<Command<'a>, AllocError>
    ensures { IfOk result (λ command. app_of command ≡ world_app) }
{
    let command = Command::new(alloc, "cogworld")
        .about("Runs a script of events and prints its log")
        .version(VERSION)
        .after_help(WORLD_NOTES)
        .arg(script(alloc))?;
    let help = "Clients get each answer in pieces of N bytes, 1 to 1069056 (default: whole)";
    command.arg(choice(alloc, "pieces", "N", help))
}

/// Reads the words of `cogworld`, of which the first is its own name. Words that clap takes fail only where no memory is left.
pub fn world_line<'a, S: AsStr>(alloc: Global, words: &'a [S]) -> Result<WorldLine<'a>, Error>
    ensures ok { IfOk result (HasValues (matches_of world_app (map S.text words.entry.now))) }
    ensures err { IfErr result (λ e. takes world_app (map S.text words.entry.now) ≡ true → kind_of e ≡ ErrorKind.OutOfMemory) }
    // Words that clap refuses fail with clap's kind of error.
    ensures kinds { FailsBy (fault_of world_app (map S.text words.entry.now)) result }
{
    let command = world_command(alloc)?;
    let matches = command.try_get_matches_from(words)?;
    Ok(WorldLine {
        script: matches.get_str("SCRIPT").unwrap(),
        pieces: matches.get_str("pieces"),
    })
}
