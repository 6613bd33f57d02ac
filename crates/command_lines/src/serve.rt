//! The command line of `cogserve`.
ghost use Rattle.std.specs.Prelude.{◌≡◌, [], true, false, IfOk, IfErr, OnOk, codes, map};
ghost use Rattle.clap.specs.Words.{FailsBy, app_of, fault_of, kind_of, matches_of, rule_of, takes};
ghost use Rattle.command_lines.specs.Rules.{AddsRule, HaveRules};
ghost use Rattle.command_lines.specs.ServeLine.{HasValues, serve_app, serve_app_of, valued, words as some_words};

use crate::arguments::{add, add_choice, add_flag, choice};
use crate::help::{QUICK_NOTES, SERVE_NOTES, VERSION};
use clap::error::ErrorKind;
use clap::{Arg, ArgAction, Command, Error};
use std::alloc::{AllocError, Global};
use std::convert::AsStr;

/// Holds the words of `cogserve`: where it listens, its epoch, and how many connections it serves, in all and at once. `patience` is the
/// number of seconds that a connection without progress keeps its slot. A file is `NAME=PATH`.
#[derive(Drop)]
pub struct ServeLine<'a> {
    pub listen: &'a str,
    pub epoch: &'a str,
    pub connections: &'a str,
    pub at_once: Option<&'a str>,
    pub patience: Option<&'a str>,
    /// The origin whose pages may read the files in a browser, or `*` for any.
    pub allow_origin: Option<&'a str>,
    /// Whether the last answer on a connection says that it is the last.
    pub announce_last: bool,
    /// The least number of seconds between two comparisons of the bytes of a file that seems unchanged.
    pub verify: Option<&'a str>,
    /// Whether a log is kept on standard error.
    pub log: bool,
    pub files: Vec<&'a str>,
}

/// Holds what help says of a form of the line, and whether `--listen`, `--epoch` and `--connections` are required.
#[derive(Clone, Copy)]
pub(crate) struct Form {
    required: bool,
    listen: &'static str,
    epoch: &'static str,
    connections: &'static str,
    file: &'static str,
    files: &'static str,
    notes: &'static str,
}

/// The full form, in which these three options are required.
const FULL: Form = Form {
    required: true,
    listen: "Where to listen (no default)",
    epoch: "A number greater than at each earlier start, 0 to 4294967295 (no default)",
    connections: "How many connections to serve in all, 1 to 4294967295 (no default)",
    file: "NAME=PATH",
    files: "A file and the name that it is published under; 1 to 64 names, files of 1 to 67108864 bytes",
    notes: SERVE_NOTES,
};

/// The form in which each option may be left out.
pub(crate) const QUICK: Form = Form {
    required: false,
    listen: "Where to listen (default 127.0.0.1:8080)",
    epoch: "A number greater than at each earlier start, 0 to 4294967295 (default: the seconds since 1970)",
    connections: "How many connections to serve in all, 1 to 4294967295 (default 4294967295)",
    file: "FILE",
    files: "A file, which is published under its own name, or NAME=PATH; 1 to 64 names, files of 1 to 67108864 bytes",
    notes: QUICK_NOTES,
};

/// Makes an option with one value, which is required or may be left out.
fn valued<'a>(
    alloc: Global,
    required: bool,
    name: &'a str,
    value: &'a str,
    help: &'a str,
) -> Arg<'a>
    ensures rule { rule_of result ≡ valued required name.entry.now }
    ensures local { result.global ≡ false }
{
    choice(alloc, name, value, help).required(required)
}

fn files<'a>(alloc: Global, value: &'a str, help: &'a str) -> Arg<'a>
    ensures rule { rule_of result ≡ some_words (codes "files") }
    ensures local { result.global ≡ false }
{
    Arg::new(alloc, "files")
        .value_name(value)
        .help(help)
        .required(true)
        .action(ArgAction::Append)
}

/// Adds an option with one value, which is required or may be left out.
fn add_valued<'a>(
    alloc: Global,
    arguments: &mut Vec<Arg<'a>>,
    required: bool,
    name: &'a str,
    value: &'a str,
    help: &'a str,
) -> Result<(), AllocError>
    ensures { OnOk result (AddsRule arguments.old.items arguments.new.items (valued required name.entry.now)) }
{
    add(arguments, valued(alloc, required, name, value, help))
}

fn add_files<'a>(
    alloc: Global,
    arguments: &mut Vec<Arg<'a>>,
    value: &'a str,
    help: &'a str,
) -> Result<(), AllocError>
    ensures { OnOk result (AddsRule arguments.old.items arguments.new.items (some_words (codes "files"))) }
{
    add(arguments, files(alloc, value, help))
}

fn add_arguments<'a>(
    alloc: Global,
    arguments: &mut Vec<Arg<'a>>,
    form: Form,
) -> Result<(), AllocError>
    ensures { OnOk result (arguments.old.items ≡ [] → HaveRules arguments.new.items (serve_app_of form.required).top.rules) }
{
    let required = form.required;
    add_valued(
        alloc,
        arguments,
        required,
        "listen",
        "HOST:PORT",
        form.listen,
    )?;
    add_valued(alloc, arguments, required, "epoch", "N", form.epoch)?;
    add_valued(
        alloc,
        arguments,
        required,
        "connections",
        "N",
        form.connections,
    )?;
    add_files(alloc, arguments, form.file, form.files)?;
    let help = "How many connections at once, 1 to 10000 (default 256)";
    add_choice(alloc, arguments, "at-once", "N", help)?;
    let help =
        "How long a connection without progress keeps its slot while another waits, 1 to 3600 (default 60)";
    add_choice(alloc, arguments, "patience", "SECONDS", help)?;
    let help = "Lets pages of this origin read the files in a browser (`*`: of any origin)";
    add_choice(alloc, arguments, "allow-origin", "ORIGIN", help)?;
    let help = "The hundredth answer on a connection says `Connection: close`";
    add_flag(alloc, arguments, "announce-last", help)?;
    let help =
        "Compares the bytes of files that seem unchanged, at most once in SECONDS, 1 to 86400";
    add_choice(alloc, arguments, "verify", "SECONDS", help)?;
    let help =
        "Prints each answer on standard error, why a file isn't taken anew, and where it listens";
    add_flag(alloc, arguments, "log", help)
}

/// Makes the command that reads lines of a form.
pub(crate) fn serve_command<'a>(alloc: Global, form: Form) -> Result<Command<'a>, AllocError>
    ensures { IfOk result (λ command. app_of command ≡ serve_app_of form.required) }
{
    let mut arguments = Vec::new(alloc);
    add_arguments(alloc, &mut arguments, form)?;
    Command::new(alloc, "cogserve")
        .about("Serves files over HTTP by single byte ranges")
        .version(VERSION)
        .after_help(form.notes)
        .args(arguments)
}

/// Reads the words of `cogserve`, of which the first is its own name. Fails where clap refuses them, or where no memory is left.
pub fn serve_line<'a, S: AsStr>(alloc: Global, words: &'a [S]) -> Result<ServeLine<'a>, Error>
    ensures ok { IfOk result (HasValues (matches_of serve_app (map S.text words.entry.now))) }
    ensures err { IfErr result (λ e. takes serve_app (map S.text words.entry.now) ≡ true → kind_of e ≡ ErrorKind.OutOfMemory) }
    // Words that clap refuses fail with clap's kind of error.
    ensures kinds { FailsBy (fault_of serve_app (map S.text words.entry.now)) result }
{
    let command = serve_command(alloc, FULL)?;
    let matches = command.try_get_matches_from(words)?;
    let listen = matches.get_str("listen").unwrap();
    let epoch = matches.get_str("epoch").unwrap();
    let connections = matches.get_str("connections").unwrap();
    let files = Vec::from_slice(alloc, matches.get_strs("files").unwrap())?;
    Ok(ServeLine {
        listen,
        epoch,
        connections,
        at_once: matches.get_str("at-once"),
        patience: matches.get_str("patience"),
        allow_origin: matches.get_str("allow-origin"),
        announce_last: matches.get_flag("announce-last"),
        verify: matches.get_str("verify"),
        log: matches.get_flag("log"),
        files,
    })
}
