//! The command line of `cogread`.
ghost use Rattle.std.specs.Prelude.{◌≡◌, IfOk, IfSome, None, codes};
ghost use Rattle.clap.specs.Words.{all_of, found_of, rows_of, subcommand_rows_of};
ghost use Rattle.command_lines.specs.ReadLine.{AreHeaders, AsksDescription, AsksWindow, HasBounds, HasFound, HasHeaders, HasLine, HasWindow, IsOfFour, word_of};

use crate::arguments::{add, add_choice, add_flag, choice, flag};
use crate::help::{READ_NOTES, VERSION};
use clap::{Arg, ArgAction, ArgMatches, Command, Error};
use std::alloc::{AllocError, Global};
use std::convert::AsStr;

/// Holds the words of `cogread` as they are written: the server as `HOST:PORT`, the file's name, what is asked of it, and the options.
#[derive(Clone, Copy, Debug, PartialEq, Eq)]
pub struct ReadLine<'a> {
    pub server: &'a str,
    pub name: &'a str,
    pub asked: AskedWords<'a>,
    pub requests: Option<&'a str>,
    pub blocks: Option<&'a str>,
    pub ahead: Option<&'a str>,
    /// Whether the connection is kept from one request to the next.
    pub keep: bool,
    /// Whether each request has a connection of its own, even where a URL names the file.
    pub close: bool,
    /// The file that the report is written to, instead of standard output.
    pub output: Option<&'a str>,
    /// Whether a world file is written beside that file.
    pub world: bool,
    /// Whether a line is printed for each exchange.
    pub verbose: bool,
    /// Whether the progress of the exchanges is drawn.
    pub progress: bool,
}

/// Holds a line of `cogread`, and the field lines that it adds to requests: the words of `--header`, in their order.
#[derive(Debug, Drop)]
pub struct LineWithHeaders<'a> {
    pub line: ReadLine<'a>,
    pub headers: Vec<&'a str>,
}

/// Says what is asked of a file.
#[derive(Clone, Copy, Debug, PartialEq, Eq)]
pub enum AskedWords<'a> {
    /// The sides of the levels, and what georeferences the image.
    Info,
    /// A description, in JSON or in words.
    Description { is_json: bool },
    /// The samples of a window.
    Window(WindowWords<'a>),
    /// The whole of a level, if one is picked.
    Whole { level: Option<&'a str> },
    /// The pixels of a level that a rectangle meets.
    Bounds(BoundsWords<'a>),
}

/// Holds a rectangle in the file's own coordinates, and the level whose pixels are read, if one is picked.
#[derive(Clone, Copy, Debug, PartialEq, Eq)]
pub struct BoundsWords<'a> {
    pub west: &'a str,
    pub south: &'a str,
    pub east: &'a str,
    pub north: &'a str,
    pub level: Option<&'a str>,
}

/// Holds a window: its left column, its top row, its sides, and the level or the columns that pick its level.
#[derive(Clone, Copy, Debug, PartialEq, Eq)]
pub struct WindowWords<'a> {
    pub x: &'a str,
    pub y: &'a str,
    pub w: &'a str,
    pub h: &'a str,
    pub level: Option<&'a str>,
    pub columns: Option<&'a str>,
}

const WINDOW_EXAMPLE: &str = "\
Example:
  cogtools cogread window 127.0.0.1:8080 a.tif 0 0 256 256 > window.pgm
  cogtools cogread window http://127.0.0.1:8080/a.tif 0 0 256 256 --output window.pgm
  cogtools cogread window http://127.0.0.1:8080/a.tif --bounds 106.1 47.5 106.3 47.9 --output window.pgm --world

http://HOST[:PORT]/PATH[?QUERY] stands for SERVER NAME, and its connection is kept. So does the path of a file of the disk.";

const INFO_EXAMPLE: &str = "\
Example:
  cogtools cogread info 127.0.0.1:8080 a.tif
  cogtools cogread info http://127.0.0.1:8080/a.tif

http://HOST[:PORT]/PATH[?QUERY] stands for SERVER NAME, and its connection is kept. So does the path of a file of the disk.";

const DESCRIBE_EXAMPLE: &str = "\
Example:
  cogtools cogread describe 127.0.0.1:8080 a.tif
  cogtools cogread describe http://127.0.0.1:8080/a.tif --json

http://HOST[:PORT]/PATH[?QUERY] stands for SERVER NAME, and its connection is kept. So does the path of a file of the disk.";

/// Appends an argument, unless making it failed.
fn try_add<'a>(
    arguments: &mut Vec<Arg<'a>>,
    argument: Result<Arg<'a>, AllocError>,
) -> Result<(), AllocError> {
    add(arguments, argument?)
}

/// Appends a positional argument that is required.
fn add_word<'a>(
    alloc: Global,
    arguments: &mut Vec<Arg<'a>>,
    name: &'a str,
    help: &'a str,
) -> Result<(), AllocError> {
    add(arguments, Arg::new(alloc, name).help(help).required(true))
}

/// Appends a positional argument that is required unless `--whole` or `--bounds` stands, and refused beside these.
fn add_side<'a>(
    alloc: Global,
    arguments: &mut Vec<Arg<'a>>,
    name: &'a str,
    help: &'a str,
) -> Result<(), AllocError> {
    let side = Arg::new(alloc, name).help(help);
    let side = side.required_unless_present_any(&["whole", "bounds"])?;
    try_add(arguments, side.conflicts_with_all(&["whole", "bounds"]))
}

/// Appends an option without a value, which excludes the option `other`.
fn add_flag_without<'a>(
    alloc: Global,
    arguments: &mut Vec<Arg<'a>>,
    name: &'a str,
    other: &'a str,
    help: &'a str,
) -> Result<(), AllocError> {
    try_add(arguments, flag(alloc, name, help).conflicts_with(other))
}

/// Appends the options that set limits: on requests, on the blocks of the cache, and on the blocks that are asked for early.
fn add_amounts<'a>(alloc: Global, arguments: &mut Vec<Arg<'a>>) -> Result<(), AllocError> {
    let help = "Makes at most N requests, 1 to 65536 (default 64; with a path 65536)";
    add_choice(alloc, arguments, "requests", "N", help)?;
    let help = "Keeps N blocks of 16384 bytes, 66 to 4096 (default 256)";
    add_choice(alloc, arguments, "blocks", "N", help)?;
    let help =
        "Blocks that a request may ask for early, after those that are needed next, 0 to 64 (default 0; with a URL or a path 64)";
    add_choice(alloc, arguments, "ahead", "N", help)
}

/// Appends the options that say whether a connection is kept.
fn add_connections<'a>(alloc: Global, arguments: &mut Vec<Arg<'a>>) -> Result<(), AllocError> {
    let help = "Keeps one connection for all requests, as long as the server does";
    add_flag_without(alloc, arguments, "keep", "close", help)?;
    let help =
        "Connects anew for each request (the default for SERVER NAME; a URL's connection is kept)";
    add_flag(alloc, arguments, "close", help)
}

/// Appends the option that adds a field line to requests. It may stand more than once.
fn add_header<'a>(alloc: Global, arguments: &mut Vec<Arg<'a>>) -> Result<(), AllocError> {
    let help = "Adds a field line to each request, as 'NAME: VALUE'; may stand up to 16 times";
    let header = choice(alloc, "header", "LINE", help).action(ArgAction::Append);
    add(arguments, header)
}

/// Appends the options that say where the report goes, and what is printed beside it.
fn add_telling<'a>(alloc: Global, arguments: &mut Vec<Arg<'a>>) -> Result<(), AllocError> {
    let help =
        "Writes to this file, which is replaced once all is there (default: standard output)";
    add_choice(alloc, arguments, "output", "FILE", help)?;
    let help = "Prints each exchange on standard error, and why there is no report";
    add_flag(alloc, arguments, "verbose", help)?;
    let help = "Draws on standard error, as one line over itself, how many ranges and bytes came";
    add_flag_without(alloc, arguments, "progress", "verbose", help)
}

/// Appends the arguments of each command: the server and the name first, the options last.
fn add_common<'a>(alloc: Global, arguments: &mut Vec<Arg<'a>>) -> Result<(), AllocError> {
    add_word(alloc, arguments, "SERVER", "The server, as HOST:PORT")?;
    add_word(
        alloc,
        arguments,
        "NAME",
        "The name of the file at the server",
    )?;
    add_amounts(alloc, arguments)?;
    add_connections(alloc, arguments)?;
    add_header(alloc, arguments)?;
    add_telling(alloc, arguments)
}

/// Appends the sides of a window.
fn add_sides<'a>(alloc: Global, arguments: &mut Vec<Arg<'a>>) -> Result<(), AllocError> {
    add_side(alloc, arguments, "X", "The left column, in pixels from 0")?;
    add_side(alloc, arguments, "Y", "The top row, in pixels from 0")?;
    add_side(alloc, arguments, "W", "The width, in pixels")?;
    add_side(alloc, arguments, "H", "The height, in pixels")
}

/// Appends the options that pick the level, and the whole of it.
fn add_levels<'a>(alloc: Global, arguments: &mut Vec<Arg<'a>>) -> Result<(), AllocError> {
    let help = "The level, 0 for the largest (default 0)";
    let level = choice(alloc, "level", "N", help).conflicts_with("columns");
    try_add(arguments, level)?;
    let help =
        "The smallest level in which the window is at least C columns wide; X Y W H are then of level 0 (no default)";
    add_choice(alloc, arguments, "columns", "C", help)?;
    let help = "The whole of the level, instead of X Y W H";
    add_flag_without(alloc, arguments, "whole", "columns", help)
}

/// Appends the option that takes a rectangle. Its four values may begin with `-`, as negative numbers do.
fn add_bounds<'a>(alloc: Global, arguments: &mut Vec<Arg<'a>>) -> Result<(), AllocError> {
    let help =
        "The pixels that a rectangle meets, instead of X Y W H: its sides, as numbers in the file's own coordinates";
    let bounds = choice(alloc, "bounds", "N", help)
        .num_args(4)
        .value_names(&["W", "S", "E", "N"])
        .allow_hyphen_values(true);
    let bounds = bounds.conflicts_with("columns")?;
    try_add(arguments, bounds.conflicts_with("whole"))
}

/// Appends the option that asks for a world file.
fn add_world<'a>(alloc: Global, arguments: &mut Vec<Arg<'a>>) -> Result<(), AllocError> {
    let help =
        "Writes a world file beside FILE of --output, which places the picture: FILE with the ending .wld";
    let world = flag(alloc, "world", help).requires_arg("output")?;
    try_add(arguments, world.conflicts_with("columns"))
}

/// Appends a command with these arguments.
fn add_command<'a>(
    alloc: Global,
    commands: &mut Vec<Command<'a>>,
    name: &'a str,
    about: &'a str,
    example: &'a str,
    arguments: Vec<Arg<'a>>,
) -> Result<(), AllocError> {
    let command = Command::new(alloc, name).about(about).after_help(example);
    commands.push(command.args(arguments)?)?;
    Ok(())
}

fn add_info<'a>(alloc: Global, commands: &mut Vec<Command<'a>>) -> Result<(), AllocError> {
    let mut arguments = Vec::new(alloc);
    add_common(alloc, &mut arguments)?;
    let about = "Prints the levels, keys and model fields of a file";
    add_command(alloc, commands, "info", about, INFO_EXAMPLE, arguments)
}

fn add_window<'a>(alloc: Global, commands: &mut Vec<Command<'a>>) -> Result<(), AllocError> {
    let mut arguments = Vec::new(alloc);
    add_common(alloc, &mut arguments)?;
    add_sides(alloc, &mut arguments)?;
    add_levels(alloc, &mut arguments)?;
    add_bounds(alloc, &mut arguments)?;
    add_world(alloc, &mut arguments)?;
    let about = "Writes a window of a file to standard output, as P5 or P6 (PGM, PPM)";
    add_command(alloc, commands, "window", about, WINDOW_EXAMPLE, arguments)
}

fn add_describe<'a>(alloc: Global, commands: &mut Vec<Command<'a>>) -> Result<(), AllocError> {
    let mut arguments = Vec::new(alloc);
    add_common(alloc, &mut arguments)?;
    let help = "Prints JSON, with gdalinfo's keys where they mean the same";
    add_flag(alloc, &mut arguments, "json", help)?;
    let about =
        "Describes a file: its levels, coordinate system, origin, size of a pixel and corners";
    add_command(
        alloc,
        commands,
        "describe",
        about,
        DESCRIBE_EXAMPLE,
        arguments,
    )
}

fn subcommands<'a>(alloc: Global) -> Result<Vec<Command<'a>>, AllocError> {
    let mut commands = Vec::new(alloc);
    add_window(alloc, &mut commands)?;
    add_info(alloc, &mut commands)?;
    add_describe(alloc, &mut commands)?;
    Ok(commands)
}

/// Makes the command without its subcommands.
fn bare_command<'a>(alloc: Global) -> Command<'a> {
    Command::new(alloc, "cogread")
        .about(
            "Reads a window, the info or a description of a file over HTTP, by single byte ranges",
        )
        .version(VERSION)
        .propagate_version(true)
        .after_help(READ_NOTES)
        .subcommand_required(true)
}

fn read_command<'a>(alloc: Global) -> Result<Command<'a>, AllocError> {
    let commands = subcommands(alloc)?;
    bare_command(alloc).subcommands(commands)
}

/// Returns the value of a required argument.
fn value<'a>(matches: &ArgMatches<'a>, name: &str) -> &'a str
    ensures { result.now ≡ word_of name.now (rows_of (found_of matches.now)) }
{
    matches.get_str(name).unwrap_or("")
}

/// Returns the words of a window.
fn words_of_window<'a>(matches: &ArgMatches<'a>) -> WindowWords<'a>
    ensures { HasWindow (rows_of (found_of matches.now)) result }
{
    WindowWords {
        x: value(matches, "X"),
        y: value(matches, "Y"),
        w: value(matches, "W"),
        h: value(matches, "H"),
        level: matches.get_str("level"),
        columns: matches.get_str("columns"),
    }
}

/// The number of values of `--bounds`.
const SIDES: usize = 4;

/// Returns the words of a rectangle, or `None` where there aren't four of them.
fn words_of_bounds<'a>(matches: &ArgMatches<'a>) -> Option<BoundsWords<'a>>
    ensures four { IfSome result (HasBounds (rows_of (found_of matches.now))) }
    ensures none { result ≡ None → ¬ IsOfFour (all_of (codes "bounds") (rows_of (found_of matches.now))) }
{
    let values = matches.get_strs("bounds")?;
    if values.len() != SIDES {
        return None;
    }
    Some(BoundsWords {
        west: values[0],
        south: values[1],
        east: values[2],
        north: values[3],
        level: matches.get_str("level"),
    })
}

/// Returns what the words of a window ask for: the whole of a level, the pixels that a rectangle meets, or a window in pixels.
fn window_words<'a>(matches: &ArgMatches<'a>) -> AskedWords<'a>
    ensures { AsksWindow (rows_of (found_of matches.now)) result }
{
    if matches.get_flag("whole") {
        return AskedWords::Whole {
            level: matches.get_str("level"),
        };
    }
    match words_of_bounds(matches) {
        Some(bounds) => AskedWords::Bounds(bounds),
        None => AskedWords::Window(words_of_window(matches)),
    }
}

fn description_words(matches: &ArgMatches<'_>) -> AskedWords<'static>
    ensures { AsksDescription (rows_of (found_of matches.now)) result }
{
    AskedWords::Description {
        is_json: matches.get_flag("json"),
    }
}

/// Returns the line that a subcommand's words make, which asks for `asked`.
fn line_of<'a>(matches: &ArgMatches<'a>, asked: AskedWords<'a>) -> ReadLine<'a>
    ensures words { HasLine (rows_of (found_of matches.now)) result }
    ensures asked { result.asked ≡ asked.entry }
{
    ReadLine {
        server: value(matches, "SERVER"),
        name: value(matches, "NAME"),
        asked,
        requests: matches.get_str("requests"),
        blocks: matches.get_str("blocks"),
        ahead: matches.get_str("ahead"),
        keep: matches.get_flag("keep"),
        close: matches.get_flag("close"),
        output: matches.get_str("output"),
        world: matches.get_flag("world"),
        verbose: matches.get_flag("verbose"),
        progress: matches.get_flag("progress"),
    }
}

/// Returns the line of the subcommand that was found.
fn found_line<'a>(matches: &ArgMatches<'a>) -> ReadLine<'a>
    ensures { HasFound (subcommand_rows_of matches.now) (rows_of (found_of matches.now)) result }
{
    match matches.subcommand() {
        Some(("window", window)) => line_of(window, window_words(window)),
        Some(("describe", file)) => line_of(file, description_words(file)),
        Some((_, info)) => line_of(info, AskedWords::Info),
        None => line_of(matches, AskedWords::Info),
    }
}

/// Returns the values of `--header`, in their order.
fn headers_of<'a>(alloc: Global, matches: &ArgMatches<'a>) -> Result<Vec<&'a str>, AllocError>
    ensures { IfOk result (λ headers. AreHeaders (rows_of (found_of matches.now)) headers.items) }
{
    let Some(values) = matches.get_strs("header") else {
        return Ok(Vec::new(alloc));
    };
    let headers = Vec::from_slice(alloc, values)?;
    Ok(headers)
}

/// Returns the values of `--header` of the subcommand that was found.
fn found_headers<'a>(alloc: Global, matches: &ArgMatches<'a>) -> Result<Vec<&'a str>, AllocError>
    ensures { IfOk result (λ headers. HasHeaders (subcommand_rows_of matches.now) (rows_of (found_of matches.now)) headers.items) }
{
    match matches.subcommand() {
        Some((_, found)) => headers_of(alloc, found),
        None => headers_of(alloc, matches),
    }
}

/// Reads the words of `cogread` with the field lines of `--header`. The first word is the program's own name. Fails where clap refuses the
/// words, or where no memory is left.
pub fn read_line_with_headers<'a, S: AsStr>(
    alloc: Global,
    words: &'a [S],
) -> Result<LineWithHeaders<'a>, Error> {
    let command = read_command(alloc)?;
    let matches = command.try_get_matches_from(words)?;
    Ok(LineWithHeaders {
        line: found_line(&matches),
        headers: found_headers(alloc, &matches)?,
    })
}

/// Reads the words of `cogread`, of which the first is its own name. Passes over those of `--header`. Fails where clap refuses them, or
/// where no memory is left.
pub fn read_line<'a, S: AsStr>(alloc: Global, words: &'a [S]) -> Result<ReadLine<'a>, Error> {
    let command = read_command(alloc)?;
    let matches = command.try_get_matches_from(words)?;
    Ok(found_line(&matches))
}
