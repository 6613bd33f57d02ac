//! `cogread`: reads a window, the info or a description of a file over sockets.
ghost use Rattle.std.specs.Prelude.{◌≡◌, ◌<◌, List, ℕ, IfErr, IfOk, IsErrAnd, IsOk, OnErr, OnOk, Some, length, map};
ghost use Rattle.std.specs.Borrow.{Bor};
ghost use Rattle.std.specs.Option.{option_copied};
ghost use Rattle.command_lines.specs.FileUrl.{Names};
ghost use Rattle.programs.specs.Lines.{IsExplained, IsLineOfPath, IsLineOfUrl, verbosity, words_of_url};
ghost use Rattle.programs.specs.Number.{IsOfNumber};
ghost use Rattle.programs.specs.Words.{AsksNothing, HasNoNumber, IsAsked, IsNoPick, IsNoUrl, IsNoWindow, IsOfWords, IsPick, IsWindow, ahead_number, asked_window, blocks_number, requests_number};

use crate::bounds::bounds;
use crate::clients::{client_of, client_of_url};
use crate::exit::Exit;
use crate::headers::add_headers;
use crate::local;
use crate::local::{check_server, is_plain_file, server_of_file, source_of};
use crate::negative::refused_words;
use crate::number::{number, number_or, with_range};
use crate::output::write_text;
use crate::unread::Unread;
use clap::error::ErrorKind;
use client_sockets::Socket;
use cog_client::{Client, Pieces, Query};
use command_lines::{
    AskedWords, FileUrl, FileUrlError, FileWord, LineWithHeaders, ReadLine, WindowWords, file_url,
    file_word, is_url, read_line_with_headers, words_instead,
};
use range_cache::{MAX_CAPACITY, MIN_CAPACITY};
use read_command::{Area, Asked, Exchanges, Part, Text};
use read_progress::{Noted, NotedNet, Printing, Verbosity};
use std::alloc::{AllocError, Global};
use std::io;
use std::net::{Net, TcpStream};
use std::rt::{Clock, Files};
use text_description::Form;
use text_report::ExplainedFault;
use tiff_dir::Pick;

/// The number of blocks that a request may ask for early where a URL or a path names the file.
const AHEAD_OF_A_URL: &str = "64";

/// The most requests for a file of the disk, which loses none.
const REQUESTS_OF_A_FILE: &str = "65536";

/// Holds what a line asks for, with its numbers.
#[derive(Clone, Copy)]
struct Numbers {
    asked: Asked,
    requests: u32,
    blocks: u32,
    ahead: u32,
}

fn pick<R: AllocGlobal>(rt: &R, words: &WindowWords<'_>) -> Result<Pick, Exit>
    ensures ok { IfOk result (IsPick (option_copied words.now.level) (option_copied words.now.columns)) }
    ensures err { OnErr result (IsNoPick (option_copied words.now.level) (option_copied words.now.columns)) }
    ensures kinds { IfErr result IsOfNumber }
{
    match words.columns {
        Some(columns) => Ok(Pick::Columns(number(rt, "--columns", columns, 0, u32::MAX)?)),
        None => Ok(Pick::Level(number_or(rt, "--level", words.level, 0, u32::MAX, 0)?)),
    }
}

fn window<R: AllocGlobal>(rt: &R, words: &WindowWords<'_>) -> Result<Query, Exit>
    ensures ok { IfOk result (IsWindow words.now) }
    ensures err { OnErr result (IsNoWindow words.now) }
    ensures kinds { IfErr result IsOfNumber }
{
    Ok(Query::Window {
        x: number(rt, "X", words.x, 0, u32::MAX)?,
        y: number(rt, "Y", words.y, 0, u32::MAX)?,
        w: number(rt, "W", words.w, 0, u32::MAX)?,
        h: number(rt, "H", words.h, 0, u32::MAX)?,
        pick: pick(rt, words)?,
    })
}

/// Returns a window as what is asked of a file. With `has_world` it is a part of its level, whose world file is asked for, too.
fn asked_window(query: Query, has_world: bool) -> Asked
    ensures { result ≡ asked_window query has_world }
{
    match (query, has_world) {
        (
            Query::Window {
                x,
                y,
                w,
                h,
                pick: Pick::Level(level),
            },
            true,
        ) => Asked::Part(Part {
            area: Area::Pixels { x, y, w, h },
            level,
            has_world,
        }),
        (query, _) => Asked::Query(query),
    }
}

/// Returns what words ask for. With `has_world` the world file of a window is asked for, too.
fn asked<R: AllocGlobal>(rt: &R, words: AskedWords<'_>, has_world: bool) -> Result<Asked, Exit>
    ensures ok { IfOk result (IsAsked words.entry has_world) }
    ensures err { OnErr result (AsksNothing words.entry) }
    ensures kinds { IfErr result (IsOfWords words.entry) }
{
    match words {
        AskedWords::Info => Ok(Asked::Query(Query::Info)),
        AskedWords::Description { is_json: true } => Ok(Asked::Description(Form::Json)),
        AskedWords::Description { is_json: false } => Ok(Asked::Description(Form::Words)),
        AskedWords::Window(words) => Ok(asked_window(window(rt, &words)?, has_world)),
        AskedWords::Whole { level } => Ok(Asked::Part(Part {
            area: Area::Whole,
            level: number_or(rt, "--level", level, 0, u32::MAX, 0)?,
            has_world,
        })),
        AskedWords::Bounds(words) => Ok(Asked::Part(Part {
            area: Area::Bounds(bounds(rt, &words)?),
            level: number_or(rt, "--level", words.level, 0, u32::MAX, 0)?,
            has_world,
        })),
    }
}

fn numbers_of<R: AllocGlobal>(rt: &R, line: &ReadLine<'_>) -> Result<Numbers, Exit>
    ensures asked { IfOk result (λ numbers. IsAsked line.now.asked line.now.world numbers.asked) }
    ensures requests { IfOk result (λ numbers. requests_number (option_copied line.now.requests) ≡ Some numbers.requests) }
    ensures blocks { IfOk result (λ numbers. blocks_number (option_copied line.now.blocks) ≡ Some numbers.blocks) }
    ensures ahead { IfOk result (λ numbers. ahead_number (option_copied line.now.ahead) ≡ Some numbers.ahead) }
    ensures err { OnErr result (HasNoNumber line.now) }
    ensures kinds { IfErr result (IsOfWords line.now.asked) }
{
    Ok(Numbers {
        asked: asked(rt, line.asked, line.world)?,
        requests: number_or(rt, "--requests", line.requests, 1, 65_536, 64)?,
        blocks: number_or(rt, "--blocks", line.blocks, MIN_CAPACITY, MAX_CAPACITY, 256)?,
        ahead: number_or(rt, "--ahead", line.ahead, 0, 64, 0)?,
    })
}

/// Returns what a line wants printed of exchanges.
fn verbosity_of(line: &ReadLine<'_>) -> Verbosity
    ensures { result ≡ verbosity line.now.verbose line.now.progress }
{
    match (line.verbose, line.progress) {
        (true, _) => Verbosity::Each,
        (false, true) => Verbosity::Progress,
        (false, false) => Verbosity::Nothing,
    }
}

/// Returns what a line asks for, read over sockets, which are closed then. The client looks ahead as the numbers say.
fn text_of_line<'c, R>(
    rt: &R,
    line: &ReadLine<'_>,
    numbers: Numbers,
    client: &'c mut Client,
    is_url: bool,
) -> Result<Text<'c>, Exit>
where
    R: Clock + Eprint + AllocGlobal + Net<Stream = TcpStream>,
{
    let net = NotedNet::new(rt);
    client.look_ahead(numbers.ahead);
    let mut socket = Socket::new(&net, line.server);
    if line.keep {
        client.keep_open();
        socket.keep_open();
    }
    match text_of_source(rt, &net, line, numbers, client, socket, is_url) {
        Ok(text) => Ok(text),
        Err(unread) => Err(unread.exit(net.refusal(), numbers.requests, is_url)),
    }
}

/// Returns what a line asks for, read over a source of answers. With `is_url` a URL or a path of the disk names the file.
fn text_of_source<'c, R, P: Pieces + Drop>(
    rt: &R,
    net: &NotedNet<'_, R>,
    line: &ReadLine<'_>,
    numbers: Numbers,
    client: &'c mut Client,
    source: P,
    is_url: bool,
) -> Result<Text<'c>, Unread>
where
    R: Clock + Eprint + AllocGlobal,
{
    let printing = Printing {
        rt,
        net,
        verbosity: verbosity_of(line),
    };
    let mut noted = Noted::new(rt.alloc(), source, printing);
    let exchanges = Exchanges {
        rt,
        requests: numbers.requests,
        is_url,
    };
    match exchanges.text(client, &mut noted, numbers.asked) {
        Ok(text) => Ok(text),
        Err(error) => {
            let came = noted.came();
            Err(Unread { error, came })
        }
    }
}

/// Reads what a line asks for over sockets, with the client of its file, and writes it. With `is_url` a URL names the file.
fn run_read<R>(
    rt: &R,
    line: &ReadLine<'_>,
    headers: &[&str],
    numbers: Numbers,
    client: &mut Client,
    is_url: bool,
) -> Result<(), Exit>
where
    R: Files + Clock + Print + Eprint + AllocGlobal + Net<Stream = TcpStream>,
{
    add_headers(rt, client, headers)?;
    let text = text_of_line(rt, line, numbers, client, is_url)?;
    write_text(rt, line, &text)
}

/// Reads what a line asks for from the file of the disk at `path`, and writes it.
fn run_local<R>(rt: &R, line: &ReadLine<'_>, headers: &[&str], path: &str) -> Result<(), Exit>
where
    R: Files + Clock + Print + Eprint + AllocGlobal + Net<Stream = TcpStream>,
{
    let numbers = with_range(numbers_of(rt, line))?;
    let mut client = client_of(rt, line, numbers.blocks)?;
    add_headers(rt, &mut client, headers)?;
    let ended = read_local(rt, line, numbers, &mut client, path);
    explained(rt, ended, &client)
}

/// Reads what a line asks for from the file of the disk at `path`, with the client of that file, and writes it.
fn read_local<R>(
    rt: &R,
    line: &ReadLine<'_>,
    numbers: Numbers,
    client: &mut Client,
    path: &str,
) -> Result<(), Exit>
where
    R: Files + Clock + Print + Eprint + AllocGlobal + Net<Stream = TcpStream>,
{
    client.look_ahead(numbers.ahead);
    let server = server_of_file(rt, path)?;
    let source = source_of(rt.alloc(), &server);
    let net = NotedNet::new(rt);
    match text_of_source(rt, &net, line, numbers, client, source, true) {
        Ok(text) => write_text(rt, line, &text),
        Err(unread) => Err(unread.exit(None, numbers.requests, true)),
    }
}

/// Returns what a URL names. Fails with `NotAFileUrl`, or with `Memory`.
fn url_of<R: AllocGlobal>(rt: &R, word: &str) -> Result<FileUrl, Exit>
    ensures ok { IfOk result (Names word.now) }
    ensures err { IfErr result (IsNoUrl word.now) }
{
    match file_url(rt.alloc(), word) {
        Ok(url) => Ok(url),
        Err(FileUrlError::Memory) => Err(Exit::Memory),
        Err(error) => Err(Exit::NotAFileUrl(String::from_str(rt.alloc(), word)?, error)),
    }
}

/// A URL that the line names, with the words that it stands for.
#[derive(Drop)]
struct AskedUrl<'a> {
    url: &'a FileUrl,
    words: Vec<&'a str>,
}

/// Returns `url` with the words that it stands for: a server and a name, and `describe` before them with `is_alone`.
fn asked_url<'a>(
    alloc: Global,
    url: &'a FileUrl,
    is_alone: bool,
) -> Result<AskedUrl<'a>, AllocError>
    ensures url { IfOk result (λ asked. asked.url ≡ url.entry) }
    ensures words { IfOk result (λ asked. map (λ (word : Bor (List ℕ)). word.now) asked.words.items ≡ words_of_url is_alone url.entry.now) }
{
    let mut words = Vec::new(alloc);
    if is_alone {
        words.push("describe")?;
    }
    words.push(url.server.as_str())?;
    words.push(url.target.as_str())?;
    Ok(AskedUrl { url, words })
}

/// Returns a line as it is where a URL names the file. The connection is kept, unless the line says otherwise, and the client looks ahead.
fn line_of_url<'a>(line: ReadLine<'a>) -> ReadLine<'a>
    ensures { IsLineOfUrl AHEAD_OF_A_URL.now line.entry result }
{
    ReadLine {
        keep: !line.close,
        ahead: line.ahead.or(Some(AHEAD_OF_A_URL)),
        ..line
    }
}

/// Returns a line as it is where a path names the file. The client looks ahead, and makes as many requests as it needs.
fn line_of_path<'a>(line: ReadLine<'a>) -> ReadLine<'a>
    ensures { IsLineOfPath AHEAD_OF_A_URL.now REQUESTS_OF_A_FILE.now line.entry result }
{
    ReadLine {
        ahead: line.ahead.or(Some(AHEAD_OF_A_URL)),
        requests: line.requests.or(Some(REQUESTS_OF_A_FILE)),
        ..line
    }
}

/// Reads words in which a URL or a path names the file. Fails with `Negative` where a number is negative, and with `CommandLine` where
/// clap refuses them otherwise.
fn read_words<'a, R: AllocGlobal>(
    rt: &R,
    words: &'a [&'a str],
) -> Result<LineWithHeaders<'a>, Exit> {
    match read_line_with_headers(rt.alloc(), words) {
        Ok(read) => Ok(read),
        Err(error) => Err(refused_words(rt, words, error)?),
    }
}

/// Runs the program on words of which the one at `index` is a URL, which stands for a server and a name. With `is_alone` it stands for
/// `describe`, too.
fn run_url<R>(rt: &R, words: &[&str], index: usize, is_alone: bool) -> Result<(), Exit>
where
    R: Files + Clock + Print + Eprint + AllocGlobal + Net<Stream = TcpStream>,
    requires { index < length words.now }
{
    let url = url_of(rt, words[index])?;
    let asked = asked_url(rt.alloc(), &url, is_alone)?;
    run_asked_url(rt, words, index, &asked)
}

/// Runs the program on words of which the one at `index` is the URL of `asked`, as `run_url` does.
fn run_asked_url<'a, R>(
    rt: &R,
    words: &[&'a str],
    index: usize,
    asked: &AskedUrl<'a>,
) -> Result<(), Exit>
where
    R: Files + Clock + Print + Eprint + AllocGlobal + Net<Stream = TcpStream>,
    requires { index < length words.now }
{
    let word = words[index];
    let named = words_instead(rt.alloc(), words, index, &asked.words)?;
    let read = read_words(rt, &named)?;
    let line = line_of_url(read.line);
    let numbers = with_range(numbers_of(rt, &line))?;
    let mut client = client_of_url(rt, word, asked.url, numbers.blocks)?;
    let ended = run_read(rt, &line, &read.headers, numbers, &mut client, true);
    explained(rt, ended, &client)
}

/// Has the fault of a file explained, as where a URL or a path of the disk names it: by a value that the client's bytes of the file have.
fn explained<R: AllocGlobal>(rt: &R, ended: Result<(), Exit>, client: &Client) -> Result<(), Exit>
    ensures ok { OnOk ended (IsOk result) }
    ensures err { IfErr ended (λ fault. IsErrAnd result (IsExplained fault)) }
{
    match ended {
        Err(Exit::OfFile(fault)) => {
            let levels = client.levels().unwrap_or(&[]);
            let explained = ExplainedFault::of(rt.alloc(), fault, client, levels)?;
            Err(Exit::Explained(explained))
        }
        ended => ended,
    }
}

/// Returns `words` with a server and a name for the path at `index`, and `describe` before them with `is_alone`.
fn words_of_path<'a>(
    alloc: Global,
    words: &[&'a str],
    index: usize,
    is_alone: bool,
) -> Result<Vec<&'a str>, AllocError>
    requires { index < length words.now }
{
    if is_alone {
        let instead = ["describe", local::SERVER, local::NAME];
        words_instead(alloc, words, index, &instead)
    } else {
        let instead = [local::SERVER, local::NAME];
        words_instead(alloc, words, index, &instead)
    }
}

/// Runs the program on words of which the one at `index` is the path of a file of the disk, which stands for a server and a name. With
/// `is_alone` it stands for `describe`, too.
fn run_path<R>(rt: &R, words: &[&str], index: usize, is_alone: bool) -> Result<(), Exit>
where
    R: Files + Clock + Print + Eprint + AllocGlobal + Net<Stream = TcpStream>,
    requires { index < length words.now }
{
    let named = words_of_path(rt.alloc(), words, index, is_alone)?;
    let read = read_words(rt, &named)?;
    let line = line_of_path(read.line);
    run_local(rt, &line, &read.headers, words[index])
}

/// Runs the program on words of which the one at `index` is a URL, or the path of a file of the disk. It stands for a server and a name.
/// Where it is neither, the words are run as `run_unread` does.
fn run_single<R>(rt: &R, words: &[&str], index: usize) -> Result<(), Exit>
where
    R: Files + Clock + Print + Eprint + AllocGlobal + Net<Stream = TcpStream>,
    requires { index < length words.now }
{
    if is_url(words[index]) {
        return run_url(rt, words, index, false);
    }
    if is_plain_file(rt, words[index]) {
        return run_path(rt, words, index, false);
    }
    run_unread(rt, words, words[index])
}

/// Runs the program on words of which `word` names no file. They name a server and a name, or ask for help. Fails with `NamesNoFile` where
/// a word is missing and `word` can't be a server.
fn run_unread<R>(rt: &R, words: &[&str], word: &str) -> Result<(), Exit>
where
    R: Files + Clock + Print + Eprint + AllocGlobal + Net<Stream = TcpStream>,
{
    match run_named(rt, words) {
        Err(Exit::CommandLine(error)) => {
            if error.kind() == ErrorKind::MissingRequiredArgument {
                check_server(rt, word)?;
            }
            Err(Exit::CommandLine(error))
        }
        ended => ended,
    }
}

/// Runs the program on words that name a server and a name.
fn run_named<R>(rt: &R, words: &[&str]) -> Result<(), Exit>
where
    R: Files + Clock + Print + Eprint + AllocGlobal + Net<Stream = TcpStream>,
{
    let read = read_line_with_headers(rt.alloc(), words)?;
    let numbers = numbers_of(rt, &read.line)?;
    let mut client = client_of(rt, &read.line, numbers.blocks)?;
    run_read(rt, &read.line, &read.headers, numbers, &mut client, false)
}

/// Returns whether the first word after the program's own name is the path of a plain file, and no command and no option.
fn begins_with_path<R: Files>(rt: &R, words: &[&str]) -> bool {
    match words.get(1) {
        Some(&("window" | "info" | "describe" | "help")) | None => false,
        Some(word) => !word.starts_with("-") && is_plain_file(rt, word),
    }
}

/// Runs the program on its words, of which the first is its own name. Fails with the reason for which the program ends early.
pub fn run_line<R>(rt: &R, words: &[&str]) -> Result<(), Exit>
where
    R: Files + Clock + Print + Eprint + AllocGlobal + Net<Stream = TcpStream>,
{
    match file_word(rt.alloc(), words)? {
        FileWord::Alone(index) if index < words.len() => run_url(rt, words, index, true),
        FileWord::Single(index) if index < words.len() => run_single(rt, words, index),
        _ if begins_with_path(rt, words) && words.len() > 1 => run_path(rt, words, 1, true),
        _ => run_named(rt, words),
    }
}
