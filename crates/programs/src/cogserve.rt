//! `cogserve`: publishes files of the disk and serves them over many connections at once.
ghost use Rattle.std.specs.Prelude.{◌≡◌, ◌*◌, ◌++◌, ◌∷◌, [], IfErr, IfOk, None, Ok, OnErr, OnOk, Some, option_map, ◌==◌, if◌then◌else◌};
ghost use Rattle.std.specs.Int.NonZero.{non_zero_usize_get};
ghost use Rattle.std.specs.Option.{option_copied};
ghost use Rattle.programs.specs.Files.{AreFiles, IsFile, IsNoFile, IsOfFiles, NamesFile, NamesOneOf};
ghost use Rattle.programs.specs.Number.{IsOfNumber, Names};
ghost use Rattle.programs.specs.Words.{HasNoLimit, at_once_number, connections_number, number_32, patience_number, verify_number};

use crate::exit::Exit;
use crate::number::{number, number_or};
use crate::origin::additions_of;
use crate::quick;
use cog_server::{Additions, PublishError, Server};
use command_lines::{ServeLine, StartLine, start_line};
use disk_files::{WatchError, Watched};
use server_files::{
    AccessLog, NotPublished, ServeFilesError, listen, publish_all, serve_connections,
};
use server_sockets::Limits;
use std::alloc::AllocError;
use std::io::ErrorKind;
use std::net::{Net, TcpListener, TcpStream};
use std::num::NonZeroUsize;
use std::rt::{Clock, Files};

/// Runs the program on its words, of which the first is its own name. The word `help` alone asks for help. Fails with the reason for which
/// the program ends early.
pub fn run_line<R>(rt: &R, words: &[&str]) -> Result<(), Exit>
where
    R: Files
        + Clock
        + Print
        + Eprint
        + AllocGlobal
        + Net<Listener = TcpListener, Stream = TcpStream>,
{
    if words.len() == 2 && words[1] == "help" {
        run_form(rt, &[words[0], "--help"])
    } else {
        run_form(rt, words)
    }
}

/// Runs the program on words of one of its forms.
fn run_form<R>(rt: &R, words: &[&str]) -> Result<(), Exit>
where
    R: Files
        + Clock
        + Print
        + Eprint
        + AllocGlobal
        + Net<Listener = TcpListener, Stream = TcpStream>,
{
    match start_line(rt.alloc(), words)? {
        StartLine::Full(line) => run_full(rt, &line),
        StartLine::Quick(line) => quick::run(rt, &line),
    }
}

/// Runs the program on a line of the full form.
fn run_full<R>(rt: &R, line: &ServeLine<'_>) -> Result<(), Exit>
where
    R: Files
        + Clock
        + Print
        + Eprint
        + AllocGlobal
        + Net<Listener = TcpListener, Stream = TcpStream>,
{
    let mut server = server_of(rt, line)?;
    let limits = limits_of(rt, line.connections, line.at_once, line.patience)?;
    let verify = millis_of(verify_of(rt, line.verify)?);
    let additions = additions_of(rt, line.allow_origin, line.announce_last)?;
    let mut files = files_of(rt, &line.files, verify)?;
    let mut log = AccessLog {
        rt,
        is_kept: line.log,
    };
    let served = serve(
        &mut log,
        line.listen,
        &mut server,
        &mut files,
        limits,
        additions,
    );
    ended(&log, served)
}

/// Returns the value of `outcome`. Where it is an error, which ends the program, logs it and fails with its fault.
pub(crate) fn ended<R: Clock + Eprint + AllocGlobal, T: Drop>(
    log: &AccessLog<'_, R>,
    outcome: Result<T, ServeFilesError<'_>>,
) -> Result<T, Exit>
    ensures { IfOk outcome.entry (λ value. result ≡ Ok value) }
{
    match outcome {
        Ok(value) => Ok(value),
        Err(error) => {
            log.print(&error);
            Err(exit_of(log.rt, error)?)
        }
    }
}

/// Publishes the files, listens, and serves them.
fn serve<'a, R>(
    log: &mut AccessLog<'_, R>,
    place: &str,
    server: &mut Server,
    files: &mut [Watched<'a>],
    limits: Limits,
    additions: Additions<'_>,
) -> Result<(), ServeFilesError<'a>>
where
    R: Files
        + Clock
        + Print
        + Eprint
        + AllocGlobal
        + Net<Listener = TcpListener, Stream = TcpStream>,
{
    publish_all(log, server, files)?;
    let listener = listen(log, place)?;
    serve_connections(log, server, files, listener, limits, additions)
}

/// Makes a server with the epoch of the words, without publications. Fails with `NotANumber`, or with `Memory`.
fn server_of<R: AllocGlobal>(rt: &R, line: &ServeLine<'_>) -> Result<Server, Exit>
    ensures epoch { IfOk result (λ server. number_32 line.now.epoch.now ≡ Some server.epoch) }
    ensures empty { IfOk result (λ server. (server.count ≡ 0) × (server.catalogue ≡ [])) }
    ensures err { OnErr result (number_32 line.now.epoch.now ≡ None) }
    ensures told { IfErr result (Names line.now.epoch.now) }
    ensures kinds { IfErr result IsOfNumber }
{
    let epoch = number(rt, "--epoch", line.epoch, 0, u32::MAX)?;
    Ok(Server::new(rt.alloc(), epoch))
}

/// Returns the limits that the words set for connections. Without words they are 256 connections at once, and a patience of 60 seconds.
pub(crate) fn limits_of<R: AllocGlobal>(
    rt: &R,
    connections: &str,
    at_once: Option<&str>,
    patience: Option<&str>,
) -> Result<Limits, Exit>
    ensures connections { IfOk result (λ limits. connections_number connections.now ≡ Some limits.connections) }
    ensures at_once { IfOk result (λ limits. at_once_number (option_copied at_once.entry)
        ≡ Some (non_zero_usize_get limits.at_once)) }
    // In milliseconds.
    ensures patience { IfOk result (λ limits. option_map (λ seconds. seconds * 1000) (patience_number (option_copied patience.entry))
        ≡ Some limits.patience) }
    ensures err { OnErr result (HasNoLimit connections.now (option_copied at_once.entry) (option_copied patience.entry)) }
    ensures kinds { IfErr result IsOfNumber }
{
    let connections = number(rt, "--connections", connections, 1, u32::MAX)?;
    let at_once = number_or(rt, "--at-once", at_once, 1, 10_000, 256)?;
    let patience = number_or(rt, "--patience", patience, 1, 3_600, 60)?;
    Ok(Limits {
        connections,
        at_once: NonZeroUsize::new(at_once as usize).unwrap_or(NonZeroUsize::MIN),
        patience: u64::from(patience) * 1_000,
    })
}

/// Returns the least number of milliseconds between two comparisons of the bytes of a file that seems unchanged, or `None` for 0 seconds.
pub(crate) fn millis_of(seconds: u32) -> Option<u64>
    ensures { result ≡ (if seconds == 0 then None else Some (seconds * 1000)) }
{
    if seconds == 0 {
        None
    } else {
        Some(u64::from(seconds) * 1000)
    }
}

/// Returns the least number of seconds between two comparisons of the bytes of files that seem unchanged, or 0 where there are none.
pub(crate) fn verify_of<R: AllocGlobal>(rt: &R, word: Option<&str>) -> Result<u32, Exit>
    ensures ok { IfOk result (λ seconds. verify_number (option_copied word.entry) ≡ Some seconds) }
    ensures err { OnErr result (verify_number (option_copied word.entry) ≡ None) }
    ensures kinds { IfErr result IsOfNumber }
{
    number_or(rt, "--verify", word, 1, 86_400, 0)
}

/// Makes the file that a word names as `NAME=PATH`, cut at the first `=`. Fails with `NotAFile`, or with `Memory`.
fn file_of<'a, R: AllocGlobal>(
    rt: &R,
    word: &'a str,
    verify: Option<u64>,
) -> Result<Watched<'a>, Exit>
    ensures ok { IfOk result (IsFile verify word.entry.now) }
    ensures err { OnErr result (IsNoFile word.entry.now) }
    ensures told { IfErr result (NamesFile word.entry.now) }
    ensures kinds { IfErr result IsOfFiles }
{
    match word.split_once('=') {
        Some((name, path)) => Ok(Watched::verified(name, path, verify)),
        None => Err(Exit::NotAFile(String::from_str(rt.alloc(), word)?)),
    }
}

/// Makes the files that the words name.
fn files_of<'a, R: AllocGlobal>(
    rt: &R,
    words: &[&'a str],
    verify: Option<u64>,
) -> Result<Vec<Watched<'a>>, Exit>
    ensures ok { IfOk result (λ files. AreFiles verify words.now files.items) }
    ensures told { IfErr result (NamesOneOf words.now) }
    ensures kinds { IfErr result IsOfFiles }
{
    let mut files = Vec::new(rt.alloc());
    for word in words {
        add_file(&mut files, file_of(rt, word, verify)?)?;
    }
    Ok(files)
}

/// Appends a file.
fn add_file<'a>(files: &mut Vec<Watched<'a>>, file: Watched<'a>) -> Result<(), AllocError>
    ensures { OnOk result (files.new.items ≡ files.old.items ++ file.entry ∷ []) }
{
    Ok(files.push(file)?)
}

/// Returns the fault for a file that isn't published.
fn exit_of_file<R: AllocGlobal>(rt: &R, file: NotPublished<'_>) -> Result<Exit, AllocError> {
    match file.why {
        WatchError::Refused(PublishError::Memory) => Ok(Exit::Memory),
        WatchError::Refused(refusal) => {
            Ok(Exit::Refused(refusal, String::from_str(rt.alloc(), file.name)?))
        }
        WatchError::CantRead(error) if error.kind() == ErrorKind::OutOfMemory => Ok(Exit::Memory),
        WatchError::CantRead(_) | WatchError::NotAFile => {
            Ok(Exit::CantRead(String::from_str(rt.alloc(), file.path)?))
        }
    }
}

/// Returns the fault for what ends the program.
fn exit_of<R: AllocGlobal>(rt: &R, error: ServeFilesError<'_>) -> Result<Exit, AllocError> {
    match error {
        ServeFilesError::NotPublished(file) => exit_of_file(rt, file),
        ServeFilesError::CantListen(error)
        | ServeFilesError::CantAccept(error)
        | ServeFilesError::CantWait(error)
            if error.kind() == ErrorKind::OutOfMemory => { Ok(Exit::Memory) }
        ServeFilesError::CantListen(_) => Ok(Exit::CantListen),
        ServeFilesError::CantAccept(_) => Ok(Exit::CantAccept),
        ServeFilesError::CantWait(_) => Ok(Exit::CantWait),
        ServeFilesError::CantWrite(error) => Ok(Exit::from(error)),
    }
}
