//! `cogserve` with files alone: what its words leave out has a default, and a file has its own name.
ghost use Rattle.std.specs.Prelude.{◌≡◌, ◌++◌, ◌∷◌, ◌/◌, [], IfErr, IfOk, IfSome, IsSomeAnd, None, Ok, OnErr, OnOk, min};
ghost use Rattle.std.specs.Duration.{as_nanos};
ghost use Rattle.std.specs.Option.{option_copied};
ghost use Rattle.command_lines.specs.NamedFiles.{HaveOwnNames};
ghost use Rattle.programs.specs.NamedFiles.{AreWatched, IsWatched, NamesBoth, NamesTwo};
ghost use Rattle.programs.specs.Number.{IsOfNumber, Names};
ghost use Rattle.programs.specs.Words.{IsGiven, number_32};
ghost use Rattle.programs.specs.declared.exit.Exit.TheVariants.{NoClock};

use crate::cogserve::{ended, limits_of, millis_of, verify_of};
use crate::exit::{Exit, NotRead};
use crate::number::{number, with_range};
use crate::origin::additions_of;
use cog_server::{Additions, Server};
use command_lines::{NamedFile, QuickLine, named_files, two_of_one_name};
use disk_files::{WatchError, Watched};
use server_files::{AccessLog, ServeFilesError, listen, publish_all, serve_connections};
use server_sockets::Limits;
use std::alloc::{AllocError, Global};
use std::io;
use std::net::{Net, TcpListener, TcpStream};
use std::rt::{Clock, Files};
use std::time::Duration;

/// Where the server listens, unless a word says it.
const PLACE: &str = "127.0.0.1:8080";

/// The number of connections that it serves, unless a word says it.
const CONNECTIONS: &str = "4294967295";

/// Runs the program on a line. It listens before it takes the time for its epoch. So the epoch isn't less than that of a server which had
/// the port before. Fails with the reason for which the program ends early.
pub fn run<R>(rt: &R, line: &QuickLine<'_>) -> Result<(), Exit>
where
    R: Files
        + Clock
        + Print
        + Eprint
        + AllocGlobal
        + Net<Listener = TcpListener, Stream = TcpStream>,
{
    let given = with_range(given_epoch(rt, line.epoch))?;
    let connections = line.connections.unwrap_or(CONNECTIONS);
    let limits = with_range(limits_of(rt, connections, line.at_once, line.patience))?;
    let verify = millis_of(with_range(verify_of(rt, line.verify))?);
    let additions = additions_of(rt, line.allow_origin, true)?;
    let named = named_files(rt.alloc(), &line.files)?;
    check_names(rt.alloc(), &named)?;
    let mut files = watched_files(rt.alloc(), &named, verify)?;
    let mut log = AccessLog {
        rt,
        is_kept: line.log,
    };
    let place = line.listen.unwrap_or(PLACE);
    let listening = listen(&log, place);
    let listener = with_reason(&log, place, listening)?;
    let mut server = Server::new(rt.alloc(), epoch_of(given, rt.since_1970())?);
    let served = serve(
        &mut log,
        &mut server,
        &mut files,
        listener,
        limits,
        additions,
    );
    with_reason(&log, place, served)
}

/// Returns why the file isn't read that `error` is about, or `None` where it is about none, or the server refuses the file.
fn read_reason(error: &ServeFilesError<'_>) -> Option<NotRead> {
    match error {
        ServeFilesError::NotPublished(file) => match &file.why {
            WatchError::CantRead(error) => Some(NotRead::Io(*error)),
            WatchError::NotAFile => Some(NotRead::NotPlain),
            WatchError::Refused(_) => None,
        },
        _ => None,
    }
}

/// Returns why the server can't listen, or `None` for another error.
fn listen_reason(error: &ServeFilesError<'_>) -> Option<io::Error> {
    match error {
        ServeFilesError::CantListen(error) => Some(*error),
        _ => None,
    }
}

/// Returns the value of `outcome`. Where it is an error, which ends the program, logs it and fails with its fault. The fault says why a
/// file isn't read or isn't published, and why the server can't listen at `place`.
fn with_reason<R: Clock + Eprint + AllocGlobal, T: Drop>(
    log: &AccessLog<'_, R>,
    place: &str,
    outcome: Result<T, ServeFilesError<'_>>,
) -> Result<T, Exit>
    ensures { IfOk outcome.entry (λ value. result ≡ Ok value) }
{
    let (read, listened) = match &outcome {
        Ok(_) => (None, None),
        Err(error) => (read_reason(error), listen_reason(error)),
    };
    match ended(log, outcome) {
        Err(Exit::CantRead(path)) => match read {
            Some(why) => Err(Exit::CantReadBy(path, why)),
            None => Err(Exit::CantRead(path)),
        },
        Err(Exit::Refused(refusal, name)) => {
            Err(Exit::CantReadBy(name, NotRead::Refused(refusal)))
        }
        Err(Exit::CantListen) => match listened {
            Some(error) => {
                let place = String::from_str(log.rt.alloc(), place)?;
                Err(Exit::CantListenAt(place, error))
            }
            None => Err(Exit::CantListen),
        },
        ended => ended,
    }
}

/// Publishes the files, prints their URLs, and serves them.
fn serve<'a, R>(
    log: &mut AccessLog<'_, R>,
    server: &mut Server,
    files: &mut [Watched<'a>],
    listener: TcpListener,
    limits: Limits,
    additions: Additions<'_>,
) -> Result<(), ServeFilesError<'a>>
where
    R: Files
        + Clock
        + Print
        + Eprint
        + AllocGlobal
        + Net<Listener = TcpListener, Stream = TcpStream>,
{
    publish_all(log, server, files)?;
    print_urls(log, &listener, files)?;
    serve_connections(log, server, files, listener, limits, additions)
}

/// Prints the URL of each file on a line of its own. Prints nothing where the system doesn't give the address at which the server listens.
fn print_urls<R: Print + Eprint>(
    log: &AccessLog<'_, R>,
    listener: &TcpListener,
    files: &[Watched<'_>],
) -> Result<(), ServeFilesError<'static>> {
    let Ok(address) = listener.local_addr() else {
        return Ok(());
    };
    for file in files {
        log.written(println!(log.rt; "http://{address}/{}", file.name))?;
    }
    Ok(())
}

/// Returns the epoch that a word gives, or `None` without a word. Fails with `NotANumber`, or with `Memory`.
fn given_epoch<R: AllocGlobal>(rt: &R, word: Option<&str>) -> Result<Option<u32>, Exit>
    ensures ok { IfOk result (IsGiven (option_copied word.entry)) }
    ensures err { OnErr result (IsSomeAnd (option_copied word.entry) (λ told. number_32 told ≡ None)) }
    ensures told { IfErr result (λ fault. IfSome (option_copied word.entry) (λ told. Names told fault)) }
    ensures kinds { IfErr result IsOfNumber }
{
    match word {
        Some(word) => Ok(Some(number(rt, "--epoch", word, 0, u32::MAX)?)),
        None => Ok(None),
    }
}

/// Returns the epoch that is given, or else the whole seconds of `now`, the time since 1970. Fails with `NoClock` where that is needed and
/// the clock failed.
fn epoch_of(given: Option<u32>, now: io::Result<Duration>) -> Result<u32, Exit>
    ensures given { IfSome given (λ epoch. result ≡ Ok epoch) }
    ensures seconds { given ≡ None → IfOk now (λ since. result ≡ Ok (min (as_nanos since / 1000000000) 4294967295)) }
    ensures err { IfErr result (λ fault. fault ≡ NoClock) }
{
    match (given, now) {
        (Some(epoch), _) => Ok(epoch),
        (None, Ok(since)) => Ok(since.as_secs().min(u64::from(u32::MAX)) as u32),
        (None, Err(_)) => Err(Exit::NoClock),
    }
}

/// Fails with `OneName` where two files have one name.
fn check_names(alloc: Global, files: &[NamedFile<'_>]) -> Result<(), Exit>
    ensures ok { OnOk result (HaveOwnNames files.now) }
    ensures told { IfErr result (NamesTwo files.now) }
{
    match two_of_one_name(files) {
        Some((first, second)) => Err(one_name(alloc, first, second)?),
        None => Ok(()),
    }
}

/// Returns the fault for two files that have one name.
fn one_name(
    alloc: Global,
    first: &NamedFile<'_>,
    second: &NamedFile<'_>,
) -> Result<Exit, AllocError>
    ensures { IfOk result (NamesBoth first.now second.now) }
{
    Ok(Exit::OneName(
        String::from_str(alloc, second.name.as_str())?,
        String::from_str(alloc, first.path)?,
        String::from_str(alloc, second.path)?,
    ))
}

/// Makes the watched file of a named one. `verify` is in milliseconds.
fn watched_of<'a>(file: &'a NamedFile<'a>, verify: Option<u64>) -> Watched<'a>
    ensures { IsWatched verify file.entry.now result }
{
    Watched::verified(file.name.as_str(), file.path, verify)
}

/// Makes the watched files of named ones.
fn watched_files<'a>(
    alloc: Global,
    files: &'a [NamedFile<'a>],
    verify: Option<u64>,
) -> Result<Vec<Watched<'a>>, AllocError>
    ensures { IfOk result (λ watched. AreWatched verify files.entry.now watched.items) }
{
    let mut watched = Vec::new(alloc);
    for file in files {
        add_watched(&mut watched, watched_of(file, verify))?;
    }
    Ok(watched)
}

/// Appends a watched file.
fn add_watched<'a>(watched: &mut Vec<Watched<'a>>, file: Watched<'a>) -> Result<(), AllocError>
    ensures { OnOk result (watched.new.items ≡ watched.old.items ++ file.entry ∷ []) }
{
    Ok(watched.push(file)?)
}
