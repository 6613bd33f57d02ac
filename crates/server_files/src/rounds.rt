//! Serving: round by round, as connections come and are ready.
ghost use Rattle.std.specs.Prelude.{◌≡◌, ◌⊎◌, ◌<◌, ℕ, IfErr, IsErr, IsErrAnd, OnErr, OnOk, max};
ghost use Rattle.cog_server.specs.Service.{added_of};
ghost use Rattle.server_files.specs.Publishing.{AreLookedAt, ArePublishedAgain, ArePublishedAnew, KeepsOthersThan, names, settings};
ghost use Rattle.server_files.specs.Refused.{IsOfSockets};
ghost use Rattle.server_files.specs.Rounds.{BrokeOff, IsOfListening, IsOver, KeepsLimits, ServedWithin, WentRound};
ghost use Rattle.server_sockets.specs.Going.{AllWentOnOrStart};
ghost use Rattle.server_sockets.specs.Slots.{accepted_of, slots_of};

use crate::access_log::AccessLog;
use crate::clock::moment;
use crate::error::ServeFilesError;
use crate::lines::Listening;
use crate::publishing::look_again;
use cog_server::{Additions, Server, Service};
use disk_files::Watched;
use server_sockets::{Limits, Serving};
use std::io;
use std::io::ErrorKind;
use std::net::{Net, TcpListener, TcpStream, ToSocketAddrs};
use std::rt::{Clock, Files};

/// Listens at the first address of `place` that can be bound. The system sets the length of the listen backlog.
fn bind<R: Net>(rt: &R, place: &str) -> io::Result<TcpListener> {
    let mut last = io::Error::from(ErrorKind::AddrNotAvailable);
    for address in place.to_socket_addrs(rt)? {
        match mio::net::TcpListener::bind(rt, address) {
            Ok(listener) => return Ok(TcpListener::from(listener)),
            Err(error) => last = error,
        }
    }
    Err(last)
}

/// Listens at `place`, which is `HOST:PORT`, and prints a line of it. Logs the address that the system gave.
pub fn listen<R>(
    log: &AccessLog<'_, R>,
    place: &str,
) -> Result<TcpListener, ServeFilesError<'static>>
where
    R: Clock + Print + Eprint + Net<Listener = TcpListener, Stream = TcpStream>,
{
    let listener = match bind(log.rt, place) {
        Ok(listener) => listener,
        Err(error) => return Err(ServeFilesError::CantListen(error)),
    };
    log.written(println!(log.rt; "listening {place}"))?;
    if let Ok(address) = listener.local_addr() {
        log.print(Listening(address));
    }
    Ok(listener)
}

/// Prints a line for each connection that has ended, from line `printed + 1` on, and returns how many lines were printed so far. A line
/// that can't be written is lost, and the next one is tried.
fn print_served<R: Print>(rt: &R, printed: u32, ended: u32) -> u32
    ensures { result ≡ max printed ended }
{
    for k in printed..ended {
        let _ = println!(rt; "served {}", k + 1);
    }
    printed.max(ended)
}

/// Serves each connection that is ready, accepts new ones, and looks at the files where one came. Serves first, so that each connection
/// that the last wait reported has its turn before an idle one is closed.
#[tactic(auto, using(crate::proofs::RoundLemmas::went_or_started, crate::proofs::RoundLemmas::limits_kept, crate::proofs::PublishingLemmas::stays_anew))]
fn round<R: Files + Clock + Print + Eprint + AllocGlobal>(
    log: &mut AccessLog<'_, R>,
    server: &mut Server,
    files: &mut [Watched<'_>],
    serving: &mut Serving,
    additions: Additions<'_>,
) -> Result<(), ServeFilesError<'static>>
    // Each connection in the table went on from one that was there, or is new, as of some moment. Each answer is from what was published
    // before, with what is added.
    ensures went { (now : ℕ) × AllWentOnOrStart (record { catalogue = server.old.catalogue; added = added_of additions.entry }) now
        (slots_of serving.old) (slots_of serving.new) }
    ensures limits { KeepsLimits serving.old serving.new }
    // Files are published anew in their order, each with other bytes than before, and none where no connection was accepted.
    ensures anew { ArePublishedAnew R.File.remaining (names files.old) server.old server.new }
    ensures idle { accepted_of serving.new ≡ accepted_of serving.old → server.new ≡ server.old }
    ensures others { KeepsOthersThan (names files.old) server.old server.new }
    ensures names { names files.new ≡ names files.old }
    ensures settings { settings files.new ≡ settings files.old }
    // Where a connection was accepted, the files are looked at, unless accepting failed. Where none was, each file stays as it is.
    ensures looked { OnOk result (accepted_of serving.old < accepted_of serving.new → AreLookedAt files.old files.new) }
    ensures unlooked { accepted_of serving.new ≡ accepted_of serving.old → files.new ≡ files.old }
    // After an error each file stays as it is. An error is of sockets.
    ensures err { OnErr result (files.new ≡ files.old) }
    ensures sockets { IfErr result IsOfSockets }
{
    let now = moment(log.rt);
    let service = Service::new(server, additions);
    serving.turns(&service, now, log);
    if serving.accept(now)? > 0 {
        look_again(log, server, files);
    }
    Ok(())
}

/// Serves in rounds until all connections were accepted, and each has ended. Fails with `CantWait` after 2^64 - 1 rounds.
fn serve_rounds<R>(
    log: &mut AccessLog<'_, R>,
    server: &mut Server,
    files: &mut [Watched<'_>],
    serving: &mut Serving,
    additions: Additions<'_>,
) -> Result<(), ServeFilesError<'static>>
where
    R: Files + Clock + Print + Eprint + AllocGlobal,
    ensures over { OnOk result (IsOver serving.new) }
    // Round follows round, each with these additions. Files are looked at where a connection is accepted. Between two rounds no connection
    // changes. After an error, the last round may have broken off.
    ensures went { WentRound R.File.remaining files.old (added_of additions.entry) server.old serving.old server.new serving.new files.new
        ⊎ (IsErr result
        × BrokeOff R.File.remaining files.old (added_of additions.entry) server.old serving.old server.new serving.new files.new) }
    ensures limits { KeepsLimits serving.old serving.new }
    // What is published meanwhile is published as files are looked at, once after the other.
    ensures anew { ArePublishedAgain R.File.remaining (names files.old) server.old server.new }
    ensures others { KeepsOthersThan (names files.old) server.old server.new }
    ensures names { names files.new ≡ names files.old }
    ensures settings { settings files.new ≡ settings files.old }
    // An error is of sockets.
    ensures sockets { IfErr result IsOfSockets }
{
    let mut printed = 0;
    for _ in 0..u64::MAX {
        round(log, server, files, serving, additions)?;
        printed = print_served(log.rt, printed, serving.ended());
        if serving.is_over() {
            return Ok(());
        }
        if let Err(error) = serving.wait(moment(log.rt)) {
            return Err(ServeFilesError::CantWait(error));
        }
    }
    Err(ServeFilesError::CantWait(io::Error::from(ErrorKind::Other)))
}

/// Serves connections within `limits`, until each has ended. Each answer has what `additions` say. Looks at the files when connections
/// came, once for all that came together.
pub fn serve_connections<R>(
    log: &mut AccessLog<'_, R>,
    server: &mut Server,
    files: &mut [Watched<'_>],
    listener: TcpListener,
    limits: Limits,
    additions: Additions<'_>,
) -> Result<(), ServeFilesError<'static>>
where
    R: Files + Clock + Print + Eprint + AllocGlobal + Net,
    // A new server with these limits serves round after round, each with these additions. In each the files are looked at where a
    // connection was accepted, unless accepting failed then. Or the address can't be listened at.
    ensures went { (IsErrAnd result IsOfListening × (server.new ≡ server.old) × (files.new ≡ files.old))
        ⊎ ServedWithin R.File.remaining files.old (added_of additions.entry) limits server.old server.new files.new result }
    // What is published meanwhile is published as files are looked at, once after the other.
    ensures anew { ArePublishedAgain R.File.remaining (names files.old) server.old server.new }
    ensures others { KeepsOthersThan (names files.old) server.old server.new }
    ensures names { names files.new ≡ names files.old }
    ensures settings { settings files.new ≡ settings files.old }
    // An error is of sockets.
    ensures sockets { IfErr result IsOfSockets }
{
    let mut serving = match Serving::new(log.rt, listener, limits) {
        Ok(serving) => serving,
        Err(error) => return Err(ServeFilesError::CantListen(error)),
    };
    serve_rounds(log, server, files, &mut serving, additions)
}
