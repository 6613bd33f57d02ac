//! The log of a server, on standard error.
use crate::clock::seconds;
use crate::error::ServeFilesError;
use crate::lines::{AnswerLine, LogClient};
use crate::times::LogTime;
use server_sockets::{AnswerLog, LoggedAnswer};
use std::fmt::Display;
use std::io;
use std::net::SocketAddr;
use std::rt::Clock;

/// The log of a server, on standard error. It has a line for each answer, and for each file that isn't published. Each line begins with
/// the time and the client's address. A line that can't be written is lost, and the next one is tried.
#[derive(Drop)]
pub struct AccessLog<'r, R> {
    pub rt: &'r R,
    /// Whether lines are written.
    pub is_kept: bool,
}

impl<R: Eprint + Clock> AccessLog<'_, R> {
    /// Prints `entry`, which concerns no client, as a line on standard error, where a log is kept.
    pub fn print<D: Display + Drop>(&self, entry: D) {
        self.print_of(None, entry);
    }

    /// Prints the time, the address of `client` and `entry` as a line on standard error, where a log is kept.
    fn print_of<D: Display + Drop>(&self, client: Option<SocketAddr>, entry: D) {
        if self.is_kept {
            let now = LogTime(seconds(self.rt));
            let client = LogClient(client);
            let _ = eprintln!(self.rt; "{now} {client} cogserve: {entry}");
        }
    }
}

impl<R: Eprint> AccessLog<'_, R> {
    ghost use Rattle.std.specs.Prelude.{◌≡◌, IfErr, IsOk, IsTrue, false, Err};
    ghost use Rattle.server_files.specs.declared.error.ServeFilesError.TheVariants.{CantWrite};

    /// Fails with `CantWrite` where standard output didn't take a line; `line` is the outcome of writing it. Where a log is kept, the line
    /// is lost instead.
    pub fn written(&self, line: io::Result<()>) -> Result<(), ServeFilesError<'static>>
        ensures kept { IsTrue self.now.is_kept → IsOk result }
        ensures written { IsOk line → IsOk result }
        ensures lost { IfErr line (λ error. self.now.is_kept ≡ false → result ≡ Err (CantWrite error)) }
    {
        match line {
            Err(error) if !self.is_kept => Err(ServeFilesError::CantWrite(error)),
            _ => Ok(()),
        }
    }
}

impl<R: Eprint + Clock> AnswerLog for AccessLog<'_, R> {
    fn is_on(&self) -> bool {
        self.is_kept
    }

    fn note_answer(&mut self, message: Option<&[u8]>, answer: LoggedAnswer) {
        self.print_of(Some(answer.client), AnswerLine { message, answer });
    }
}
