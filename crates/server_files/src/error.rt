//! Why files aren't served, or not any longer.
use cog_server::PublishError;
use disk_files::{WatchError, Watched};
use server_sockets::AcceptError;
use std::{fmt, io};
use thiserror::Error;

/// A file of the disk that isn't published, and why.
#[derive(Debug, Drop)]
pub struct NotPublished<'a> {
    pub name: &'a str,
    pub path: &'a str,
    pub why: WatchError,
}

impl<'a> NotPublished<'a> {
    ghost use Rattle.std.specs.Prelude.{◌≡◌};

    /// Makes it from the name and the path of `file`.
    pub fn new(file: &Watched<'a>, why: WatchError) -> NotPublished<'a>
        ensures name { result.name ≡ file.now.name }
        ensures path { result.path ≡ file.now.path }
        ensures why { result.why ≡ why }
    {
        NotPublished {
            name: file.name,
            path: file.path,
            why,
        }
    }
}

impl fmt::Display for NotPublished<'_> {
    fn fmt<W: fmt::Write>(&self, f: &mut fmt::Formatter<W>) -> fmt::Result {
        let (name, path) = (self.name, self.path);
        write!(f, "{name} isn't taken: ")?;
        match &self.why {
            WatchError::CantRead(error) => write!(f, "can't read {path}: {error}"),
            WatchError::NotAFile => write!(f, "{path} is no file"),
            WatchError::Refused(PublishError::Memory) => f.write_str("out of memory"),
            WatchError::Refused(refusal) => { write!(f, "refused {}: {refusal}", refusal.number()) }
        }
    }
}

/// Why files aren't served, or not any longer.
#[derive(Debug, Drop, Error)]
pub enum ServeFilesError<'a> {
    #[error("{0}")]
    NotPublished(NotPublished<'a>),
    /// The address can't be bound.
    #[error("can't listen: {0}")]
    CantListen(io::Error),
    /// No connection can be accepted any more.
    #[error("can't accept: {0}")]
    CantAccept(io::Error),
    /// No wait for connections is possible any more.
    #[error("can't wait: {0}")]
    CantWait(io::Error),
    /// Standard output can't be written.
    #[error("can't write: {0}")]
    CantWrite(io::Error),
}

impl From<AcceptError> for ServeFilesError<'_> {
    ghost use Rattle.std.specs.Prelude.{◌≡◌};
    ghost use Rattle.server_files.specs.Refused.{error_of};

    ghost from_gives = { λ refused error. error ≡ error_of refused };

    fn from(error: AcceptError) -> Self {
        match error {
            AcceptError::Accept(error) => ServeFilesError::CantAccept(error),
            AcceptError::Ask(error) => ServeFilesError::CantWait(error),
        }
    }
}
