//! Files of the disk that are read as if a server had them.
ghost use Rattle.std.specs.Prelude.{◌≡◌, [], IfOk, codes};
ghost use Rattle.programs.specs.LocalFiles.{IsServerOfFile};
ghost use Rattle.transports.specs.Transports.{rest_of, served_name, served_state, source_of as source_within};

use crate::exit::{Exit, NotRead};
use cog_server::{PublishError, Server};
use disk_files::{FileError, read_file};
use std::alloc::{AllocError, Global};
use std::rt::Files;
use std::{fs, io};
use transports::{InMemory, InPieces, server_of_one};

/// The server that stands for the disk, as a client names it.
pub const SERVER: &str = "disk";

/// The name of the one file of that server.
pub const NAME: &str = "file";

/// The epoch of that server. Each reading has a server of its own, so the first epoch will do.
const EPOCH: u32 = 1;

/// Returns whether a path leads to a plain file.
pub fn is_plain_file<R: Files>(rt: &R, path: &str) -> bool {
    match fs::metadata(rt, path) {
        Ok(metadata) => metadata.is_file(),
        Err(_) => false,
    }
}

/// Returns whether a word has the form of a server, `HOST:PORT`, and not that of a path or a URL.
fn is_server(word: &str) -> bool {
    match word.rsplit_once(':') {
        Some((host, port)) => {
            !host.contains('/')
                && !port.is_empty()
                && port.bytes().all(|byte| byte.is_ascii_digit())
        }
        None => false,
    }
}

/// Returns why a word that isn't the path of a plain file names no file to read. Returns `None` where it may be a server, so that a word is
/// missing.
fn why_unread<R: Files>(rt: &R, word: &str) -> Option<NotRead> {
    if is_server(word) {
        return None;
    }
    if word.contains("://") || word.starts_with("/vsi") {
        return Some(NotRead::Scheme);
    }
    match fs::metadata(rt, word) {
        Ok(_) => Some(NotRead::NotPlain),
        Err(error) => Some(NotRead::Io(error)),
    }
}

/// Fails with `NamesNoFile` where a word, which isn't the path of a plain file, can't be a server, either.
pub fn check_server<R: Files + AllocGlobal>(rt: &R, word: &str) -> Result<(), Exit> {
    match why_unread(rt, word) {
        Some(why) => Err(Exit::NamesNoFile(String::from_str(rt.alloc(), word)?, why)),
        None => Ok(()),
    }
}

/// Returns the fault for a path whose file the server refuses.
fn refused<R: AllocGlobal>(rt: &R, refusal: PublishError, path: &str) -> Result<Exit, AllocError> {
    match refusal {
        PublishError::Memory => Ok(Exit::Memory),
        refusal => {
            let path = String::from_str(rt.alloc(), path)?;
            Ok(Exit::CantReadBy(path, NotRead::Refused(refusal)))
        }
    }
}

/// Returns the fault for a path whose file isn't read.
fn unread<R: AllocGlobal>(rt: &R, error: FileError, path: &str) -> Result<Exit, AllocError> {
    let why = match error {
        FileError::Io(error) if error.kind() == io::ErrorKind::OutOfMemory => {
            return Ok(Exit::Memory);
        }
        FileError::Io(error) => NotRead::Io(error),
        FileError::Written => NotRead::Written,
    };
    Ok(Exit::CantReadBy(String::from_str(rt.alloc(), path)?, why))
}

/// Makes a server in memory that has the file at a path, as it is now. Fails where the file can't be read or published, or where no memory
/// is left.
pub fn server_of_file<R: Files + AllocGlobal>(rt: &R, path: &str) -> Result<Server, Exit>
    // Its one file is what a file gave that was opened, if that states which bytes it gives.
    ensures { IfOk result (IsServerOfFile R.File.remaining 1 (codes "file")) }
{
    let bytes = match read_file(rt, path) {
        Ok(bytes) => bytes,
        Err(error) => return Err(unread(rt, error, path)?),
    };
    match server_of_one(rt.alloc(), EPOCH, NAME.as_bytes(), bytes) {
        Ok(server) => Ok(server),
        Err(refusal) => Err(refused(rt, refusal, path)?),
    }
}

/// Makes a source of that server's answers.
pub fn source_of<'s>(alloc: Global, server: &'s Server) -> InPieces<'s, InMemory<'s>>
    ensures server { served_state (source_within result) ≡ server.now }
    ensures name { served_name (source_within result) ≡ codes "file" }
    ensures rest { rest_of result ≡ [] }
{
    InPieces::new(alloc, InMemory::new(server, NAME.as_bytes()), &[])
}
