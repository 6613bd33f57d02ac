//! How bytes are read of a connection.
ghost use Rattle.std.specs.Prelude.{◌≤◌, IfOk, length};

use cog_client::Lost;
use std::io::{ErrorKind, Read};
use std::net::TcpStream;

/// Reads what is there, or waits for it. Returns 0 at the end of the stream.
pub(crate) fn read_some(stream: &mut TcpStream, out: &mut [u8]) -> Result<usize, Lost>
    ensures { IfOk result (λ n. n ≤ length out.new) }
{
    for _ in 0..u64::MAX {
        match stream.read(out) {
            Err(error) if error.kind() == ErrorKind::Interrupted => {}
            read => return read.map_err(|_| Lost),
        }
    }
    Err(Lost)
}

/// Returns whether the stream is open and brings nothing now.
pub(crate) fn is_quiet(stream: &mut TcpStream) -> bool {
    if stream.set_nonblocking(true).is_err() {
        return false;
    }
    let read = stream.read(&mut [0]);
    let waits = matches!(read, Err(error) if error.kind() == ErrorKind::WouldBlock);
    waits && stream.set_nonblocking(false).is_ok()
}
