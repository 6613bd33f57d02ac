//! One step of the loop over a connection: it reads what comes, or writes what waits.
ghost use Rattle.std.specs.Prelude.{◌≡◌, ◌≤◌, ◌<◌, ◌++◌, false, true, [], IfOk, IfErr, OnOk, length, max, take};
ghost use Rattle.std.specs.Io.KnownBytes.{append_known};
ghost use Rattle.http_fields.specs.declared.limits.TheConstants.{MESSAGE_LIMIT};
ghost use Rattle.cog_server.specs.Received.{Receives};
ghost use Rattle.cog_server.specs.Sent.{IsBroken, IsWritten, Writes};
ghost use Rattle.cog_server.specs.Status.{after_write, room_of};

use crate::connection::Connection;
use crate::inlet::{Failed, Inlet, Outlet};
use crate::served::ServeError;
use http_range::{MESSAGE_LIMIT, Memory};
use std::alloc::Global;

/// The most bytes of the write that has the head of an answer, unless the head alone is longer.
const FIRST_WRITE: usize = 16384;

/// The buffer for bytes that are read, and the one in which the first write of each answer is put together.
#[derive(Drop)]
pub struct Buffers {
    pub room: Vec<u8>,
    pub text: Vec<u8>,
}

impl Buffers {
    /// Makes the buffers. Fails with `Memory` alone.
    pub fn new(alloc: Global) -> Result<Self, Memory>
        ensures { IfOk result (λ b. MESSAGE_LIMIT ≤ length b.room.items) }
    {
        Ok(Buffers {
            room: vec![in alloc; 0u8; MESSAGE_LIMIT]?,
            text: Vec::with_capacity(alloc, FIRST_WRITE)?,
        })
    }
}

/// Writes all of `bytes`. Fails with `Write` where a write fails, or takes nothing.
fn send<W: Outlet>(w: &mut W, bytes: &[u8]) -> Result<(), ServeError>
    requires { W.has_failed w.old ≡ false }
    ensures ok { OnOk result (IsWritten (W.taken w.old) (W.taken w.new) (W.has_failed w.new) bytes.now) }
    ensures err { IfErr result (λ e. (e ≡ ServeError.Write)
        × IsBroken (W.taken w.old) (W.taken w.new) (W.has_failed w.new) bytes.now) }
{
    let mut sent = 0;
    while sent < bytes.len() {
        let n = match w.write(&bytes[sent..]) {
            Ok(n) => n,
            Err(Failed) => return Err(ServeError::Write),
        };
        if n == 0 {
            return Err(ServeError::Write);
        }
        sent += n;
    }
    Ok(())
}

/// Puts the head of an answer into `text`, with as much of its body as fits into the first write. What `text` held is
/// dropped. Returns the rest of the body. Fails with `Memory` alone.
fn first_write<'f>(text: &mut Vec<u8>, head: &[u8], body: &'f [u8]) -> Result<&'f [u8], Memory>
    ensures whole { IfOk result (λ rest. text.new.items ++ rest.now ≡ head.now ++ body.now) }
    ensures few { OnOk result (length text.new.items ≤ max FIRST_WRITE (length head.now)) }
    ensures full { IfOk result (λ rest. 0 < length rest.now → FIRST_WRITE ≤ length text.new.items) }
    ensures size { FIRST_WRITE ≡ 16384 }
{
    text.clear();
    text.extend_from_slice(head)?;
    let (front, rest) = body.split_at(FIRST_WRITE.saturating_sub(text.len()).min(body.len()));
    text.extend_from_slice(front)?;
    Ok(rest)
}

/// Writes all that waits on a connection. `text` is a buffer, which is used for each answer. Fails with `Write` or
/// `Memory`.
pub fn send_waiting<W: Outlet>(
    connection: &mut Connection,
    text: &mut Vec<u8>,
    w: &mut W,
) -> Result<(), ServeError>
    requires { W.has_failed w.old ≡ false }
    ensures sent { Writes (W.taken w.old) (W.taken w.new) (W.has_failed w.new) connection.old.waiting result }
    ensures written { OnOk result (connection.new ≡ after_write (length connection.old.waiting) connection.old) }
{
    let (head, body) = connection.waiting();
    let n = head.len() + body.len();
    let rest = first_write(text, head, body)?;
    send(w, text)?;
    send(w, rest)?;
    connection.wrote(n);
    Ok(())
}

/// Reads at most `room` bytes into the front of `buffer`, and returns how many, 0 at the end. Fails with `Read` where
/// the read fails.
fn read_some<R: Inlet>(r: &mut R, buffer: &mut [u8], room: usize) -> Result<usize, ServeError>
    requires some { 0 < room }
    requires within { room ≤ length buffer.old }
    requires unfailed { R.has_failed r.old ≡ false }
    ensures ok { IfOk result (λ n. (n ≤ room) × (n ≡ 0 → R.is_over r.new)
        × (R.given r.new ≡ append_known (R.given r.old) (take n buffer.new))) }
    ensures unfailed { OnOk result (R.has_failed r.new ≡ false) }
    ensures err { IfErr result (λ e. (e ≡ ServeError.Read) × (R.has_failed r.new ≡ true)
        × (R.given r.new ≡ append_known (R.given r.old) [])) }
{
    match r.read(&mut buffer[..room]) {
        Ok(n) => Ok(n),
        Err(Failed) => Err(ServeError::Read),
    }
}

/// Reads what comes next on a connection. Fails with `Read` or `Memory`.
pub fn receive<R: Inlet>(
    connection: &mut Connection,
    buffer: &mut [u8],
    r: &mut R,
) -> Result<(), ServeError>
    requires some { 0 < room_of connection.old }
    requires buffer { MESSAGE_LIMIT ≤ length buffer.old }
    requires unfailed { R.has_failed r.old ≡ false }
    ensures { Receives connection.old connection.new (R.given r.old) (R.given r.new) (R.is_over r.new) (R.has_failed r.new) result }
{
    let room = connection.room();
    let n = read_some(r, buffer, room)?;
    if n == 0 {
        connection.came_to_end();
    } else {
        connection.came(&buffer[..n])?;
    }
    Ok(())
}
