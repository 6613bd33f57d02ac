//! Bytes between a connection and its socket.
ghost use Rattle.std.specs.Prelude.{◌≡◌, ◌++◌, ◌<◌, ◌≤◌, ◌⊎◌, IfErr, IfOk, IfSome, OnErr, length, take};
ghost use Rattle.std.specs.Io.{WritesAtMost};
ghost use Rattle.std.specs.Io.KnownBytes.{Consumes, IsAtEnd, WriteAppends};
ghost use Rattle.std.specs.Io.Slices.{io_slices_bytes};
ghost use Rattle.std.specs.IoError.{error_kind};
ghost use Rattle.std.specs.declared.io.ErrorKind.TheVariants.{OutOfMemory};
ghost use Rattle.cog_server.specs.Received.{after_read};
ghost use Rattle.cog_server.specs.Service.{service_of};
ghost use Rattle.cog_server.specs.Status.{room_of};
ghost use Rattle.server_connections.specs.Table.{Changes, GoesOnAt, timed_after_write, timed_at};
ghost use Rattle.server_sockets.specs.Turns.{KeepsSlots};

use cog_server::Service;
use http_range::Memory;
use mio::net::TcpStream;
use server_connections::Connections;
use std::io;
use std::io::{ErrorKind, IoSlice, Read, Write};
use std::net::SocketAddr;

/// The socket of a connection, with the connection's number and the address of its client.
#[derive(Drop)]
pub struct ConnectionSocket {
    pub number: u64,
    pub stream: TcpStream,
    pub client: SocketAddr,
}

/// Returns the error of a socket for which memory is short.
fn memory(_error: Memory) -> io::Error
    ensures { error_kind result ≡ OutOfMemory }
{
    io::Error::from(ErrorKind::OutOfMemory)
}

/// What takes the bytes of several slices by one call.
trait WriteSlices: Write {
    /// Writes the bytes of `slices` in their order, and returns how many were written.
    fn write_slices(&mut self, slices: &[IoSlice<'_>]) -> io::Result<usize>
        ensures bound { WritesAtMost result (io_slices_bytes slices.now) }
        ensures bytes { WriteAppends (Self.contents self.old) (Self.contents self.new) result (io_slices_bytes slices.now) };
}

impl WriteSlices for &TcpStream {
    fn write_slices(&mut self, slices: &[IoSlice<'_>]) -> io::Result<usize> {
        TcpStream::write_vectored(self, slices)
    }
}

/// Writes at most `most` bytes of `head` and then of `body`, by one call, and copies no byte. Returns how many were written.
fn write_parts<W: WriteSlices>(
    writer: &mut W,
    head: &[u8],
    body: &[u8],
    most: usize,
) -> io::Result<usize>
    ensures few { IfOk result (λ n. n ≤ most) }
    ensures within { IfOk result (λ n. n ≤ length (head.now ++ body.now)) }
    ensures order { WriteAppends (W.contents writer.old) (W.contents writer.new) result (head.now ++ body.now) }
{
    let head = &head[..head.len().min(most)];
    let body = &body[..body.len().min(most - head.len())];
    if body.is_empty() {
        return writer.write(head);
    }
    writer.write_slices(&[IoSlice::new(head), IoSlice::new(body)])
}

/// Writes at most `most` bytes of what waits on a connection at moment `now`, and returns how many were written. Where it fails, the socket
/// was tried at that moment, too.
pub fn write_some(
    connections: &mut Connections,
    socket: &ConnectionSocket,
    most: usize,
    now: u64,
) -> io::Result<usize>
    requires { 0 < most }
    ensures few { IfOk result (λ n. n ≤ most) }
    ensures waits { IfOk result (λ n. IfSome (timed_at socket.now.number connections.old.table.entries)
        (λ p. n ≤ length p.connection.waiting)) }
    ensures wrote { IfOk result (λ n. Changes socket.now.number (timed_after_write n now)
        connections.old.table.entries connections.new.table.entries) }
    ensures err { OnErr result (Changes socket.now.number (timed_after_write 0 now)
        connections.old.table.entries connections.new.table.entries) }
    ensures kept { KeepsSlots socket.now.number connections.old connections.new }
{
    write_to(connections, socket.number, &mut &socket.stream, most, now)
}

/// Writes to `writer`, which is the socket of connection `number`, as `write_some` does.
fn write_to<W: WriteSlices>(
    connections: &mut Connections,
    number: u64,
    writer: &mut W,
    most: usize,
    now: u64,
) -> io::Result<usize>
    requires { 0 < most }
    ensures few { IfOk result (λ n. n ≤ most) }
    ensures waits { IfOk result (λ n. IfSome (timed_at number connections.old.table.entries)
        (λ p. n ≤ length p.connection.waiting)) }
    ensures wrote { IfOk result (λ n. Changes number (timed_after_write n now)
        connections.old.table.entries connections.new.table.entries) }
    ensures err { OnErr result (Changes number (timed_after_write 0 now)
        connections.old.table.entries connections.new.table.entries) }
    // What is written is the front of what waits, byte by byte.
    ensures order { IfSome (timed_at number connections.old.table.entries)
        (λ p. WriteAppends (W.contents writer.old) (W.contents writer.new) result p.connection.waiting) }
    ensures kept { KeepsSlots number connections.old connections.new }
{
    let Some(timed) = connections.get(number) else {
        return Ok(0);
    };
    let (head, body) = timed.connection.waiting();
    match write_parts(writer, head, body, most) {
        Ok(n) if n > 0 => {
            connections.wrote(number, n, now);
            Ok(n)
        }
        Ok(_) => {
            connections.wrote(number, 0, now);
            Err(io::Error::from(ErrorKind::WriteZero))
        }
        Err(error) => {
            connections.wrote(number, 0, now);
            Err(error)
        }
    }
}

/// Takes the bytes that have come on a connection, and returns how many were taken. They stand at the front of `buffer`. Takes at most as
/// many as the connection and `buffer` have room for. A buffer of no room would make each read look like the end of the input.
pub fn read_some(
    connections: &mut Connections,
    socket: &ConnectionSocket,
    buffer: &mut [u8],
) -> io::Result<usize>
    requires { 0 < length buffer.old }
    ensures within { IfOk result (λ n. n ≤ length buffer.new) }
    ensures room { IfOk result (λ n. IfSome (timed_at socket.now.number connections.old.table.entries)
        (λ p. n ≤ room_of p.connection)) }
    ensures came { IfOk result (λ n. Changes socket.now.number
        (λ p. record p { connection = after_read (take n buffer.new) p.connection })
        connections.old.table.entries connections.new.table.entries) }
    ensures err { OnErr result (Changes socket.now.number (λ p. p) connections.old.table.entries connections.new.table.entries) }
    ensures kept { KeepsSlots socket.now.number connections.old connections.new }
{
    read_from(connections, socket.number, &mut &socket.stream, buffer)
}

/// Reads from `reader`, which is the socket of connection `number`, as `read_some` does.
fn read_from<R: Read>(
    connections: &mut Connections,
    number: u64,
    reader: &mut R,
    buffer: &mut [u8],
) -> io::Result<usize>
    requires { 0 < length buffer.old }
    ensures within { IfOk result (λ n. n ≤ length buffer.new) }
    ensures room { IfOk result (λ n. IfSome (timed_at number connections.old.table.entries)
        (λ p. n ≤ room_of p.connection)) }
    ensures came { IfOk result (λ n. Changes number
        (λ p. record p { connection = after_read (take n buffer.new) p.connection })
        connections.old.table.entries connections.new.table.entries) }
    ensures err { OnErr result (Changes number (λ p. p) connections.old.table.entries connections.new.table.entries) }
    // What is taken is the front of what comes, byte by byte. Nothing is taken only where there is no room, or at the end.
    ensures order { IfOk result (λ n. Consumes (R.remaining reader.old) (R.remaining reader.new) (take n buffer.new)) }
    ensures some { IfOk result (λ n. n ≡ 0
        → IfSome (timed_at number connections.old.table.entries) (λ p. room_of p.connection ≡ 0) ⊎ IsAtEnd (R.remaining reader.new)) }
    ensures kept { KeepsSlots number connections.old connections.new }
{
    let Some(timed) = connections.get(number) else {
        return Ok(0);
    };
    let room = timed.connection.room().min(buffer.len());
    let n = reader.read(&mut buffer[..room])?;
    if n == 0 {
        connections.came_to_end(number);
    } else {
        connections.came(number, &buffer[..n]).map_err(memory)?;
    }
    Ok(n)
}

/// Answers the next message of connection `number` at moment `now`, and returns the status code. Returns `None` where no message is
/// answered.
pub fn answer(
    connections: &mut Connections,
    number: u64,
    service: &Service<'_>,
    now: u64,
) -> io::Result<Option<u16>>
    ensures ok { IfOk result (GoesOnAt (service_of service.now) number now (timed_at number connections.old.table.entries)
        connections.old.table.entries connections.new.table.entries) }
    ensures err { OnErr result (Changes number (λ p. p) connections.old.table.entries connections.new.table.entries) }
    // Only memory may be short.
    ensures memory { IfErr result (λ error. error_kind error ≡ OutOfMemory) }
    ensures kept { KeepsSlots number connections.old connections.new }
{
    match connections.go_on(number, service, now) {
        Ok(status) => Ok(status),
        Err(error) => Err(memory(error)),
    }
}
