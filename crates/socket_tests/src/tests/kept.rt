//! A connection that is kept from one request to the next, and the answers after which it isn't.
ghost use Rattle.std.specs.Prelude.{◌<◌, length};

use super::peer::{Peer, request, send, send_text};
use assertion_support::expect_eq;
use client_sockets::Socket;
use cog_client::Pieces;
use fixtures_support::f1;
use std::alloc::Global;
use std::io::Write;
use std::net::{Net, TcpStream};
use std::process::Abort;
use std::test::Fail;

/// Sends a request, and takes its answer on a new connection. Returns the connection.
fn begin<R>(alloc: Global, peer: &Peer, socket: &mut Socket<'_, R>) -> Result<TcpStream, Fail>
where
    R: Net<Stream = TcpStream> + AllocGlobal,
{
    send(alloc, socket, 9)?;
    peer.exchange_anew(alloc, socket, &mut [0; 1000])
}

/// Sends a request up to the byte `last`, and takes its answer on this connection, in pieces that fit into `room`.
fn go_on<R>(
    alloc: Global,
    peer: &Peer,
    stream: &mut TcpStream,
    socket: &mut Socket<'_, R>,
    last: u64,
    room: &mut [u8],
) -> Result<(), Fail>
where
    R: Net<Stream = TcpStream> + AllocGlobal,
    requires { 0 < length room.old }
{
    send(alloc, socket, last)?;
    peer.exchange(alloc, stream, socket, room)
}

/// Takes three answers on one connection, in pieces of at most 1,000 bytes, of one, and of 170.
fn exchange_in_turn<R>(alloc: Global, peer: &Peer, socket: &mut Socket<'_, R>) -> Result<(), Fail>
where
    R: Net<Stream = TcpStream> + AllocGlobal,
{
    let mut stream = begin(alloc, peer, socket)?;
    go_on(alloc, peer, &mut stream, socket, 19, &mut [0; 1])?;
    go_on(alloc, peer, &mut stream, socket, 29, &mut [0; 170])
}

/// Expects three answers on one connection, in pieces of at most 1,000 bytes, of one, and of 170. A request is sent after each.
#[test]
fn sends_requests_one_behind_another(rt: HostRuntime) -> Result<(), Fail> {
    let alloc = rt.alloc();
    let peer = Peer::new(&rt, f1(alloc)?)?;
    let mut socket = Socket::new(&rt, peer.address.as_str());
    socket.keep_open();
    exchange_in_turn(alloc, &peer, &mut socket)
}

/// Sends a request that ends the connection, and takes the answer, which says so. Returns the connection.
fn begin_closing<R>(
    alloc: Global,
    peer: &Peer,
    socket: &mut Socket<'_, R>,
) -> Result<TcpStream, Fail>
where
    R: Net<Stream = TcpStream> + AllocGlobal,
{
    send_text(socket, &request(alloc, 9, true)?)?;
    peer.exchange_anew(alloc, socket, &mut [0; 1000])
}

/// Leaves a connection that ends, and expects the next request on another.
fn begin_behind_closing<R>(
    alloc: Global,
    peer: &Peer,
    socket: &mut Socket<'_, R>,
) -> Result<(), Fail>
where
    R: Net<Stream = TcpStream> + AllocGlobal,
{
    let _closing = begin_closing(alloc, peer, socket)?;
    begin(alloc, peer, socket)?;
    Ok(())
}

/// Expects a new connection after an answer that says that the connection ends.
#[test]
fn connects_anew_behind_an_answer_that_closes(rt: HostRuntime) -> Result<(), Fail> {
    let alloc = rt.alloc();
    let peer = Peer::new(&rt, f1(alloc)?)?;
    let mut socket = Socket::new(&rt, peer.address.as_str());
    socket.keep_open();
    begin_behind_closing(alloc, &peer, &mut socket)
}

/// Reads the first bytes of an answer. Returns the connection.
fn begin_in_part<R>(
    rt: &(impl Abort + AllocGlobal),
    peer: &Peer,
    socket: &mut Socket<'_, R>,
) -> Result<TcpStream, Fail>
where
    R: Net<Stream = TcpStream> + AllocGlobal,
{
    send(rt.alloc(), socket, 9)?;
    let mut stream = peer.accept()?;
    peer.answer(&mut stream)?;
    expect_eq!(rt; socket.next(&mut [0; 20]), Ok(20));
    Ok(stream)
}

/// Reads an answer without a length, and doesn't wait for its end. Returns the connection.
fn begin_without_length<R>(
    rt: &(impl Abort + AllocGlobal),
    peer: &Peer,
    socket: &mut Socket<'_, R>,
) -> Result<TcpStream, Fail>
where
    R: Net<Stream = TcpStream> + AllocGlobal,
{
    send(rt.alloc(), socket, 9)?;
    let mut stream = peer.accept()?;
    stream.write_all(b"HTTP/1.1 200 OK\r\nETag: \"1-1\"\r\n\r\n")?;
    let read = (socket.next(&mut [0; 1000]), socket.next(&mut [0; 1000]));
    expect_eq!(rt; read, (Ok(32), Ok(0)));
    Ok(stream)
}

/// Leaves the connections of these two, and expects each request on another.
fn begin_behind_both<R>(
    rt: &(impl Abort + AllocGlobal),
    peer: &Peer,
    socket: &mut Socket<'_, R>,
) -> Result<(), Fail>
where
    R: Net<Stream = TcpStream> + AllocGlobal,
{
    let _in_part = begin_in_part(rt, peer, socket)?;
    let _without_length = begin_without_length(rt, peer, socket)?;
    begin(rt.alloc(), peer, socket)?;
    Ok(())
}

/// Expects a new connection after an answer that isn't read to its end, and after one without a length, whose end isn't waited for.
#[test]
fn connects_anew_behind_an_answer_without_an_end(rt: HostRuntime) -> Result<(), Fail> {
    let peer = Peer::new(&rt, f1(rt.alloc())?)?;
    let mut socket = Socket::new(&rt, peer.address.as_str());
    socket.keep_open();
    begin_behind_both(&rt, &peer, &mut socket)
}
