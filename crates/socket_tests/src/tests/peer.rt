//! The other end of a socket: a server that listens for its connections.
ghost use Rattle.std.specs.Prelude.{◌<◌, length};

use client_sockets::Socket;
use cog_client::{Lost, Pieces};
use cog_server::Server;
use http_range::{Span, write_open_request, write_request};
use std::alloc::Global;
use std::io::{Read, Write};
use std::net::{Net, TcpListener, TcpStream};
use std::test::Fail;

/// Makes a server that has a file as `a` in epoch 1.
fn server_of(alloc: Global, file: Vec<u8>) -> Result<Server, Fail> {
    let mut server = Server::new(alloc, 1);
    server.publish(b"a", file)?;
    Ok(server)
}

/// A server, its listener, and the listener's address as `HOST:PORT`.
#[derive(Drop)]
pub struct Peer {
    pub server: Server,
    listener: TcpListener,
    pub address: String,
}

impl Peer {
    /// Makes a peer that has a file as `a` in epoch 1.
    pub fn new<R>(rt: &R, file: Vec<u8>) -> Result<Peer, Fail>
    where
        R: Net<Listener = TcpListener, Stream = TcpStream> + AllocGlobal,
    {
        let server = server_of(rt.alloc(), file)?;
        let listener = TcpListener::bind(rt, "127.0.0.1:0")?;
        let address = format!(in rt.alloc(); "{}", listener.local_addr()?)?;
        Ok(Peer {
            server,
            listener,
            address,
        })
    }

    /// Accepts the next connection.
    pub fn accept(&self) -> Result<TcpStream, Fail> {
        let (stream, _) = self.listener.accept()?;
        Ok(stream)
    }

    /// Answers a request on a connection. Returns the text of the answer.
    pub fn answer_to(&self, stream: &mut TcpStream, request: &[u8]) -> Result<Vec<u8>, Fail> {
        let answer = self.server.answer(request)?;
        stream.write_all(&answer.text)?;
        Ok(answer.text)
    }

    /// Reads a request on a connection, and answers it. Returns the text of the answer.
    pub fn answer(&self, stream: &mut TcpStream) -> Result<Vec<u8>, Fail> {
        let mut room = [0u8; 1000];
        let count = stream.read(&mut room)?;
        self.answer_to(stream, &room[..count])
    }

    /// Answers what came on a connection. Expects that the same comes over the socket, in pieces that fit into `room`.
    pub fn exchange<P: Pieces>(
        &self,
        alloc: Global,
        stream: &mut TcpStream,
        socket: &mut P,
        room: &mut [u8],
    ) -> Result<(), Fail>
        requires { 0 < length room.old }
    {
        let text = self.answer(stream)?;
        expect(alloc, socket, room, &text)
    }

    /// Answers what came on a new connection, and returns that. Expects that the same comes over the socket, in pieces that fit into
    /// `room`.
    pub fn exchange_anew<P: Pieces>(
        &self,
        alloc: Global,
        socket: &mut P,
        room: &mut [u8],
    ) -> Result<TcpStream, Fail>
        requires { 0 < length room.old }
    {
        let mut stream = self.accept()?;
        self.exchange(alloc, &mut stream, socket, room)?;
        Ok(stream)
    }
}

/// Returns the request for the bytes of the file `a` up to `last`. It ends the connection or doesn't.
pub fn request(alloc: Global, last: u64, closes: bool) -> Result<Vec<u8>, Fail> {
    let span = Span { first: 0, last };
    if closes {
        Ok(write_request(alloc, b"cog.test", b"a", span, None)?)
    } else {
        Ok(write_open_request(alloc, b"cog.test", b"a", span, None)?)
    }
}

/// Sends a request.
pub fn send_text<R>(socket: &mut Socket<'_, R>, request: &[u8]) -> Result<(), Fail>
where
    R: Net<Stream = TcpStream> + AllocGlobal,
{
    socket.send(request).map_err(|_| Fail::new("not sent"))
}

/// Sends the request for the bytes up to `last`, which doesn't end the connection.
pub fn send<R>(alloc: Global, socket: &mut Socket<'_, R>, last: u64) -> Result<(), Fail>
where
    R: Net<Stream = TcpStream> + AllocGlobal,
{
    send_text(socket, &request(alloc, last, false)?)
}

/// Returns the bytes that come of an answer, in pieces that fit into `room`.
pub fn arrived<P: Pieces>(alloc: Global, socket: &mut P, room: &mut [u8]) -> Result<Vec<u8>, Fail>
    requires { 0 < length room.old }
{
    let mut bytes = Vec::new(alloc);
    for _ in 0..1000 {
        match socket.next(room) {
            Ok(0) => return Ok(bytes),
            Ok(count) => bytes.extend_from_slice(&room[..count])?,
            Err(Lost) => break,
        }
    }
    Err(Fail::new("nothing came"))
}

/// Expects that exactly this answer comes, in pieces that fit into `room`.
pub fn expect<P: Pieces>(
    alloc: Global,
    socket: &mut P,
    room: &mut [u8],
    answer: &[u8],
) -> Result<(), Fail>
    requires { 0 < length room.old }
{
    if arrived(alloc, socket, room)?.as_slice() == answer {
        Ok(())
    } else {
        Err(Fail::new("another answer came"))
    }
}
