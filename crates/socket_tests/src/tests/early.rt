//! Requests that are sent early on a kept connection. Each has its turn once. After anything else the connection is made anew.
use super::peer::{Peer, expect, request, send, send_text};
use client_sockets::Socket;
use cog_client::Pieces;
use fixtures_support::f5;
use std::alloc::Global;
use std::io::Read;
use std::net::{Net, TcpStream};
use std::process::Abort;
use std::test::Fail;

/// The last bytes of the ranges that are asked for, one request after another.
const LAST: [u64; 3] = [1999, 2999, 3999];

/// Returns the requests for them, which let the connection go on.
fn requests(alloc: Global) -> Result<[Vec<u8>; 3], Fail> {
    Ok([
        request(alloc, LAST[0], false)?,
        request(alloc, LAST[1], false)?,
        request(alloc, LAST[2], false)?,
    ])
}

/// Makes one exchange on a new connection that is kept. Returns the server's end of it.
fn open<R>(alloc: Global, peer: &Peer, socket: &mut Socket<'_, R>) -> Result<TcpStream, Fail>
where
    R: Net<Stream = TcpStream> + AllocGlobal,
{
    socket.keep_open();
    send(alloc, socket, 999)?;
    peer.exchange_anew(alloc, socket, &mut [0; 1000])
}

/// Expects these requests on a connection, one after another.
fn come(alloc: Global, stream: &mut TcpStream, requests: &[Vec<u8>]) -> Result<(), Fail> {
    for request in requests {
        let mut room = vec![in alloc; 0u8; request.len()]?;
        stream.read_exact(&mut room)?;
        if room != *request {
            return Err(Fail::new("another request came"));
        }
    }
    Ok(())
}

/// Answers requests one after another. Returns the texts of the answers.
fn answer_each(
    peer: &Peer,
    stream: &mut TcpStream,
    requests: &[Vec<u8>; 3],
) -> Result<[Vec<u8>; 3], Fail> {
    Ok([
        peer.answer_to(stream, &requests[0])?,
        peer.answer_to(stream, &requests[1])?,
        peer.answer_to(stream, &requests[2])?,
    ])
}

/// Takes the answer to the first request. Then starts the others one after the other, and takes their answers in pieces of 100 bytes and of
/// any size.
fn take_rest<R>(alloc: Global, socket: &mut Socket<'_, R>, texts: &[Vec<u8>; 3]) -> Result<(), Fail>
where
    R: Net<Stream = TcpStream> + AllocGlobal,
{
    expect(alloc, socket, &mut [0; 16384], &texts[0])?;
    send(alloc, socket, LAST[1])?;
    expect(alloc, socket, &mut [0; 100], &texts[1])?;
    send(alloc, socket, LAST[2])?;
    expect(alloc, socket, &mut [0; 16384], &texts[2])
}

/// Sends the first request, and the others early, in two steps. Expects that they come, and answers them. Returns the texts of the answers.
fn send_all<R>(
    alloc: Global,
    peer: &Peer,
    stream: &mut TcpStream,
    socket: &mut Socket<'_, R>,
    requests: &[Vec<u8>; 3],
) -> Result<[Vec<u8>; 3], Fail>
where
    R: Net<Stream = TcpStream> + AllocGlobal,
{
    let all = &requests[..];
    send(alloc, socket, LAST[0])?;
    socket.foresee(&all[1..2]);
    socket.foresee(&all[1..]);
    come(alloc, stream, all)?;
    answer_each(peer, stream, requests)
}

/// Sends all requests, two of them early, and then starts each. Expects that no byte comes after them before the first request is sent
/// again.
fn start_each<R>(
    alloc: Global,
    peer: &Peer,
    stream: &mut TcpStream,
    socket: &mut Socket<'_, R>,
    requests: &[Vec<u8>; 3],
) -> Result<(), Fail>
where
    R: Net<Stream = TcpStream> + AllocGlobal,
{
    let texts = send_all(alloc, peer, stream, socket, requests)?;
    take_rest(alloc, socket, &texts)?;
    send(alloc, socket, LAST[0])?;
    come(alloc, stream, &requests[..1])
}

/// Expects that two requests that were sent early are started without sending another byte. Their answers are read in pieces of any size.
#[test]
fn starts_what_was_sent_early_without_sending_it(rt: HostRuntime) -> Result<(), Fail> {
    let alloc = rt.alloc();
    let peer = Peer::new(&rt, f5(alloc)?)?;
    let requests = requests(alloc)?;
    let mut socket = Socket::new(&rt, peer.address.as_str());
    let mut stream = open(alloc, &peer, &mut socket)?;
    start_each(alloc, &peer, &mut stream, &mut socket, &requests)
}

/// Sends the first request, and the others early, and answers all. Returns the texts of the answers.
fn answer_all<R>(
    alloc: Global,
    peer: &Peer,
    stream: &mut TcpStream,
    socket: &mut Socket<'_, R>,
    requests: &[Vec<u8>; 3],
) -> Result<[Vec<u8>; 3], Fail>
where
    R: Net<Stream = TcpStream> + AllocGlobal,
{
    let all = &requests[..];
    send(alloc, socket, LAST[0])?;
    socket.foresee(&all[1..]);
    answer_each(peer, stream, requests)
}

/// Takes the first answer, and starts the last request. Expects it on a new connection, and takes its answer.
fn start_last<R>(
    rt: &(impl Abort + AllocGlobal),
    peer: &Peer,
    socket: &mut Socket<'_, R>,
    texts: &[Vec<u8>; 3],
) -> Result<(), Fail>
where
    R: Net<Stream = TcpStream> + AllocGlobal,
{
    let alloc = rt.alloc();
    expect(alloc, socket, &mut [0; 16384], &texts[0])?;
    send(alloc, socket, LAST[2])?;
    let mut stream = peer.accept()?;
    assert_eq!(rt; peer.answer(&mut stream)?, texts[2]);
    expect(alloc, socket, &mut [0; 16384], &texts[2])
}

/// Expects that the connection is made anew where another request follows than the one that was sent early. The answer is that to the other
/// one.
#[test]
fn never_takes_the_answer_to_another_request(rt: HostRuntime) -> Result<(), Fail> {
    let alloc = rt.alloc();
    let peer = Peer::new(&rt, f5(alloc)?)?;
    let requests = requests(alloc)?;
    let mut socket = Socket::new(&rt, peer.address.as_str());
    let mut stream = open(alloc, &peer, &mut socket)?;
    let texts = answer_all(alloc, &peer, &mut stream, &mut socket, &requests)?;
    start_last(&rt, &peer, &mut socket, &texts)
}

/// Sends a request that ends the connection, and others early after it. Expects an answer that says so.
fn close<R>(
    alloc: Global,
    peer: &Peer,
    stream: &mut TcpStream,
    socket: &mut Socket<'_, R>,
    behind: &[Vec<u8>],
) -> Result<(), Fail>
where
    R: Net<Stream = TcpStream> + AllocGlobal,
{
    let closing = request(alloc, LAST[0], true)?;
    send_text(socket, &closing)?;
    socket.foresee(behind);
    let closed = peer.answer_to(stream, &closing)?;
    expect(alloc, socket, &mut [0; 16384], &closed)
}

/// Sends a request again that was sent early on a connection that ends. Exchanges it on a new one.
fn close_and_send_again<R>(
    alloc: Global,
    peer: &Peer,
    stream: &mut TcpStream,
    socket: &mut Socket<'_, R>,
    behind: &[Vec<u8>],
) -> Result<(), Fail>
where
    R: Net<Stream = TcpStream> + AllocGlobal,
{
    close(alloc, peer, stream, socket, behind)?;
    send(alloc, socket, LAST[1])?;
    peer.exchange_anew(alloc, socket, &mut [0; 16384])?;
    Ok(())
}

/// Expects that requests that were sent early are sent again on a new connection, where the answer says that the old one ends.
#[test]
fn sends_again_what_was_sent_early_where_the_connection_ends(rt: HostRuntime) -> Result<(), Fail> {
    let alloc = rt.alloc();
    let peer = Peer::new(&rt, f5(alloc)?)?;
    let requests = requests(alloc)?;
    let mut socket = Socket::new(&rt, peer.address.as_str());
    let mut stream = open(alloc, &peer, &mut socket)?;
    let all = &requests[..];
    close_and_send_again(alloc, &peer, &mut stream, &mut socket, &all[1..])
}

/// Sends a request as the first of all, and gives the socket those that follow it. Exchanges it on a new connection, and returns that.
fn open_telling<R>(
    alloc: Global,
    peer: &Peer,
    socket: &mut Socket<'_, R>,
    behind: &[Vec<u8>],
) -> Result<TcpStream, Fail>
where
    R: Net<Stream = TcpStream> + AllocGlobal,
{
    socket.keep_open();
    send(alloc, socket, LAST[0])?;
    socket.foresee(behind);
    peer.exchange_anew(alloc, socket, &mut [0; 16384])
}

/// Gives the socket requests before the first answer. Expects that no byte of them comes before the last one is sent.
fn tell_first<R>(
    alloc: Global,
    peer: &Peer,
    socket: &mut Socket<'_, R>,
    requests: &[Vec<u8>; 3],
) -> Result<(), Fail>
where
    R: Net<Stream = TcpStream> + AllocGlobal,
{
    let all = &requests[..];
    let mut stream = open_telling(alloc, peer, socket, &all[1..])?;
    send(alloc, socket, LAST[2])?;
    come(alloc, &mut stream, &all[2..])
}

/// Expects that nothing is sent early on a connection that hasn't gone on after an answer.
#[test]
fn sends_nothing_early_on_a_new_connection(rt: HostRuntime) -> Result<(), Fail> {
    let alloc = rt.alloc();
    let peer = Peer::new(&rt, f5(alloc)?)?;
    let requests = requests(alloc)?;
    let mut socket = Socket::new(&rt, peer.address.as_str());
    tell_first(alloc, &peer, &mut socket, &requests)
}
