//! A client and a server over sockets of one process. A request is sent, the connection is served, and the answer is received.
use super::peer::{Peer, send_text};
use assertion_support::expect_eq;
use client_report::picture;
use client_sockets::Socket;
use cog_client::{Client, Delivered, Lost, Outcome, Pieces, Query, Report, Transport};
use cog_server::Stream;
use fixtures_support::{f1, f3};
use http_range::publication_tag;
use std::alloc::Global;
use std::net::{Net, TcpListener, TcpStream};
use std::process::Abort;
use std::rt::Runtime;
use std::test::Fail;
use text_report::info_text;
use tiff_dir::Pick;

/// Makes a query of a window of level 0.
fn window(x: u32, y: u32, w: u32, h: u32) -> Query {
    Query::Window {
        pick: Pick::Level(0),
        x,
        y,
        w,
        h,
    }
}

/// Serves the next connection.
fn serve(peer: &Peer) -> Result<(), Fail> {
    let stream = peer.accept()?;
    let served = peer
        .server
        .serve(&mut Stream::new(&stream), &mut Stream::new(&stream));
    match served {
        Ok(_) => Ok(()),
        Err(_) => Err(Fail::new("not served")),
    }
}

/// Sends a request, and serves the connection. Returns what comes back.
fn carry<R>(rt: &R, peer: &Peer, request: &[u8]) -> Result<Vec<u8>, Fail>
where
    R: Runtime + Abort + AllocGlobal + Net<Listener = TcpListener, Stream = TcpStream>,
{
    let mut socket = Socket::new(rt, peer.address.as_str());
    send_text(&mut socket, request)?;
    serve(peer)?;
    socket.receive().map_err(|_| Fail::new("nothing came"))
}

/// Takes an answer.
fn take(client: &mut Client, answer: &[u8]) -> Result<(), Fail> {
    if answer.len() > 16_384 {
        return Err(Fail::new("a long answer"));
    }
    match client.deliver(answer)? {
        Delivered::Ignored(_) => Err(Fail::new("an answer that is ignored")),
        _ => Ok(()),
    }
}

/// Makes one exchange, if the client has a request. Returns whether it has one.
fn exchange<R>(rt: &R, peer: &Peer, client: &mut Client) -> Result<bool, Fail>
where
    R: Runtime + Abort + AllocGlobal + Net<Listener = TcpListener, Stream = TcpStream>,
{
    let Some(request) = client.request()? else {
        return Ok(false);
    };
    take(client, &carry(rt, peer, &request)?)?;
    Ok(true)
}

/// Asks a query, and exchanges until the client has no further request. Returns how many exchanges there were.
fn read<R>(rt: &R, peer: &Peer, client: &mut Client, query: Query) -> Result<usize, Fail>
where
    R: Runtime + Abort + AllocGlobal + Net<Listener = TcpListener, Stream = TcpStream>,
{
    client.open(query);
    for count in 0..3usize {
        if !exchange(rt, peer, client)? {
            return Ok(count);
        }
    }
    Ok(3)
}

/// Returns a report as users see it.
fn text_of(alloc: Global, report: Option<&Report>) -> Result<Vec<u8>, Fail> {
    let report = report.ok_or("no report")?;
    match &report.outcome {
        Outcome::Window(_) => Ok(picture(alloc, report)?),
        Outcome::Info(info) => Ok(info_text(alloc, &report.tag, info)?),
        Outcome::Fault(_) => Err(Fail::new("a fault")),
    }
}

/// Expects that a query is answered by `count` exchanges, and by a report of this text.
fn expect_text<R>(
    rt: &R,
    peer: &Peer,
    client: &mut Client,
    query: Query,
    (count, text): (usize, &[u8]),
) -> Result<(), Fail>
where
    R: Runtime + Abort + AllocGlobal + Net<Listener = TcpListener, Stream = TcpStream>,
{
    let found = read(rt, peer, client, query)?;
    let found_text = text_of(rt.alloc(), client.report())?;
    assert_eq!(rt; (found, found_text.as_slice()), (count, text));
    Ok(())
}

/// Expects the windows from one client.
fn expect_windows<R>(rt: &R, peer: &Peer, client: &mut Client) -> Result<(), Fail>
where
    R: Runtime + Abort + AllocGlobal + Net<Listener = TcpListener, Stream = TcpStream>,
{
    for (query, count, text) in [
        (
            window(2, 1, 3, 2),
            1,
            b"P5\n3 2\n255\n\x12\x13\x14\x22\x23\x24".as_slice(),
        ),
        (window(15, 15, 1, 1), 0, b"P5\n1 1\n255\n\xff".as_slice()),
    ] {
        expect_text(rt, peer, client, query, (count, text))?;
    }
    Ok(())
}

#[test]
fn reads_windows_over_a_socket(rt: HostRuntime) -> Result<(), Fail> {
    let peer = Peer::new(&rt, f1(rt.alloc())?)?;
    let mut client = Client::new(rt.alloc(), b"cog.test", b"a", 66)?;
    expect_windows(&rt, &peer, &mut client)
}

/// The text of Info of f3.
const INFO: &[u8] = b"tag \"1-1\"\nlevel 0 32 32\nlevel 1 16 16\nminor 0\nkey 1024 short 2\n\
    key 1026 ascii WGS 84|\nkey 2057 doubles 0102030405060708\n\
    scale 3ff0000000000000 3ff0000000000000 3ff0000000000000\n";

/// Expects the info from a client that has the first publication.
fn expect_info<R>(rt: &R, peer: &Peer, client: &mut Client) -> Result<(), Fail>
where
    R: Runtime + Abort + AllocGlobal + Net<Listener = TcpListener, Stream = TcpStream>,
{
    expect_text(rt, peer, client, Query::Info, (1, INFO))?;
    assert!(rt; client.tag() == Some(&publication_tag(1, 1)));
    Ok(())
}

#[test]
fn reads_info_over_a_socket(rt: HostRuntime) -> Result<(), Fail> {
    let peer = Peer::new(&rt, f3(rt.alloc())?)?;
    let mut client = Client::new(rt.alloc(), b"cog.test", b"a", 66)?;
    expect_info(&rt, &peer, &mut client)
}

/// A request that no server gets.
const REQUEST: &[u8] = b"GET / HTTP/1.1\r\n\r\n";

/// Expects that each exchange is lost, and counted, where nobody listens.
#[test]
fn loses_each_exchange_where_nobody_listens(rt: HostRuntime) {
    let mut socket = Socket::new(&rt, "127.0.0.1:1");
    let found = (socket.start(REQUEST), socket.next(&mut [0; 10]));
    expect_eq!(rt; (found, socket.starts()), ((Err(Lost), Err(Lost)), 1));
    let mut socket = Socket::new(&rt, "no address");
    assert!(rt; matches!(socket.send(REQUEST), Err(Lost)));
    assert!(rt; matches!(socket.exchange(REQUEST), Err(Lost)));
    expect_eq!(rt; socket.exchanges(), 1);
}
