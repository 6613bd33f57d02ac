//! Which connections have a slot at a server of few slots, and which get one. Each moment is handed in.
use assertion_support::expect_eq;
use cog_server::{Server, Service};
use fixtures_support::f1;
use server_sockets::{Limits, NoLog, Serving};
use std::io::{Read, Write};
use std::net::{Net, SocketAddr, TcpListener, TcpStream};
use std::num::NonZeroUsize;
use std::process::Abort;
use std::test::Fail;
use transports::server_of_one;

const ASK: &str = "GET /a HTTP/1.1\r\nHost: h\r\nRange: bytes=0-3\r\n\r\n";

/// The answer to that request.
const ANSWER: &str =
    "HTTP/1.1 206 Partial Content\r\nETag: \"1-1\"\r\nAccept-Ranges: bytes\r\nContent-Type: image/tiff\r\n\
    Content-Range: bytes 0-3/378\r\nContent-Length: 4\r\n\r\nII*\0";

/// Makes a server of this file with `places` slots. A connection without progress keeps its slot for a second.
fn serving<R: AllocGlobal + Net<Listener = TcpListener, Stream = TcpStream>>(
    rt: &R,
    places: usize,
) -> Result<(Serving, Server, SocketAddr), Fail> {
    let listener = TcpListener::bind(rt, "127.0.0.1:0")?;
    let address = listener.local_addr()?;
    let Some(at_once) = NonZeroUsize::new(places) else {
        return Err(Fail::new("no place"));
    };
    let limits = Limits {
        connections: 9,
        at_once,
        patience: 1_000,
    };
    let server = server_of_one(rt.alloc(), 1, b"a", f1(rt.alloc())?)?;
    Ok((Serving::new(rt, listener, limits)?, server, address))
}

/// Makes a connection on which `text` is sent.
fn connect<R: Net<Stream = TcpStream>>(
    rt: &R,
    address: SocketAddr,
    text: &str,
) -> Result<TcpStream, Fail> {
    let mut client = TcpStream::connect(rt, address)?;
    client.write_all(text.as_bytes())?;
    Ok(client)
}

/// Accepts the connections that get a slot at a moment, and gives each connection its turn. Returns how many were accepted, and how many
/// have ended.
fn turn(serving: &mut Serving, server: &Server, now: u64) -> Result<(u32, u32), Fail> {
    let Ok(accepted) = serving.accept(now) else {
        return Err(Fail::new("not accepted"));
    };
    if accepted > 0 {
        serving.wait(now)?;
    }
    serving.turns(&Service::plain(server), now, &mut NoLog);
    Ok((accepted, serving.ended()))
}

/// Expects an answer on a connection.
fn read_answer<R: Abort>(rt: &R, client: &mut TcpStream) -> Result<(), Fail> {
    let mut answer = [0u8; ANSWER.len()];
    client.read_exact(&mut answer)?;
    assert_eq!(rt; str::from_utf8(&answer), Ok(ANSWER));
    Ok(())
}

/// Asks on a connection, and expects an answer at this moment.
fn expect_answer<R: Abort>(
    rt: &R,
    client: &mut TcpStream,
    serving: &mut Serving,
    server: &Server,
    now: u64,
) -> Result<(), Fail> {
    client.write_all(ASK.as_bytes())?;
    expect_answered(rt, client, serving, server, now)
}

/// Expects an answer at this moment to the request on a connection.
fn expect_answered<R: Abort>(
    rt: &R,
    client: &mut TcpStream,
    serving: &mut Serving,
    server: &Server,
    now: u64,
) -> Result<(), Fail> {
    serving.wait(now)?;
    serving.turns(&Service::plain(server), now, &mut NoLog);
    read_answer(rt, client)
}

/// Expects how many connections are accepted at a moment, and how many have ended.
fn expect_turn<R: Abort>(
    rt: &R,
    serving: &mut Serving,
    server: &Server,
    now: u64,
    want: (u32, u32),
) -> Result<(), Fail> {
    expect_eq!(rt; turn(serving, server, now)?, want);
    Ok(())
}

#[test]
fn answers_beside_those_who_say_nothing(rt: HostRuntime) -> Result<(), Fail> {
    let (mut serving, server, address) = serving(&rt, 3)?;
    let _silent = connect(&rt, address, "")?;
    let _begun = connect(&rt, address, "GET /a HTTP/1.1\r\n")?;
    let mut client = connect(&rt, address, "")?;
    expect_turn(&rt, &mut serving, &server, 0, (3, 0))?;
    for now in 1..9 {
        expect_answer(&rt, &mut client, &mut serving, &server, now)?;
    }
    assert!(rt; !serving.is_over());
    Ok(())
}

/// Expects that the first idle connection gives its slot away at once. One that began a message gives it away only after the patience.
#[test]
fn gives_a_newcomer_a_slot(rt: HostRuntime) -> Result<(), Fail> {
    let (mut serving, server, address) = serving(&rt, 2)?;
    let _begun = connect(&rt, address, "GET")?;
    let mut idle = connect(&rt, address, "")?;
    expect_turn(&rt, &mut serving, &server, 10, (2, 0))?;
    let mut second = connect(&rt, address, "G")?;
    expect_instead_of_idle(&rt, &mut serving, &server, &mut idle)?;
    let mut third = connect(&rt, address, "")?;
    expect_instead_of_begun(&rt, &mut serving, &server, &mut third)?;
    second.write_all(&ASK.as_bytes()[1..])?;
    expect_answered(&rt, &mut second, &mut serving, &server, 1_011)
}

/// Expects that a new connection is accepted at once, and that `idle` has ended.
fn expect_instead_of_idle<R: Abort>(
    rt: &R,
    serving: &mut Serving,
    server: &Server,
    idle: &mut TcpStream,
) -> Result<(), Fail> {
    serving.wait(20)?;
    expect_turn(rt, serving, server, 20, (1, 1))?;
    expect_eq!(rt; idle.read(&mut [0])?, 0);
    Ok(())
}

/// Expects that a new connection is accepted when the patience has run out, and not before.
fn expect_instead_of_begun<R: Abort>(
    rt: &R,
    serving: &mut Serving,
    server: &Server,
    newcomer: &mut TcpStream,
) -> Result<(), Fail> {
    serving.wait(30)?;
    expect_turn(rt, serving, server, 1_009, (0, 1))?;
    expect_turn(rt, serving, server, 1_010, (1, 2))?;
    expect_answer(rt, newcomer, serving, server, 1_010)
}

/// Expects that with one slot a new connection waits until the connection before it has ended.
#[test]
fn serves_one_after_another_with_one_place(rt: HostRuntime) -> Result<(), Fail> {
    let (mut serving, server, address) = serving(&rt, 1)?;
    let first = connect(&rt, address, "")?;
    expect_turn(&rt, &mut serving, &server, 0, (1, 0))?;
    let mut second = connect(&rt, address, "")?;
    serving.wait(1)?;
    expect_turn(&rt, &mut serving, &server, 3_600_000, (0, 0))?;
    drop(first);
    expect_instead_of_the_first(&rt, &mut serving, &server, &mut second)
}

/// Expects that a new connection is accepted after the first one has ended.
fn expect_instead_of_the_first<R: Abort>(
    rt: &R,
    serving: &mut Serving,
    server: &Server,
    newcomer: &mut TcpStream,
) -> Result<(), Fail> {
    serving.wait(3_600_001)?;
    serving.turns(&Service::plain(server), 3_600_001, &mut NoLog);
    serving.turns(&Service::plain(server), 3_600_001, &mut NoLog);
    expect_turn(rt, serving, server, 3_600_001, (1, 1))?;
    expect_answer(rt, newcomer, serving, server, 3_600_001)
}

/// Expects that the bytes after the last message are dropped, and that the connection is closed after two seconds.
#[test]
fn drains_for_two_seconds(rt: HostRuntime) -> Result<(), Fail> {
    let (mut serving, server, address) = serving(&rt, 2)?;
    let mut client = connect(&rt, address, "no head\r\n\r\n")?;
    expect_turn(&rt, &mut serving, &server, 5, (1, 1))?;
    client.write_all(b"more")?;
    serving.turns(&Service::plain(&server), 2_004, &mut NoLog);
    let mut next = connect(&rt, address, "")?;
    expect_one_more(&rt, &mut serving, &server)?;
    serving.turns(&Service::plain(&server), 2_005, &mut NoLog);
    let answer = std::io::read_to_string(rt.alloc(), client)?;
    assert!(rt; answer.as_str().starts_with("HTTP/1.1 400 Bad Request\r\n"));
    expect_answer(&rt, &mut next, &mut serving, &server, 2_005)
}

/// Expects that a new connection is accepted after the server has waited for it.
fn expect_one_more<R: Abort>(rt: &R, serving: &mut Serving, server: &Server) -> Result<(), Fail> {
    expect_turn(rt, serving, server, 2_004, (0, 1))?;
    serving.wait(2_004)?;
    expect_turn(rt, serving, server, 2_004, (1, 1))
}
