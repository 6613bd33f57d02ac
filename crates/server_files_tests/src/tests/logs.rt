//! The log of `cogserve`: a line for each answer, why a file isn't taken anew, and where it listens.
use super::lines::{connect, limits};
use cog_server::{Additions, Server, Service};
use disk_files::Watched;
use fixtures_support::f1;
use programs_support::{Capture, without_times};
use server_files::{AccessLog, ServeFilesError, listen, publish_all, serve_connections};
use server_sockets::Serving;
use std::alloc::Global;
use std::fs;
use std::io::Write;
use std::net::{Net, SocketAddr, TcpListener, TcpStream};
use std::rt::{Clock, Files};
use std::test::Fail;
use transports::server_of_one;

/// Makes a log that is kept.
fn logged<R>(rt: &R) -> AccessLog<'_, R> {
    AccessLog { rt, is_kept: true }
}

/// Returns what is logged, without times, where `text` is sent on a connection, and one is served. The client's address is `CLIENT`.
fn told_of<R>(
    rt: &R,
    server: &mut Server,
    files: &mut [Watched<'_>],
    text: &str,
) -> Result<String, Fail>
where
    R: Files + Clock + AllocGlobal + Net<Listener = TcpListener, Stream = TcpStream>,
{
    let listener = TcpListener::bind(rt, "127.0.0.1:0")?;
    let client = connect(rt, listener.local_addr()?, text)?;
    let capture = Capture::new(rt);
    if serve_connections(
        &mut logged(&capture),
        server,
        files,
        listener,
        limits(1),
        Additions::nothing(),
    )
    .is_err()
    {
        return Err(Fail::new("a fault"));
    }
    let (_, err) = capture.into_texts();
    let log = without_times(rt.alloc(), &err)?;
    with_client_named(rt.alloc(), log.as_str(), client.local_addr()?)
}

/// Writes `CLIENT` instead of a client's address, where a line begins with it.
fn with_client_named(alloc: Global, log: &str, client: SocketAddr) -> Result<String, Fail> {
    let address = format!(in alloc; "{client} ")?;
    let mut lines = String::new(alloc);
    for line in log.lines() {
        match line.strip_prefix(address.as_str()) {
            Some(rest) => writeln!(lines, "CLIENT {rest}")?,
            None => writeln!(lines, "{line}")?,
        }
    }
    Ok(lines)
}

/// Four messages on one connection. The last is no request, and ends it.
const MESSAGES: &str = "GET /a HTTP/1.1\r\nHost: h\r\nRange: bytes=1-4\r\n\r\n\
    HEAD /a HTTP/1.1\r\nHost: h\r\n\r\n\
    GET /b\u{fc} HTTP/1.1\r\nHost: h\r\n\r\n\
    \r\n?\r\n\r\n";

const ANSWERS: &str = "CLIENT cogserve: connection 1: GET /a bytes=1-4: 206, 4 bytes\n\
    CLIENT cogserve: connection 1: HEAD /a: 200, 0 bytes\n\
    CLIENT cogserve: connection 1: GET /b\\xc3\\xbc: 404, 0 bytes\n\
    CLIENT cogserve: connection 1: no request: 400, 0 bytes\n";

#[test]
fn tells_each_answer(rt: HostRuntime) -> Result<(), Fail> {
    let mut server = server_of_one(rt.alloc(), 1, b"a", f1(rt.alloc())?)?;
    let told = told_of(&rt, &mut server, &mut [], MESSAGES)?;
    assert_eq!(rt; told.as_str(), ANSWERS);
    Ok(())
}

/// Makes the sockets of a server, for one connection. Returns them and their address.
fn serving<R: AllocGlobal + Net<Listener = TcpListener, Stream = TcpStream>>(
    rt: &R,
) -> Result<(Serving, SocketAddr), Fail> {
    let listener = TcpListener::bind(rt, "127.0.0.1:0")?;
    let address = listener.local_addr()?;
    Ok((Serving::new(rt, listener, limits(1))?, address))
}

/// Expects the line of a request whose head comes in two pieces.
#[test]
fn tells_the_whole_of_a_request_that_comes_in_pieces(rt: HostRuntime) -> Result<(), Fail> {
    let server = server_of_one(rt.alloc(), 1, b"a", f1(rt.alloc())?)?;
    let (mut serving, address) = serving(&rt)?;
    let mut client = TcpStream::connect(&rt, address)?;
    client.write_all(b"GET /a HTTP/1.1\r\nHost: h\r\nRan")?;
    let capture = Capture::new(&rt);
    let mut log = logged(&capture);
    if !matches!(serving.accept(0), Ok(1)) {
        return Err(Fail::new("not accepted"));
    }
    serving.wait(0)?;
    serving.turns(&Service::plain(&server), 0, &mut log);
    client.write_all(b"ge: bytes=1-4\r\n\r\n")?;
    serving.wait(1)?;
    serving.turns(&Service::plain(&server), 1, &mut log);
    let log = without_times(rt.alloc(), &capture.into_texts().1)?;
    assert_eq!(rt;
        with_client_named(rt.alloc(), log.as_str(), client.local_addr()?)?.as_str(),
        "CLIENT cogserve: connection 1: GET /a bytes=1-4: 206, 4 bytes\n"
    );
    Ok(())
}

const PATH: &str = "served_files_tests_logged";

/// Expects the lines about a file that is emptied, and then removed. The one that was published stays.
#[test]
fn tells_why_a_file_is_not_taken_anew(rt: HostRuntime) -> Result<(), Fail> {
    fs::write(&rt, PATH, "abcdefgh")?;
    let mut server = Server::new(rt.alloc(), 7);
    let mut files = vec![in rt.alloc(); Watched::new("a", PATH)]?;
    let capture = Capture::new(&rt);
    assert!(rt; publish_all(&logged(&capture), &mut server, &mut files).is_ok());
    fs::write(&rt, PATH, "")?;
    let told = told_of(&rt, &mut server, &mut files, "")?;
    assert_eq!(rt;
        told.as_str(),
        "cogserve: a isn't taken: refused 2: the file is empty\n"
    );
    fs::remove_file(&rt, PATH)?;
    let told = told_of(&rt, &mut server, &mut files, "")?;
    assert_eq!(rt;
        told.as_str(),
        "cogserve: a isn't taken: can't read served_files_tests_logged: No such file or directory (os error 2)\n"
    );
    assert!(rt; server.file(b"a") == Some(b"abcdefgh".as_slice()));
    Ok(())
}

#[test]
fn tells_the_port_that_the_system_gave(rt: HostRuntime) -> Result<(), Fail> {
    let capture = Capture::new(&rt);
    let Ok(listener) = listen(&logged(&capture), "127.0.0.1:0") else {
        return Err(Fail::new("not listening"));
    };
    let want = format!(in rt.alloc(); "cogserve: listening at {}\n", listener.local_addr()?)?;
    let (out, err) = capture.into_texts();
    assert_eq!(rt; out.as_slice(), b"listening 127.0.0.1:0\n".as_slice());
    assert_eq!(rt; without_times(rt.alloc(), &err)?.as_str(), want.as_str());
    Ok(())
}

/// Expects that with a log a closed standard output ends no server. Without a log it ends the server before it listens.
#[test]
fn serves_with_a_log_where_standard_output_is_closed(rt: HostRuntime) -> Result<(), Fail> {
    let capture = Capture::closed(&rt);
    let path = "served_files_tests_closed";
    fs::write(&rt, path, "abcdefgh")?;
    let mut server = Server::new(rt.alloc(), 7);
    let mut files = vec![in rt.alloc(); Watched::new("a", path)]?;
    assert!(rt; publish_all(&logged(&capture), &mut server, &mut files).is_ok());
    assert!(rt; listen(&logged(&capture), "127.0.0.1:0").is_ok());
    let log = AccessLog {
        rt: &capture,
        is_kept: false,
    };
    let published = publish_all(&log, &mut server, &mut files);
    assert!(rt; matches!(published, Err(ServeFilesError::CantWrite(_))));
    assert!(rt;
        matches!(
            listen(&log, "127.0.0.1:0"),
            Err(ServeFilesError::CantWrite(_))
        )
    );
    fs::remove_file(&rt, path)?;
    Ok(())
}
