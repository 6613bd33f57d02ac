//! Connections of `cogserve` with the lines that it prints. The file of the disk is written anew between them.
use assertion_support::expect_eq;
use cog_server::{Additions, Server};
use disk_files::Watched;
use fixtures_support::f1;
use programs::Exit;
use programs_support::Capture;
use server_files::{AccessLog, ServeFilesError, publish_all, serve_connections};
use server_sockets::Limits;
use std::io::{Read, Write};
use std::net::{Net, Shutdown, SocketAddr, TcpListener, TcpStream};
use std::num::NonZeroUsize;
use std::os::fd::OwnedFd;
use std::process::Abort;
use std::rt::{Clock, Files};
use std::test::Fail;
use std::time::Duration;
use std::{fs, io, thread};
use transports::server_of_one;

const ASK: &str = "GET /a HTTP/1.1\r\nHost: h\r\nRange: bytes=1-4\r\n\r\n";

/// Makes a log that isn't kept.
fn unlogged<R>(rt: &R) -> AccessLog<'_, R> {
    AccessLog { rt, is_kept: false }
}

/// Makes limits of `connections` connections in all, with as many at once as there may be.
pub fn limits(connections: u32) -> Limits {
    Limits {
        connections,
        at_once: NonZeroUsize::MAX,
        patience: 60_000,
    }
}

/// Makes a connection on which `text` is sent.
pub fn connect<R: Net<Stream = TcpStream>>(
    rt: &R,
    address: SocketAddr,
    text: &str,
) -> io::Result<TcpStream> {
    let mut client = TcpStream::connect(rt, address)?;
    client.write_all(text.as_bytes())?;
    client.shutdown(Shutdown::Write)?;
    Ok(client)
}

/// Returns what comes back where a request is sent and one connection is served.
fn answer_of<R>(
    rt: &R,
    server: &mut Server,
    files: &mut [Watched<'_>],
    listener: &TcpListener,
) -> Result<String, Fail>
where
    R: Files
        + Clock
        + Print
        + Eprint
        + AllocGlobal
        + Net<Listener = TcpListener, Stream = TcpStream>,
{
    let client = connect(rt, listener.local_addr()?, ASK)?;
    let mut log = unlogged(rt);
    if serve_connections(
        &mut log,
        server,
        files,
        listener.try_clone()?,
        limits(1),
        Additions::nothing(),
    )
    .is_err()
    {
        return Err(Fail::new("a fault"));
    }
    Ok(io::read_to_string(rt.alloc(), client)?)
}

/// A row has the file before a connection, or `None` where there is none. Then come the tag and the length in the answer, its body, and
/// whether the file is published anew.
type Turn = (Option<&'static str>, &'static str, u32, &'static str, bool);

const PATH: &str = "served_files_tests_served";

/// The milliseconds after which a file that was left alone isn't read again until the disk says something else of it.
const SETTLED: u64 = 2_100;

#[rattlefmt::skip]
const TURNS: [Turn; 6] = [
    (Some("abcdefgh"), "7-1", 8, "bcde", false),
    (Some("ABCDEFGHI"), "7-2", 9, "BCDE", true),
    // The same bytes come again.
    (Some("ABCDEFGHI"), "7-2", 9, "BCDE", false),
    // A file that would be refused, and no file.
    (Some(""), "7-2", 9, "BCDE", false),
    (None, "7-2", 9, "BCDE", false),
    (Some("12345"), "7-3", 5, "2345", true),
];

/// Writes the file of a turn, or removes it.
fn put_file<R: Files>(rt: &R, file: Option<&str>) -> io::Result<()> {
    match file {
        Some(text) => fs::write(rt, PATH, text),
        None => fs::remove_file(rt, PATH),
    }
}

/// Expects the answer of a turn, and the lines that are printed.
fn expect_turn<R>(
    rt: &R,
    turn: Turn,
    server: &mut Server,
    files: &mut [Watched<'_>],
    listener: &TcpListener,
) -> Result<(), Fail>
where
    R: Abort + Files + Clock + AllocGlobal + Net<Listener = TcpListener, Stream = TcpStream>,
{
    let (file, tag, length, body, is_new) = turn;
    put_file(rt, file)?;
    let capture = Capture::new(rt);
    let answer = answer_of(&capture, server, files, listener)?;
    let want = format!(in rt.alloc();
        "HTTP/1.1 206 Partial Content\r\nETag: \"{tag}\"\r\nAccept-Ranges: bytes\r\n\
        Content-Type: image/tiff\r\nContent-Range: bytes 1-4/{length}\r\nContent-Length: 4\r\n\r\n{body}"
    )?;
    assert_eq!(rt; answer.as_str(), want.as_str(), "with the file {file:?}");
    let line = format!(in rt.alloc(); "published a \"{tag}\"\n")?;
    let published = if is_new { line.as_str() } else { "" };
    let printed = format!(in rt.alloc(); "{published}served 1\n")?;
    let (out, err) = capture.into_texts();
    assert_eq!(rt;
        str::from_utf8(&out),
        Ok(printed.as_str()),
        "with the file {file:?}"
    );
    assert!(rt; err.is_empty(), "with the file {file:?}");
    Ok(())
}

/// Returns whether the files are published with these lines.
fn is_published<R: Files + Clock + AllocGlobal>(
    rt: &R,
    server: &mut Server,
    files: &mut [Watched<'_>],
    lines: &str,
) -> bool {
    let capture = Capture::new(rt);
    if publish_all(&unlogged(&capture), server, files).is_err() {
        return false;
    }
    let (out, err) = capture.into_texts();
    out.as_slice() == lines.as_bytes() && err.is_empty()
}

#[test]
fn publishes_a_file_anew_where_it_has_changed(rt: HostRuntime) -> Result<(), Fail> {
    put_file(&rt, Some("abcdefgh"))?;
    let mut files = vec![in rt.alloc(); Watched::new("a", PATH)]?;
    let mut server = Server::new(rt.alloc(), 7);
    assert!(rt; is_published(&rt, &mut server, &mut files, "published a \"7-1\"\n"));
    let listener = TcpListener::bind(&rt, "127.0.0.1:0")?;
    for turn in TURNS {
        expect_turn(&rt, turn, &mut server, &mut files, &listener)?;
    }
    fs::remove_file(&rt, PATH)?;
    Ok(())
}

/// Expects that each connection is counted, also one that ends without a request, or with one that is refused.
#[test]
fn counts_each_connection(rt: HostRuntime) -> Result<(), Fail> {
    let mut server = Server::new(rt.alloc(), 1);
    let listener = TcpListener::bind(&rt, "127.0.0.1:0")?;
    let address = listener.local_addr()?;
    let _silent = connect(&rt, address, "")?;
    let _refused = connect(&rt, address, "\r\n?\r\n\r\n")?;
    let _asking = connect(&rt, address, ASK)?;
    let capture = Capture::new(&rt);
    let mut log = unlogged(&capture);
    assert!(rt;
        serve_connections(
            &mut log,
            &mut server,
            &mut [],
            listener,
            limits(3),
            Additions::nothing()
        )
        .is_ok()
    );
    assert_eq!(rt;
        capture.into_texts().0.as_slice(),
        b"served 1\nserved 2\nserved 3\n".as_slice()
    );
    Ok(())
}

const LAST: &str = "GET /a HTTP/1.1\r\nHost: h\r\nRange: bytes=1-4\r\nConnection: close\r\n\r\n";

/// Expects that a client that stays after its last answer, and does nothing, holds the server for two seconds, and not for ten.
#[test]
fn ends_where_a_client_stays(rt: HostRuntime) -> Result<(), Fail> {
    let mut server = server_of_one(rt.alloc(), 1, b"a", f1(rt.alloc())?)?;
    let listener = TcpListener::bind(&rt, "127.0.0.1:0")?;
    let mut client = TcpStream::connect(&rt, listener.local_addr()?)?;
    client.write_all(LAST.as_bytes())?;
    let capture = Capture::new(&rt);
    let mut log = unlogged(&capture);
    let limit = rt.monotonic()?.saturating_add(Duration::from_secs(10));
    assert!(rt;
        serve_connections(
            &mut log,
            &mut server,
            &mut [],
            listener,
            limits(1),
            Additions::nothing()
        )
        .is_ok()
    );
    assert!(rt; rt.monotonic()? < limit);
    let answer = io::read_to_string(rt.alloc(), client)?;
    assert!(rt;
        answer
            .as_str()
            .starts_with("HTTP/1.1 206 Partial Content\r\n")
    );
    assert!(rt; answer.as_str().ends_with("\r\n\r\nI*\0\x08"));
    Ok(())
}

/// Expects that a line that can't be written is lost, and the server goes on.
#[test]
fn serves_on_where_standard_output_is_closed(rt: HostRuntime) -> Result<(), Fail> {
    let mut server = Server::new(rt.alloc(), 1);
    let listener = TcpListener::bind(&rt, "127.0.0.1:0")?;
    let address = listener.local_addr()?;
    let _first = connect(&rt, address, ASK)?;
    let _second = connect(&rt, address, ASK)?;
    let capture = Capture::closed(&rt);
    let mut log = unlogged(&capture);
    assert!(rt;
        serve_connections(
            &mut log,
            &mut server,
            &mut [],
            listener,
            limits(2),
            Additions::nothing()
        )
        .is_ok()
    );
    assert!(rt; capture.into_texts().0.is_empty());
    Ok(())
}

/// Expects that two files of one name are both published, and that only the last is looked at again.
#[test]
fn looks_again_at_the_last_file_of_a_name_alone(rt: HostRuntime) -> Result<(), Fail> {
    fs::write(&rt, "served_files_tests_first", "12345")?;
    fs::write(&rt, "served_files_tests_last", "abcde")?;
    let mut files = vec![in rt.alloc();
        Watched::new("a", "served_files_tests_first"),
        Watched::new("a", "served_files_tests_last"),
    ]?;
    let mut server = Server::new(rt.alloc(), 7);
    let lines = "published a \"7-1\"\npublished a \"7-2\"\n";
    assert!(rt; is_published(&rt, &mut server, &mut files, lines));
    fs::write(&rt, "served_files_tests_first", "changed")?;
    let listener = TcpListener::bind(&rt, "127.0.0.1:0")?;
    let capture = Capture::new(&rt);
    let answer = answer_of(&capture, &mut server, &mut files, &listener)?;
    assert!(rt; answer.as_str().ends_with("\r\n\r\nbcde"));
    assert_eq!(rt; capture.into_texts().0.as_slice(), b"served 1\n".as_slice());
    fs::remove_file(&rt, "served_files_tests_first")?;
    fs::remove_file(&rt, "served_files_tests_last")?;
    Ok(())
}

/// Expects that a file that is replaced by one of its length is served. Each is left alone until a change of it shows in what the disk
/// says.
#[test]
fn serves_a_file_that_was_replaced_before(rt: HostRuntime) -> Result<(), Fail> {
    let (path, other) = ("served_files_tests_replaced", "served_files_tests_other");
    fs::write(&rt, path, "12345")?;
    fs::write(&rt, other, "abcde")?;
    thread::sleep(&rt, Duration::from_millis(SETTLED));
    let mut files = vec![in rt.alloc(); Watched::new("a", path)]?;
    let mut server = Server::new(rt.alloc(), 7);
    assert!(rt; is_published(&rt, &mut server, &mut files, "published a \"7-1\"\n"));
    fs::rename(&rt, other, path)?;
    thread::sleep(&rt, Duration::from_millis(SETTLED));
    let listener = TcpListener::bind(&rt, "127.0.0.1:0")?;
    let capture = Capture::new(&rt);
    let answer = answer_of(&capture, &mut server, &mut files, &listener)?;
    fs::remove_file(&rt, path)?;
    assert!(rt; answer.as_str().ends_with("\r\n\r\nbcde"));
    let printed = b"published a \"7-2\"\nserved 1\n".as_slice();
    assert_eq!(rt; capture.into_texts().0.as_slice(), printed);
    Ok(())
}

#[test]
fn publishes_the_bytes_of_the_file(rt: HostRuntime) -> Result<(), Fail> {
    let file = f1(rt.alloc())?;
    fs::write(&rt, "served_files_tests_fixture", &file)?;
    let mut files = vec![in rt.alloc(); Watched::new("a", "served_files_tests_fixture")]?;
    let mut server = Server::new(rt.alloc(), 1);
    assert!(rt; is_published(&rt, &mut server, &mut files, "published a \"1-1\"\n"));
    assert!(rt; server.file(b"a") == Some(file.as_slice()));
    fs::remove_file(&rt, "served_files_tests_fixture")?;
    Ok(())
}

/// Expects that a server ends where its listener is a stream, which accepts no connection.
#[test]
fn ends_where_no_connection_is_accepted(rt: HostRuntime) -> Result<(), Fail> {
    let listener = TcpListener::bind(&rt, "127.0.0.1:0")?;
    let stream = TcpStream::connect(&rt, listener.local_addr()?)?;
    let deaf = TcpListener::from(OwnedFd::from(stream));
    let capture = Capture::new(&rt);
    let mut server = Server::new(rt.alloc(), 1);
    let mut log = unlogged(&capture);
    let served = serve_connections(
        &mut log,
        &mut server,
        &mut [],
        deaf,
        limits(1),
        Additions::nothing(),
    );
    let Err(error) = served else {
        return Err(Fail::from("it accepts"));
    };
    assert!(rt; matches!(error, ServeFilesError::CantAccept(_)));
    let told = format!(in rt.alloc(); "{error}")?;
    assert!(rt; told.as_str().starts_with("can't accept: "), "{told}");
    let (out, _) = capture.into_texts();
    assert!(rt; out.is_empty());
    expect_eq!(rt; Exit::CantAccept.status(), 1);
    Ok(())
}
