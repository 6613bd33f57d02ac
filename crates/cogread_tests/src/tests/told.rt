//! `cogread --verbose` prints a line for each exchange, and why there is no window. The time of an exchange is any number.
//! `cogread --progress` prints how far the exchanges have come.
ghost use Rattle.std.specs.Prelude.{◌+◌, ◌^◌, ◌<◌};

use assertion_support::expect_eq;
use cog_client::{Client, Lost, Pieces, Query, Transport};
use cog_server::Server;
use fixtures_support::f1;
use programs::Exit;
use programs_support::{Capture, tell};
use read_command::{Asked, Exchanges};
use read_progress::{Noted, NotedNet, Printing, Verbosity};
use std::alloc::{AllocError, Global};
use std::process::Abort;
use std::rt::Clock;
use std::test::Fail;
use tiff_dir::Pick;
use transports::{Fate, InMemory, InPieces, Scripted, server_of_one};

/// Returns a text in which the time of each exchange is written `T ms`.
fn without_times(alloc: Global, text: &str) -> Result<String, AllocError> {
    let mut told = String::new(alloc);
    for line in text.split_inclusive('\n') {
        match line.split_once(" ms: ") {
            Some((front, what)) => {
                let (front, _) = front.rsplit_once(' ').unwrap_or((front, ""));
                told.push_str(front)?;
                told.push_str(" T ms: ")?;
                told.push_str(what)?;
            }
            None => told.push_str(line)?,
        }
    }
    Ok(told)
}

/// The sizes of the pieces in which answers come.
const SIZES: [usize; 3] = [1, 170, 4096];

/// Asks a query of a source, in at most three exchanges, and prints lines about it.
fn ask_and_tell<R: Print + Eprint + AllocGlobal + Clock, P: Pieces + Drop>(
    rt: &R,
    pieces: P,
    query: Query,
    verbosity: Verbosity,
) -> Result<(), Fail>
    requires { P.count pieces + 3 < 2 ^ 64 }
{
    let mut client = Client::new(rt.alloc(), b"cog.test", b"a", 66)?;
    let net = NotedNet::new(rt);
    let printing = Printing {
        rt,
        net: &net,
        verbosity,
    };
    let mut noted = Noted::new(rt.alloc(), pieces, printing);
    let exchanges = Exchanges {
        rt,
        requests: 3,
        is_url: false,
    };
    if let Err(error) = exchanges.text(&mut client, &mut noted, Asked::Query(query)) {
        Exit::from(error).tell(rt, "cogread");
    }
    Ok(())
}

/// Returns what was printed on standard error.
fn told_in<R: AllocGlobal>(capture: Capture<'_, R>) -> Result<String, AllocError> {
    let alloc = capture.alloc();
    let (_, err) = capture.into_texts();
    without_times(alloc, str::from_utf8(&err).unwrap_or("?"))
}

/// Returns what is printed about a query of a server in memory, whose answers have these fates.
fn told_of<R: AllocGlobal + Clock>(
    capture: Capture<'_, R>,
    server: &Server,
    query: Query,
    fates: &[Fate],
    verbosity: Verbosity,
) -> Result<String, Fail> {
    let lossy = Scripted::new(InMemory::new(server, b"a"), fates);
    let pieces = InPieces::new(capture.alloc(), lossy, &SIZES);
    ask_and_tell(&capture, pieces, query, verbosity)?;
    Ok(told_in(capture)?)
}

/// Makes a query of the window of one pixel, in column `x`.
fn pixel(x: u32) -> Query {
    let (y, w, h, pick) = (0, 1, 1, Pick::Level(0));
    Query::Window { x, y, w, h, pick }
}

/// A row has the fates of the answers, the column of the pixel that is asked for, and what is printed. An answer has a head of 165 bytes,
/// and 378 bytes of the file.
#[rattlefmt::skip]
const TOLD: [(&[Fate], u32, &str); 4] = [
    (&[Fate::Whole], 1, "cogread: GET /a bytes=0-65535: 206, 543 bytes, T ms: 378 bytes of the file, tag \"1-1\"\n"),
    (
        &[Fate::Lost, Fate::Cut(3), Fate::Cut(0)], 1,
        "cogread: GET /a bytes=0-65535: 0 bytes, T ms: no connection: the server isn't HOST:PORT, or it broke\n\
        cogread: GET /a bytes=0-65535: 3 bytes, T ms: the answer ends inside its head\n\
        cogread: GET /a bytes=0-65535: 0 bytes, T ms: no answer came\n\
        cogread: no report, and --requests allows no more than 3\n\
        cogread: no report\n",
    ),
    (
        &[Fate::Cut(173), Fate::Whole], 1,
        "cogread: GET /a bytes=0-65535: 206, 173 bytes, T ms: 8 bytes of the file, tag \"1-1\"; the connection broke before 378\n\
        cogread: GET /a bytes=0-377: 206, 543 bytes, T ms: 378 bytes of the file, tag \"1-1\"\n",
    ),
    (
        &[Fate::Whole], 16,
        "cogread: GET /a bytes=0-65535: 206, 543 bytes, T ms: 378 bytes of the file, tag \"1-1\"\n\
        cogread: the window is empty or passes its level, there is no such level, or 0 columns are asked for\n\
        cogread: fault 14\n",
    ),
];

#[test]
fn tells_each_exchange(rt: HostRuntime) -> Result<(), Fail> {
    let server = server_of_one(rt.alloc(), 1, b"a", f1(rt.alloc())?)?;
    for (fates, x, want) in TOLD {
        let told = told_of(Capture::new(&rt), &server, pixel(x), fates, Verbosity::Each)?;
        assert_eq!(rt; told.as_str(), want);
    }
    Ok(())
}

/// A server that answers each request by this text.
#[derive(Drop)]
struct Says {
    alloc: Global,
    text: &'static [u8],
    exchanges: u64,
}

impl Transport for Says {
    ghost speaks_for = { λ _ _. ⊥ };

    ghost count = { λ s. s.exchanges };

    fn exchange(&mut self, _request: &[u8]) -> Result<Vec<u8>, Lost> {
        self.exchanges += 1;
        Vec::from_slice(self.alloc, self.text).map_err(|_| Lost)
    }

    fn exchanges(&self) -> u64 {
        self.exchanges
    }
}

/// A row has what a server says, and what is printed about each exchange. A status is three digits (RFC 9112, section 4): no other byte is
/// printed as one. Control characters of a tag aren't printed as they came.
const SAID: [(&[u8], &str); 6] = [
    (
        b"HTTP/1.1 206 Partial Content\r\nETag: \"\xc2\x9b1\"\r\nContent-Range: bytes 0-2/9\r\nContent-Length: 3\r\n\r\nabc",
        "206, 95 bytes, T ms: 3 bytes of the file, tag \"\\u{9b}1\"\n",
    ),
    (
        b"HTTP/1.1 404 Not Found\r\nContent-Length: 0\r\n\r\n",
        "404, 45 bytes, T ms: 404: the server has no such file\n",
    ),
    (
        b"HTTP/1.0 404 Not Found\r\nContent-Length: 0\r\n\r\n",
        "404, 45 bytes, T ms: 404: the server has no such file\n",
    ),
    (
        b"HTTP/1.1 2\x1bc\r\nContent-Length: 0\r\n\r\n",
        "35 bytes, T ms: no head of HTTP/1.1 in 4096 bytes, or more than 32 fields\n",
    ),
    (
        b"HTTP/1.1 20",
        "11 bytes, T ms: the answer ends inside its head\n",
    ),
    (
        b"HTTP/1.1 206",
        "206, 12 bytes, T ms: the answer ends inside its head\n",
    ),
];

/// Expects these lines about three exchanges, and that no report came.
fn expect_said<R: Abort + AllocGlobal + Clock>(
    rt: &R,
    text: &'static [u8],
    want: &str,
) -> Result<(), Fail> {
    let capture = Capture::new(rt);
    let alloc = capture.alloc();
    let says = Says {
        alloc,
        text,
        exchanges: 0,
    };
    ask_and_tell(
        &capture,
        InPieces::new(alloc, says, &SIZES),
        pixel(1),
        Verbosity::Each,
    )?;
    let told = told_in(capture)?;
    let line = format!(in alloc; "cogread: GET /a bytes=0-65535: {want}")?;
    assert!(rt; told.as_str().starts_with(line.as_str()), "{told}");
    Ok(())
}

#[test]
fn tells_what_a_terminal_may_see(rt: HostRuntime) -> Result<(), Fail> {
    for (text, want) in SAID {
        expect_said(&rt, text, want)?;
    }
    Ok(())
}

/// A row has the fates of the answers, the column of the pixel, and what is drawn.
#[rattlefmt::skip]
const DRAWN: [(&[Fate], u32, &str); 3] = [
    (
        &[Fate::Cut(173), Fate::Whole], 1,
        "\rcogread: 1 of 1 ranges, 173 bytes\rcogread: 2 of 2 ranges, 716 bytes\n",
    ),
    (
        &[Fate::Lost, Fate::Cut(3), Fate::Cut(0)], 1,
        "\rcogread: 0 of 1 ranges, 0 bytes\rcogread: 0 of 2 ranges, 3 bytes\rcogread: 0 of 3 ranges, 3 bytes\n\
        cogread: no report\n",
    ),
    (&[Fate::Whole], 16, "\rcogread: 1 of 1 ranges, 543 bytes\ncogread: fault 14\n"),
];

#[test]
fn draws_how_far_the_exchanges_have_come(rt: HostRuntime) -> Result<(), Fail> {
    let server = server_of_one(rt.alloc(), 1, b"a", f1(rt.alloc())?)?;
    for (fates, x, want) in DRAWN {
        let told = told_of(
            Capture::new(&rt),
            &server,
            pixel(x),
            fates,
            Verbosity::Progress,
        )?;
        assert_eq!(rt; told.as_str(), want);
    }
    Ok(())
}

/// A row has words with an address where nobody listens, or with one that is no server's, what is printed, and the status.
#[rattlefmt::skip]
const NOWHERE: [(&[&str], &str, u8); 3] = [
    (
        &["cogread", "info", "127.0.0.1:1", "a", "--verbose", "--requests", "1"],
        "cogread: GET /a bytes=0-65535: 0 bytes, T ms: no connection: Connection refused (os error 111)\n\
        cogread: no report, and --requests allows no more than 1\n\
        cogread: no report\n",
        4,
    ),
    (
        &["cogread", "info", "[::1]:1", "a", "--verbose"],
        "cogread: the server is 1 to 64 letters, digits, '.', '-' and ':', and no address in brackets\ncogread: refused 1\n",
        2,
    ),
    (
        &["cogread", "info", "h:1", "a?", "--verbose"],
        "cogread: the name is 1 to 200 of A-Z a-z 0-9 . _ - /\ncogread: refused 2\n",
        2,
    ),
];

#[test]
fn tells_why_no_connection_is_made(rt: HostRuntime) -> Result<(), Fail> {
    for (words, want, status) in NOWHERE {
        let told = tell(&rt, words)?;
        let err = without_times(rt.alloc(), str::from_utf8(&told.err).unwrap_or("?"))?;
        assert_eq!(rt; err.as_str(), want);
        assert!(rt; told.out.is_empty());
        expect_eq!(rt; told.status, status);
    }
    Ok(())
}
