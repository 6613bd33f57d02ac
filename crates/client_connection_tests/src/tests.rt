//! Bytes that come on a connection, and the answers that are made of them.
use assertion_support::expect_eq;
use client_connection::{ClientConnection, Part, Turn};
use std::alloc::Global;
use std::process::Abort;
use std::test::Fail;

/// An answer with a body of four bytes.
macro_rules! answer {
    ($line:literal, $more:literal, $body:literal) => {
        concat!($line, "\r\nETag: \"1\"\r\nContent-Range: bytes 0-3/9\r\nContent-Length: 4\r\n", $more, "\r\n", $body)
    };
}

const ANSWER: &str = answer!("HTTP/1.1 206 Partial Content", "", "abcd");

const CLOSING: &str = answer!(
    "HTTP/1.1 206 Partial Content",
    "Connection: close\r\n",
    "abcd"
);

const OLDER: &str = answer!("HTTP/1.0 206 Partial Content", "", "abcd");

const CODED: &str = answer!(
    "HTTP/1.1 206 Partial Content",
    "Content-Encoding: gzip\r\n",
    "abcd"
);

const CONTINUE: &str = "HTTP/1.1 100 Continue\r\n\r\n";

const MISSING: &str = "HTTP/1.1 404 Not Found\r\nContent-Length: 0\r\n\r\n";

const TIMEOUT: &str = "HTTP/1.1 408 Request Timeout\r\nContent-Length: 0\r\n\r\n";

/// Connects, and writes the first request.
fn connect(end: &mut ClientConnection) -> Result<(), Fail> {
    if end.is_open() {
        end.end();
    }
    end.opened()?;
    let count = end.waiting().len();
    end.wrote(count);
    Ok(())
}

/// The text of an answer, and the last part of it.
#[derive(Drop)]
struct Heard {
    text: Vec<u8>,
    last: Part,
}

/// Takes bytes in pieces of at most `size`, until an answer is whole or the connection is over. Returns the answer, and how many bytes were
/// left.
fn hear(
    alloc: Global,
    end: &mut ClientConnection,
    bytes: &[u8],
    size: usize,
) -> Result<(Heard, usize), Fail> {
    let mut heard = Heard {
        text: Vec::new(alloc),
        last: Part::Head,
    };
    let mut rest = bytes;
    for _ in 0..bytes.len() {
        if rest.is_empty() || !end.is_open() || end.left() == Some(0) {
            break;
        }
        let taken = end.came(&rest[..rest.len().min(size.max(1))])?;
        heard.last = taken.part;
        match taken.part {
            Part::Begun => heard.text.extend_from_slice(end.head())?,
            Part::Body => heard.text.extend_from_slice(&rest[..taken.count])?,
            _ => {}
        }
        rest = &rest[taken.count..];
    }
    Ok((heard, rest.len()))
}

/// A row has an answer, and whether its connection was kept. Then come the answer's last part, the bytes of the body that are still to
/// come, and whether the connection goes on after it.
type Row = (&'static str, bool, Part, Option<u64>, bool);

const ROWS: [Row; 12] = [
    (ANSWER, false, Part::Body, Some(0), true),
    (ANSWER, true, Part::Body, Some(0), true),
    (CLOSING, true, Part::Body, Some(0), false),
    (OLDER, true, Part::Body, Some(0), false),
    (CODED, true, Part::Begun, Some(0), false),
    (MISSING, true, Part::Begun, Some(0), false),
    (TIMEOUT, false, Part::Begun, Some(0), false),
    (TIMEOUT, true, Part::Again, None, false),
    ("unasked", false, Part::Refused, None, false),
    ("unasked", true, Part::Again, None, false),
    (CONTINUE, false, Part::Interim, None, true),
    ("HTTP/1.1 20", true, Part::Head, None, true),
];

/// Brings a connection to its first request, or, where it is kept, to the one after an answer.
fn begin(alloc: Global, end: &mut ClientConnection, kept: bool) -> Result<(), Fail> {
    end.ask(b"first")?;
    connect(end)?;
    if kept {
        hear(alloc, end, ANSWER.as_bytes(), 4096)?;
        if end.left() == Some(0) {
            end.finish();
        }
        end.ask(b"second")?;
    }
    Ok(())
}

#[test]
fn takes_each_answer_to_its_end(rt: HostRuntime) -> Result<(), Fail> {
    let alloc = rt.alloc();
    for (text, kept, part, left, goes_on) in &ROWS {
        let mut end = ClientConnection::new(alloc);
        begin(alloc, &mut end, *kept)?;
        let (heard, _) = hear(alloc, &mut end, text.as_bytes(), 4096)?;
        expect_eq!(rt; heard.last, *part, "{text:?} {kept}");
        expect_eq!(rt; end.left(), *left, "{text:?} {kept}");
        if end.left() == Some(0) {
            end.finish();
        }
        expect_eq!(rt; end.is_open(), *goes_on, "{text:?} {kept}");
    }
    Ok(())
}

/// Sends a third request early.
fn send_third(end: &mut ClientConnection) -> Result<(), Fail> {
    if end.is_open() {
        end.send_early(b"third")?;
    }
    Ok(())
}

/// Answers to two requests, of which the second was sent early. Interim answers stand before them.
const BOTH: &str = concat!(
    "HTTP/1.1 100 Continue\r\n\r\nHTTP/1.1 103 Early Hints\r\n\r\n",
    "HTTP/1.1 206 Partial Content\r\nETag: \"1\"\r\nContent-Range: bytes 0-3/9\r\nContent-Length: 4\r\n\r\nabcd",
    "HTTP/1.1 100 Continue\r\n\r\n",
    "HTTP/1.1 206 Partial Content\r\nETag: \"1\"\r\nContent-Range: bytes 4-8/9\r\nContent-Length: 5\r\n\r\nefghi",
);

const FIRST: &str =
    "HTTP/1.1 206 Partial Content\r\nETag: \"1\"\r\nContent-Range: bytes 0-3/9\r\nContent-Length: 4\r\n\r\nabcd";

const SECOND: &str =
    "HTTP/1.1 206 Partial Content\r\nETag: \"1\"\r\nContent-Range: bytes 4-8/9\r\nContent-Length: 5\r\n\r\nefghi";

/// Takes the next answer of the bytes that came, and ends it.
fn hear_next(
    rt: &(impl Abort + AllocGlobal),
    end: &mut ClientConnection,
    bytes: &[u8],
    size: usize,
    want: &str,
) -> Result<usize, Fail> {
    let (heard, left) = hear(rt.alloc(), end, bytes, size)?;
    expect_eq!(rt; heard.text.as_slice() == want.as_bytes(), true, "in pieces of {size}");
    if end.left() == Some(0) {
        end.finish();
    }
    Ok(left)
}

#[test]
fn takes_the_same_answers_in_pieces_of_any_size(rt: HostRuntime) -> Result<(), Fail> {
    let alloc = rt.alloc();
    for size in 1..BOTH.len() + 2 {
        let mut end = ClientConnection::new(alloc);
        begin(alloc, &mut end, true)?;
        send_third(&mut end)?;
        let left = hear_next(&rt, &mut end, BOTH.as_bytes(), size, FIRST)?;
        expect_eq!(rt; end.ask(b"third"), Ok(Turn::Sent));
        let rest = &BOTH.as_bytes()[BOTH.len().saturating_sub(left)..];
        hear_next(&rt, &mut end, rest, size, SECOND)?;
    }
    Ok(())
}

/// Expects that sixteen interim answers are dropped, and that the one after them is refused.
#[test]
fn drops_sixteen_interim_answers(rt: HostRuntime) -> Result<(), Fail> {
    let mut end = ClientConnection::new(rt.alloc());
    begin(rt.alloc(), &mut end, false)?;
    for _ in 0..16 {
        let (heard, _) = hear(rt.alloc(), &mut end, CONTINUE.as_bytes(), 4096)?;
        expect_eq!(rt; heard.last, Part::Interim);
    }
    let (heard, _) = hear(rt.alloc(), &mut end, CONTINUE.as_bytes(), 4096)?;
    expect_eq!(rt; heard.last, Part::Refused);
    expect_eq!(rt; end.is_open(), false);
    Ok(())
}

/// Expects that a request that was sent early has its turn on a kept connection, and that another one doesn't.
#[test]
fn gives_requests_their_turn(rt: HostRuntime) -> Result<(), Fail> {
    let mut end = ClientConnection::new(rt.alloc());
    expect_eq!(rt; end.ask(b"first"), Ok(Turn::Anew));
    begin(rt.alloc(), &mut end, true)?;
    expect_eq!(rt; end.waiting() == b"second".as_slice(), true);
    let early = vec![in rt.alloc(); Vec::from_slice(rt.alloc(), b"third")?]?;
    expect_eq!(rt; end.unsent(&early).len(), 1);
    send_third(&mut end)?;
    expect_eq!(rt; end.unsent(&early).len(), 0);
    expect_eq!(rt; end.is_asked(), true);
    expect_eq!(rt; end.ask(b"fourth"), Ok(Turn::Anew));
    expect_eq!(rt; end.is_open(), false);
    Ok(())
}

/// Expects that a request is sent once more, and not twice, where its connection was kept and no byte of the answer came.
#[test]
fn sends_a_request_once_more(rt: HostRuntime) -> Result<(), Fail> {
    let mut end = ClientConnection::new(rt.alloc());
    begin(rt.alloc(), &mut end, true)?;
    expect_eq!(rt; end.gone(), true);
    end.opened()?;
    expect_eq!(rt; end.waiting() == b"second".as_slice(), true);
    expect_eq!(rt; end.gone(), false);
    begin(rt.alloc(), &mut end, true)?;
    hear(rt.alloc(), &mut end, b"HTTP/1.1 2", 3)?;
    expect_eq!(rt; end.gone(), false);
    expect_eq!(rt; end.head() == b"HTTP/1.1 2".as_slice(), true);
    Ok(())
}
