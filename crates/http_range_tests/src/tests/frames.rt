//! Where answers end, and whether their connections do (RFC 9112, sections 6.3, 9.3 and 9.6).
use assertion_support::expect_eq;
use http_range::{Frame, Why, read_frame};
use std::test::Fail;

/// The head of a part of 4 bytes, with further fields.
macro_rules! part {
    ($line:literal, $more:literal) => {
        concat!($line, "\r\nETag: \"1\"\r\nContent-Range: bytes 0-3/9\r\nContent-Length: 4\r\n", $more, "\r\n")
    };
}

/// A row has a front of an answer, and what is read of it. That is the status, the length of the body, whether the connection ends, and
/// whether the answer is an interim one.
type Row = (&'static str, Result<(u16, Option<u64>, bool, bool), Why>);

const ROWS: [Row; 15] = [
    (
        part!("HTTP/1.1 206 Partial Content", ""),
        Ok((206, Some(4), false, false)),
    ),
    (
        part!("HTTP/1.1 206 Partial Content", "Connection: keep-alive\r\n"),
        Ok((206, Some(4), false, false)),
    ),
    (
        part!("HTTP/1.1 206 Partial Content", "Connection: Close\r\n"),
        Ok((206, Some(4), true, false)),
    ),
    (
        part!("HTTP/1.0 206 Partial Content", ""),
        Ok((206, Some(4), true, false)),
    ),
    (
        part!(
            "HTTP/1.1 206 Partial Content",
            "Transfer-Encoding: chunked\r\n"
        ),
        Ok((206, None, true, false)),
    ),
    (
        part!("HTTP/1.1 206 Partial Content", "Content-Encoding: gzip\r\n"),
        Ok((206, None, true, false)),
    ),
    (
        part!("HTTP/1.1 206 Partial Content", "Content-Length: 4\r\n"),
        Ok((206, None, true, false)),
    ),
    (
        "HTTP/1.1 200 OK\r\nETag: \"1\"\r\nContent-Length: 0\r\n\r\nmore",
        Ok((200, Some(0), false, false)),
    ),
    (
        "HTTP/1.1 404 Not Found\r\nContent-Length: 0\r\n\r\n",
        Ok((404, None, true, false)),
    ),
    (
        "HTTP/1.1 408 Request Timeout\r\n\r\n",
        Ok((408, None, true, false)),
    ),
    (
        "HTTP/1.1 100 Continue\r\n\r\nHTTP",
        Ok((100, None, true, true)),
    ),
    ("HTTP/1.1 199 X\r\n\r\n", Ok((199, None, true, true))),
    (
        "HTTP/1.1 101 Switching Protocols\r\n\r\n",
        Ok((101, None, true, false)),
    ),
    ("HTTP/1.1 206 Partial Content\r\nETag", Err(Why::Cut)),
    (
        "HTTP/1.1 206 Partial Content\r\nContent-Length : 4\r\n\r\n",
        Err(Why::Head),
    ),
];

/// Returns what a row names of a frame.
fn told(read: Result<Frame, Why>) -> Result<(u16, Option<u64>, bool, bool), Why> {
    let frame = read?;
    Ok((frame.status, frame.length, frame.closes, frame.is_interim()))
}

#[test]
fn reads_where_answers_end(rt: HostRuntime) -> Result<(), Fail> {
    for (front, want) in &ROWS {
        expect_eq!(rt; told(read_frame(front.as_bytes())), *want, "{front:?}");
    }
    Ok(())
}

/// Expects the size of a head alone, whatever follows it.
#[test]
fn reads_the_size_of_a_head(rt: HostRuntime) -> Result<(), Fail> {
    let read = read_frame(b"HTTP/1.1 100 Continue\r\n\r\nHTTP/1.1 200 OK\r\n\r\n");
    expect_eq!(rt; read.map(|frame| frame.size), Ok(25));
    Ok(())
}
