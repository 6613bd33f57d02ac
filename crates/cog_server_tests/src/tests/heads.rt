//! Heads in other forms than the usual one, from their bytes to the answer, by a call and on a stream.
use super::answers::{FIRST, Row, WHOLE, server_of_f1};
use super::refusals::{BAD, expect_answers};
use super::streams::{ASKS_FIRST, expect_served};
use cog_server::{Ended, Served};
use std::test::Fail;

/// A head with a folded line.
const FOLDED: &str = "GET /a HTTP/1.1\r\nHost: h\r\n x\r\n\r\n";

/// Rows of heads that break the grammar within a field line.
#[rattlefmt::skip]
const BROKEN_LINES: [Row<'static>; 9] = [
    (FOLDED, BAD),
    ("GET /a HTTP/1.1\r\nHost: h\r\n\tx\r\n\r\n", BAD),
    ("GET /a HTTP/1.1\r\nHost : h\r\n\r\n", BAD),
    ("GET /a HTTP/1.1\r\nHost: h\r\nRange : bytes=0-0\r\n\r\n", BAD),
    ("GET /a HTTP/1.1\r\nHost: h\rx\r\n\r\n", BAD),
    ("GET /a HTTP/1.1\r\nHost: h\r\nX: \rRange: bytes=0-0\r\n\r\n", BAD),
    ("GET /a HTTP/1.1\r\nHost: h\0\r\n\r\n", BAD),
    ("GET /a HTTP/1.1\r\nHost: h\0x\r\n\r\n", BAD),
    ("GET /a HTTP/1.1\r\nHost: h\r\nX\0: x\r\n\r\n", BAD),
];

/// Rows of heads with lines that end with LF alone. The answers are those of the same heads with CR LF.
#[rattlefmt::skip]
const LINES_OF_LF: [Row<'static>; 4] = [
    ("GET /a HTTP/1.1\nHost: h\n\n", WHOLE),
    ("GET /a HTTP/1.1\nHost: h\nRange: bytes=0-0\n\n", FIRST),
    ("GET /a HTTP/1.1\r\nHost: h\nRange: bytes=0-0\r\n\n", FIRST),
    ("GET /a HTTP/1.1\nHost: h\r\nRange: bytes=0-0\n\r\n", FIRST),
];

#[test]
fn refuses_heads_with_a_broken_field_line(rt: HostRuntime) -> Result<(), Fail> {
    expect_answers(&rt, &BROKEN_LINES)
}

#[test]
fn takes_lf_alone_as_the_end_of_a_line(rt: HostRuntime) -> Result<(), Fail> {
    expect_answers(&rt, &LINES_OF_LF)
}

/// Expects no answer to a good head after a bad one, wherever the two are cut.
#[test]
fn closes_after_a_bad_head_whatever_follows(rt: HostRuntime) -> Result<(), Fail> {
    let server = server_of_f1(rt.alloc())?;
    let mut stream = Vec::from_slice(rt.alloc(), FOLDED.as_bytes())?;
    stream.extend_from_slice(ASKS_FIRST)?;
    let closed = Served {
        answers: 1,
        ended: Ended::Closed,
    };
    for cut in 1..stream.len() {
        expect_served(&rt, &server, &stream, &[cut], BAD.head, closed)?;
    }
    Ok(())
}
