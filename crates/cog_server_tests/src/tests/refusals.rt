//! Answers to requests that aren't served, and to HEAD.
use super::answers::{Row, WHOLE, Want, expect_answer, expect_called, server_of_f1};
use super::streams::expect_served;
use cog_server::{Ended, Served};
use std::process::Abort;
use std::test::Fail;

/// An answer without a body and without a tag. It leaves the connection open.
pub const BARE: Want = Want {
    head: b"",
    status: 0,
    close: false,
    named: false,
    from: 0,
    to: 0,
};

#[rattlefmt::skip]
pub const BAD: Want = Want { head: b"HTTP/1.1 400 Bad Request\r\nContent-Length: 0\r\nConnection: close\r\n\r\n", status: 400, close: true, ..BARE };

#[rattlefmt::skip]
const OTHER_METHOD: Want = Want { head: b"HTTP/1.1 405 Method Not Allowed\r\nAllow: GET, HEAD\r\nContent-Length: 0\r\n\r\n", status: 405, ..BARE };

#[rattlefmt::skip]
pub const UNKNOWN: Want = Want { head: b"HTTP/1.1 404 Not Found\r\nContent-Length: 0\r\n\r\n", status: 404, ..BARE };

#[rattlefmt::skip]
const UNKNOWN_AND_CLOSED: Want = Want { head: b"HTTP/1.1 404 Not Found\r\nContent-Length: 0\r\nConnection: close\r\n\r\n", close: true, ..UNKNOWN };

/// The head of the answer with the whole file, and no body.
const HEAD_OF_THE_FILE: Want = Want { to: 0, ..WHOLE };

/// Rows of messages that are no request of HTTP/1.1 for a file.
#[rattlefmt::skip]
const NO_REQUESTS: [Row<'static>; 7] = [
    ("GET /a\r\n\r\n", BAD),
    ("GET /a HTTP/1.0\r\nHost: h\r\n\r\n", BAD),
    ("GET /a HTTP/1.1\r\n\r\n", BAD),
    ("GET /a HTTP/1.1\r\nHost: h\r\nhost: h\r\n\r\n", BAD),
    ("GET /a HTTP/1.1\r\nHost: h\r\nContent-Length: 0\r\n\r\n", BAD),
    ("GET /a HTTP/1.1\r\nHost: h\r\nTransfer-Encoding: chunked\r\n\r\n", BAD),
    ("GET http://h/a HTTP/1.1\r\nHost: h\r\n\r\n", BAD),
];

/// Rows of requests by another method.
#[rattlefmt::skip]
const OTHER_METHODS: [Row<'static>; 2] = [
    ("DELETE /a HTTP/1.1\r\nHost: h\r\n\r\n", OTHER_METHOD),
    ("get http://h/a HTTP/1.1\r\nHost: h\r\n\r\n", OTHER_METHOD),
];

/// Rows of requests for names that no file has.
#[rattlefmt::skip]
const OTHER_NAMES: [Row<'static>; 4] = [
    ("GET /b HTTP/1.1\r\nHost: h\r\n\r\n", UNKNOWN),
    ("GET /a?x HTTP/1.1\r\nHost: h\r\n\r\n", UNKNOWN),
    ("HEAD / HTTP/1.1\r\nHost: h\r\n\r\n", UNKNOWN),
    ("GET /b HTTP/1.1\r\nHost: h\r\nConnection: x, Close\r\n\r\n", UNKNOWN_AND_CLOSED),
];

/// Rows of requests for the head alone.
#[rattlefmt::skip]
const HEADS: [Row<'static>; 1] = [
    ("HEAD /a HTTP/1.1\r\nHost: h\r\nRange: bytes=0-0\r\n\r\n", HEAD_OF_THE_FILE),
];

/// Expects these answers from a server that has f1.
pub fn expect_answers(rt: &(impl Abort + AllocGlobal), rows: &[Row<'_>]) -> Result<(), Fail> {
    let f1_alone = server_of_f1(rt.alloc())?;
    for row in rows {
        expect_answer(rt, &f1_alone, *row)?;
    }
    Ok(())
}

#[test]
fn refuses_messages_that_are_no_request(rt: HostRuntime) -> Result<(), Fail> {
    expect_answers(&rt, &NO_REQUESTS)
}

#[test]
fn refuses_other_methods_than_get_and_head(rt: HostRuntime) -> Result<(), Fail> {
    expect_answers(&rt, &OTHER_METHODS)
}

#[test]
fn finds_no_file_of_another_name(rt: HostRuntime) -> Result<(), Fail> {
    expect_answers(&rt, &OTHER_NAMES)
}

#[test]
fn answers_head_without_a_body(rt: HostRuntime) -> Result<(), Fail> {
    expect_answers(&rt, &HEADS)
}

/// Expects that empty lines are no message of a stream, and no head.
#[test]
fn answers_nothing_to_empty_lines_of_a_stream(rt: HostRuntime) -> Result<(), Fail> {
    let server = server_of_f1(rt.alloc())?;
    let none = Served {
        answers: 0,
        ended: Ended::EndOfInput,
    };
    for lines in ["", "\r\n\r\n"] {
        expect_called(&rt, &server, (lines, BAD))?;
        expect_served(&rt, &server, lines.as_bytes(), &[], b"", none)?;
    }
    Ok(())
}
