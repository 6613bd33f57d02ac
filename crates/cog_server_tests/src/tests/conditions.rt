//! Answers to requests with conditions, with and without a range.
use super::answers::{FIRST, Row, WHOLE, Want, expect_answer, server_of_f1};
use super::refusals::{BARE, UNKNOWN, expect_answers};
use assertion_support::expect_eq;
use std::test::Fail;

const FAILED: Want = Want {
    head: b"HTTP/1.1 412 Precondition Failed\r\nContent-Length: 0\r\n\r\n",
    status: 412,
    ..BARE
};

const UNMODIFIED: Want = Want {
    head: b"HTTP/1.1 304 Not Modified\r\nETag: \"1-1\"\r\n\r\n",
    status: 304,
    named: true,
    ..BARE
};

const UNMODIFIED_AND_CLOSED: Want = Want {
    head: b"HTTP/1.1 304 Not Modified\r\nETag: \"1-1\"\r\nConnection: close\r\n\r\n",
    close: true,
    ..UNMODIFIED
};

/// Rows of the field If-Match.
#[rattlefmt::skip]
const IF_MATCH: [Row<'static>; 8] = [
    ("GET /a HTTP/1.1\r\nHost: h\r\nIf-Match: \"1-2\"\r\n\r\n", FAILED),
    ("GET /a HTTP/1.1\r\nHost: h\r\nIf-Match: W/\"1-1\"\r\n\r\n", FAILED),
    ("GET /a HTTP/1.1\r\nHost: h\r\nIf-Match: \"1-2\", \"1-1\"\r\n\r\n", WHOLE),
    ("GET /a HTTP/1.1\r\nHost: h\r\nIf-Match: \"1-1\"\r\nRange: bytes=0-0\r\n\r\n", FIRST),
    ("GET /a HTTP/1.1\r\nHost: h\r\nIf-Match: \"1-2\"\r\nRange: bytes=0-0\r\n\r\n", FAILED),
    ("GET /a HTTP/1.1\r\nHost: h\r\nIf-Match: *\r\n\r\n", WHOLE),
    ("GET /a HTTP/1.1\r\nHost: h\r\nIf-Match:\r\n\r\n", FAILED),
    ("GET /a HTTP/1.1\r\nHost: h\r\nIf-Match: \r\nRange: bytes=0-0\r\n\r\n", FAILED),
];

/// Rows of the field If-None-Match.
#[rattlefmt::skip]
const IF_NONE_MATCH: [Row<'static>; 11] = [
    ("HEAD /a HTTP/1.1\r\nHost: h\r\nIf-None-Match: W/\"1-1\"\r\n\r\n", UNMODIFIED),
    ("GET /a HTTP/1.1\r\nHost: h\r\nIf-None-Match: *\r\n\r\n", UNMODIFIED),
    ("GET /a HTTP/1.1\r\nHost: h\r\nIf-None-Match: \"1-2\"\r\n\r\n", WHOLE),
    ("GET /a HTTP/1.1\r\nHost: h\r\nIf-None-Match: \"1-1\"\r\n\r\n", UNMODIFIED),
    ("GET /a HTTP/1.1\r\nHost: h\r\nIf-None-Match: \"1-1\"\r\nRange: bytes=0-0\r\n\r\n", UNMODIFIED),
    ("GET /a HTTP/1.1\r\nHost: h\r\nIf-None-Match: \"1-2\"\r\nRange: bytes=0-0\r\n\r\n", FIRST),
    ("GET /a HTTP/1.1\r\nHost: h\r\nIf-None-Match: \"1-1\"\r\nConnection: close\r\n\r\n", UNMODIFIED_AND_CLOSED),
    ("GET /a HTTP/1.1\r\nHost: h\r\nIf-None-Match: \"x,y\", \"1-1\"\r\n\r\n", UNMODIFIED),
    ("GET /a HTTP/1.1\r\nHost: h\r\nIf-None-Match: \"1-1\" x\r\n\r\n", WHOLE),
    ("GET /a HTTP/1.1\r\nHost: h\r\nIf-None-Match: \"1-1\",x\r\n\r\n", WHOLE),
    ("GET /a HTTP/1.1\r\nHost: h\r\nIf-None-Match:\r\n\r\n", WHOLE),
];

/// Rows of both fields: If-Match is decided first.
#[rattlefmt::skip]
const BOTH: [Row<'static>; 4] = [
    ("GET /a HTTP/1.1\r\nHost: h\r\nIf-Match: \"1-1\"\r\nIf-None-Match: \"1-1\"\r\n\r\n", UNMODIFIED),
    ("GET /a HTTP/1.1\r\nHost: h\r\nIf-None-Match: \"1-1\"\r\nIf-Match: \"1-2\"\r\n\r\n", FAILED),
    ("GET /a HTTP/1.1\r\nHost: h\r\nIf-Match: \"1-2\"\r\nIf-None-Match: \"1-2\"\r\n\r\n", FAILED),
    ("GET /a HTTP/1.1\r\nHost: h\r\nIf-Match: \"1-1\"\r\nIf-None-Match: \"1-2\"\r\n\r\n", WHOLE),
];

/// Rows of conditions on a name that no file has.
#[rattlefmt::skip]
const NO_FILE: [Row<'static>; 2] = [
    ("GET /c HTTP/1.1\r\nHost: h\r\nIf-Match: *\r\n\r\n", UNKNOWN),
    ("GET /c HTTP/1.1\r\nHost: h\r\nIf-None-Match: *\r\n\r\n", UNKNOWN),
];

#[test]
fn serves_only_what_if_match_names_strongly(rt: HostRuntime) -> Result<(), Fail> {
    expect_answers(&rt, &IF_MATCH)
}

#[test]
fn answers_not_modified_where_if_none_match_names_the_tag_weakly(
    rt: HostRuntime,
) -> Result<(), Fail> {
    expect_answers(&rt, &IF_NONE_MATCH)
}

#[test]
fn evaluates_if_match_before_if_none_match(rt: HostRuntime) -> Result<(), Fail> {
    expect_answers(&rt, &BOTH)
}

#[test]
fn finds_no_file_whatever_the_condition(rt: HostRuntime) -> Result<(), Fail> {
    expect_answers(&rt, &NO_FILE)
}

/// Expects that a check that finds the file unchanged is answered in 61 bytes.
#[test]
fn answers_a_check_of_the_same_revision_in_61_bytes(rt: HostRuntime) -> Result<(), Fail> {
    let server = server_of_f1(rt.alloc())?;
    let check =
        "HEAD /a HTTP/1.1\r\nHost: h\r\nIf-None-Match: \"1-1\"\r\nConnection: close\r\n\r\n";
    let answer = server.answer(check.as_bytes())?;
    expect_eq!(rt; answer.text.len(), 61, "to {check:?}");
    expect_answer(&rt, &server, (check, UNMODIFIED_AND_CLOSED))
}
