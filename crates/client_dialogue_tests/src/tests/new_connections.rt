//! Answers on a new connection, and connections that are lost before an answer.
use super::driver::Comes::{Lost, Nothing, Part, Text};
use super::rows::{
    CHUNKED, CLOSING, CODED, CUT, FIRST, HEAD, LENGTH, MISSING, NO_HEAD, OLDER, OTHER, Row,
    TIMED_OUT, TIMEOUT, TOOK, TOOK_NONE, WHOLE, expect_rows,
};
use client_dialogue::Loss;
use client_dialogue::Step::{Connect, Look, Over, Read, Write};
use cog_client::Query;
use fixtures_support::f1;
use std::test::Fail;

/// Two interim answers, and the answer.
const INTERIM: &str = concat!(
    "HTTP/1.1 100 Continue\r\n\r\nHTTP/1.1 103 Early Hints\r\nLink: </b>\r\n\r\n",
    "HTTP/1.1 206 Partial Content\r\nETag: \"1\"\r\nContent-Range: bytes 0-377/378\r\nContent-Length: 378\r\n\r\n"
);

/// An answer of status 404 with a body of three bytes, and after it bytes that look like another answer.
const SMUGGLING: &str = concat!(
    "HTTP/1.1 404 Not Found\r\nContent-Length: 3\r\n\r\nabc",
    "HTTP/1.1 206 Partial Content\r\nETag: \"2\"\r\nContent-Range: bytes 0-377/378\r\nContent-Length: 378\r\n\r\n"
);

/// An answer with a space before a colon (RFC 9112, section 5.1).
const SPACED: &str =
    "HTTP/1.1 206 Partial Content\r\nETag: \"1\"\r\nContent-Range: bytes 0-377/378\r\nContent-Length : 378\r\n\r\n";

/// The request of a client that has the revision `"1"` and no block of it.
const REST: &str =
    "GET /a HTTP/1.1\r\nHost: cog.test\r\nRange: bytes=0-377\r\nIf-Range: \"1\"\r\n\r\n";

/// Rows of answers that are used (RFC 9112, sections 9.3 and 9.6; RFC 9110, section 15.2).
const USED: [Row; 4] = [
    Row {
        name: "an answer",
        connections: &[&[Nothing, WHOLE]],
        queries: &[2],
        steps: &[Connect, Look, Write, Read, TOOK, Over],
        requests: &[FIRST],
        made: 1,
        is_open: true,
        tag: Some("\"1\""),
    },
    Row {
        name: "an answer that closes",
        connections: &[&[Nothing, Part(CLOSING, 0, LENGTH)]],
        queries: &[2],
        steps: &[Connect, Look, Write, Read, TOOK, Over],
        requests: &[FIRST],
        made: 1,
        is_open: false,
        tag: Some("\"1\""),
    },
    Row {
        name: "an answer of HTTP/1.0",
        connections: &[&[Nothing, Part(OLDER, 0, LENGTH)]],
        queries: &[2],
        steps: &[Connect, Look, Write, Read, TOOK, Over],
        requests: &[FIRST],
        made: 1,
        is_open: false,
        tag: Some("\"1\""),
    },
    Row {
        name: "interim answers",
        connections: &[&[Nothing, Part(INTERIM, 0, LENGTH)]],
        queries: &[2],
        steps: &[Connect, Look, Write, Read, TOOK, Over],
        requests: &[FIRST],
        made: 1,
        is_open: true,
        tag: Some("\"1\""),
    },
];

#[test]
fn uses_answers(rt: HostRuntime) -> Result<(), Fail> {
    expect_rows(&rt, Query::Info, &f1(rt.alloc())?, &USED)
}

/// Rows of answers that aren't used (docs/PROFILE.md, *How an answer is read*). Their connections are over.
const UNUSED: [Row; 4] = [
    Row {
        name: "404, and what looks like an answer",
        connections: &[&[Nothing, Part(SMUGGLING, 0, LENGTH)], &[Nothing, WHOLE]],
        queries: &[2],
        steps: &[
            Connect, Look, Write, Read, MISSING, Connect, Look, Write, Read, TOOK, Over,
        ],
        requests: &[FIRST, FIRST],
        made: 2,
        is_open: true,
        tag: Some("\"1\""),
    },
    Row {
        name: "a space before a colon",
        connections: &[&[Nothing, Part(SPACED, 0, LENGTH)]],
        queries: &[1],
        steps: &[Connect, Look, Write, Read, NO_HEAD, Over],
        requests: &[FIRST],
        made: 1,
        is_open: false,
        tag: None,
    },
    Row {
        name: "a transfer coding",
        connections: &[&[Nothing, Part(CHUNKED, 0, LENGTH)]],
        queries: &[1],
        steps: &[Connect, Look, Write, Read, CODED, Over],
        requests: &[FIRST],
        made: 1,
        is_open: false,
        tag: None,
    },
    Row {
        name: "408",
        connections: &[&[Nothing, Text(TIMEOUT)]],
        queries: &[1],
        steps: &[Connect, Look, Write, Read, TIMED_OUT, Over],
        requests: &[FIRST],
        made: 1,
        is_open: false,
        tag: None,
    },
];

#[test]
fn ends_with_unused_answers(rt: HostRuntime) -> Result<(), Fail> {
    expect_rows(&rt, Query::Info, &f1(rt.alloc())?, &UNUSED)
}

/// Rows of connections that end before a head is whole (RFC 9112, sections 9.2 and 9.5). A request on a new connection isn't sent once
/// more.
const WITHOUT_A_HEAD: [Row; 5] = [
    Row {
        name: "bytes before the request",
        connections: &[&[Part(OTHER, 0, LENGTH)], &[Nothing, WHOLE]],
        queries: &[2],
        steps: &[Connect, Look, CUT, Connect, Look, Write, Read, TOOK, Over],
        requests: &[FIRST],
        made: 2,
        is_open: true,
        tag: Some("\"1\""),
    },
    Row {
        name: "an end before the request",
        connections: &[&[Lost(Loss::Ended)]],
        queries: &[1],
        steps: &[Connect, Look, CUT, Over],
        requests: &[],
        made: 1,
        is_open: false,
        tag: None,
    },
    Row {
        name: "an end before the answer",
        connections: &[&[Nothing, Lost(Loss::Ended)]],
        queries: &[1],
        steps: &[Connect, Look, Write, Read, CUT, Over],
        requests: &[FIRST],
        made: 1,
        is_open: false,
        tag: None,
    },
    Row {
        name: "no answer in time",
        connections: &[&[Nothing, Lost(Loss::Late)]],
        queries: &[1],
        steps: &[Connect, Look, Write, Read, CUT, Over],
        requests: &[FIRST],
        made: 1,
        is_open: false,
        tag: None,
    },
    Row {
        name: "no connection",
        connections: &[],
        queries: &[1],
        steps: &[Connect, CUT, Over],
        requests: &[],
        made: 0,
        is_open: false,
        tag: None,
    },
];

#[test]
fn ends_without_a_head(rt: HostRuntime) -> Result<(), Fail> {
    expect_rows(&rt, Query::Info, &f1(rt.alloc())?, &WITHOUT_A_HEAD)
}

/// Rows of connections that end in the midst of an answer. Its front is taken. The next exchange has a connection of its own.
const FRONTS: [Row; 2] = [
    Row {
        name: "an end in the head",
        connections: &[
            &[Nothing, Text("HTTP/1.1 20"), Lost(Loss::Ended)],
            &[Nothing, WHOLE],
        ],
        queries: &[2],
        steps: &[
            Connect, Look, Write, Read, CUT, Connect, Look, Write, Read, TOOK, Over,
        ],
        requests: &[FIRST, FIRST],
        made: 2,
        is_open: true,
        tag: Some("\"1\""),
    },
    Row {
        name: "an end in the body",
        connections: &[
            &[Nothing, Part(HEAD, 0, 100), Lost(Loss::Failed)],
            &[Nothing, WHOLE],
        ],
        queries: &[2],
        steps: &[
            Connect, Look, Write, Read, TOOK_NONE, Connect, Look, Write, Read, TOOK, Over,
        ],
        requests: &[FIRST, REST],
        made: 2,
        is_open: true,
        tag: Some("\"1\""),
    },
];

#[test]
fn takes_fronts(rt: HostRuntime) -> Result<(), Fail> {
    expect_rows(&rt, Query::Info, &f1(rt.alloc())?, &FRONTS)
}
