//! A second query. The connection went on after the answer to the first one.
use super::driver::Comes::{Lost, Nothing, Part, Text};
use super::driver::Driver;
use super::rows::{
    CLOSING, CUT, FIRST, HEAD, LENGTH, OTHER, Row, TIMEOUT, TOOK, TOOK_NONE, WHOLE, expect_rows,
};
use assertion_support::expect_eq;
use client_dialogue::Loss;
use client_dialogue::Step::{Connect, Look, Over, Read, Write};
use cog_client::Query;
use fixtures_support::f1;
use std::test::Fail;

/// Rows of the place of the second request: on the kept connection, or on a new one (RFC 9112, sections 9.2 and 9.3).
const PLACES: [Row; 4] = [
    Row {
        name: "a kept connection",
        connections: &[&[Nothing, WHOLE, Nothing, WHOLE]],
        queries: &[2, 2],
        steps: &[
            Connect, Look, Write, Read, TOOK, Over, Look, Write, Read, TOOK, Over,
        ],
        requests: &[FIRST, FIRST],
        made: 1,
        is_open: true,
        tag: Some("\"1\""),
    },
    Row {
        name: "an answer that closes",
        connections: &[&[Nothing, Part(CLOSING, 0, LENGTH)], &[Nothing, WHOLE]],
        queries: &[2, 2],
        steps: &[
            Connect, Look, Write, Read, TOOK, Over, Connect, Look, Write, Read, TOOK, Over,
        ],
        requests: &[FIRST, FIRST],
        made: 2,
        is_open: true,
        tag: Some("\"1\""),
    },
    Row {
        name: "bytes before the second request",
        connections: &[&[Nothing, WHOLE, Part(OTHER, 0, LENGTH)], &[Nothing, WHOLE]],
        queries: &[2, 1],
        steps: &[
            Connect, Look, Write, Read, TOOK, Over, Look, Connect, Look, Write, Read, TOOK, Over,
        ],
        requests: &[FIRST, FIRST],
        made: 2,
        is_open: true,
        tag: Some("\"1\""),
    },
    Row {
        name: "an end before the second request",
        connections: &[&[Nothing, WHOLE, Lost(Loss::Ended)], &[Nothing, WHOLE]],
        queries: &[2, 1],
        steps: &[
            Connect, Look, Write, Read, TOOK, Over, Look, Connect, Look, Write, Read, TOOK, Over,
        ],
        requests: &[FIRST, FIRST],
        made: 2,
        is_open: true,
        tag: Some("\"1\""),
    },
];

#[test]
fn keeps_connections(rt: HostRuntime) -> Result<(), Fail> {
    expect_rows(&rt, Query::Info, &f1(rt.alloc())?, &PLACES)
}

/// The steps of a second request that is sent once more.
const ONCE_MORE: [client_dialogue::Step; 15] = [
    Connect, Look, Write, Read, TOOK, Over, Look, Write, Read, Connect, Look, Write, Read, TOOK,
    Over,
];

/// Rows where the second request is sent once more, on a new connection, within one exchange (RFC 9112, section 9.3.1; RFC 9110, section
/// 15.5.9).
const SENT_ONCE_MORE: [Row; 4] = [
    Row {
        name: "an end before the answer",
        connections: &[
            &[Nothing, WHOLE, Nothing, Lost(Loss::Ended)],
            &[Nothing, WHOLE],
        ],
        queries: &[2, 1],
        steps: &ONCE_MORE,
        requests: &[FIRST, FIRST, FIRST],
        made: 2,
        is_open: true,
        tag: Some("\"1\""),
    },
    Row {
        name: "a failure before the answer",
        connections: &[
            &[Nothing, WHOLE, Nothing, Lost(Loss::Failed)],
            &[Nothing, WHOLE],
        ],
        queries: &[2, 1],
        steps: &ONCE_MORE,
        requests: &[FIRST, FIRST, FIRST],
        made: 2,
        is_open: true,
        tag: Some("\"1\""),
    },
    Row {
        name: "408",
        connections: &[&[Nothing, WHOLE, Nothing, Text(TIMEOUT)], &[Nothing, WHOLE]],
        queries: &[2, 1],
        steps: &ONCE_MORE,
        requests: &[FIRST, FIRST, FIRST],
        made: 2,
        is_open: true,
        tag: Some("\"1\""),
    },
    Row {
        name: "no head",
        connections: &[
            &[Nothing, WHOLE, Nothing, Text("unasked")],
            &[Nothing, WHOLE],
        ],
        queries: &[2, 1],
        steps: &ONCE_MORE,
        requests: &[FIRST, FIRST, FIRST],
        made: 2,
        is_open: true,
        tag: Some("\"1\""),
    },
];

#[test]
fn sends_requests_once_more(rt: HostRuntime) -> Result<(), Fail> {
    expect_rows(&rt, Query::Info, &f1(rt.alloc())?, &SENT_ONCE_MORE)
}

/// Rows where the second request isn't sent again: its exchange is over. A retry isn't retried (RFC 9112, section 9.3.1).
const NOT_SENT_AGAIN: [Row; 4] = [
    Row {
        name: "an end in the head",
        connections: &[&[
            Nothing,
            WHOLE,
            Nothing,
            Text("HTTP/1.1 20"),
            Lost(Loss::Ended),
        ]],
        queries: &[2, 1],
        steps: &[
            Connect, Look, Write, Read, TOOK, Over, Look, Write, Read, CUT, Over,
        ],
        requests: &[FIRST, FIRST],
        made: 1,
        is_open: false,
        tag: None,
    },
    Row {
        name: "an end in the body",
        connections: &[&[
            Nothing,
            WHOLE,
            Nothing,
            Part(HEAD, 0, 100),
            Lost(Loss::Ended),
        ]],
        queries: &[2, 1],
        steps: &[
            Connect, Look, Write, Read, TOOK, Over, Look, Write, Read, TOOK_NONE, Over,
        ],
        requests: &[FIRST, FIRST],
        made: 1,
        is_open: false,
        tag: None,
    },
    Row {
        name: "no answer in time",
        connections: &[&[Nothing, WHOLE, Nothing, Lost(Loss::Late)]],
        queries: &[2, 1],
        steps: &[
            Connect, Look, Write, Read, TOOK, Over, Look, Write, Read, CUT, Over,
        ],
        requests: &[FIRST, FIRST],
        made: 1,
        is_open: false,
        tag: None,
    },
    Row {
        name: "an end before the answer on the new connection too",
        connections: &[
            &[Nothing, WHOLE, Nothing, Lost(Loss::Ended)],
            &[Nothing, Lost(Loss::Ended)],
        ],
        queries: &[2, 1],
        steps: &[
            Connect, Look, Write, Read, TOOK, Over, Look, Write, Read, Connect, Look, Write, Read,
            CUT, Over,
        ],
        requests: &[FIRST, FIRST, FIRST],
        made: 2,
        is_open: false,
        tag: None,
    },
];

#[test]
fn sends_no_request_again(rt: HostRuntime) -> Result<(), Fail> {
    expect_rows(&rt, Query::Info, &f1(rt.alloc())?, &NOT_SENT_AGAIN)
}

/// Rows where a query begins while the answer to the one before is under way. That answer is dropped with its connection.
const BEGUN_ANEW: [Row; 2] = [
    Row {
        name: "before the answer",
        connections: &[&[Nothing], &[Nothing, WHOLE]],
        queries: &[2, 1],
        steps: &[
            Connect, Look, Write, Read, Connect, Look, Write, Read, TOOK, Over,
        ],
        requests: &[FIRST, FIRST],
        made: 2,
        is_open: true,
        tag: Some("\"1\""),
    },
    Row {
        name: "in the body",
        connections: &[&[Nothing, Part(OTHER, 0, 100)], &[Nothing, WHOLE]],
        queries: &[2, 1],
        steps: &[
            Connect, Look, Write, Read, Connect, Look, Write, Read, TOOK, Over,
        ],
        requests: &[FIRST, FIRST],
        made: 2,
        is_open: true,
        tag: Some("\"1\""),
    },
];

#[test]
fn begins_anew(rt: HostRuntime) -> Result<(), Fail> {
    expect_rows(&rt, Query::Info, &f1(rt.alloc())?, &BEGUN_ANEW)
}

/// Expects what callers see of an exchange that is under way, and of one that was dropped.
#[test]
fn drops_what_is_under_way(rt: HostRuntime) -> Result<(), Fail> {
    let file = f1(rt.alloc())?;
    let mut driver = Driver::new(rt.alloc(), Query::Info, &file, 1, &[&[]])?;
    driver.take(1)?;
    expect_eq!(rt; driver.dialogue.is_asked(), true);
    expect_eq!(rt; driver.dialogue.is_open(), true);
    expect_eq!(rt; driver.dialogue.waiting() == FIRST.as_bytes(), true);
    driver.dialogue.begin(1);
    expect_eq!(rt; driver.dialogue.is_asked(), false);
    expect_eq!(rt; driver.dialogue.is_open(), false);
    expect_eq!(rt; driver.dialogue.waiting().is_empty(), true);
    Ok(())
}

/// Expects that a kept connection ends where the caller ends it.
#[test]
fn ends_connections(rt: HostRuntime) -> Result<(), Fail> {
    let file = f1(rt.alloc())?;
    let mut driver = Driver::new(rt.alloc(), Query::Info, &file, 1, &[&[Nothing, WHOLE]])?;
    driver.take(1)?;
    expect_eq!(rt; driver.dialogue.is_open(), true);
    if !driver.dialogue.is_asked() {
        driver.dialogue.end();
    }
    expect_eq!(rt; driver.dialogue.is_open(), false);
    Ok(())
}
