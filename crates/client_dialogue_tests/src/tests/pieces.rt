//! A query that needs two exchanges.
use super::driver::Comes::{Lost, Nothing, Part};
use super::rows::{FIRST, Row, TOOK, TOOK_FOUR, expect_rows};
use client_dialogue::Loss;
use client_dialogue::Step::{Connect, Look, Over, Read, Write};
use cog_client::Query;
use fixtures_support::f2;
use std::test::Fail;
use tiff_dir::Pick;

/// The last tile of the file f2. It stands after the first 65,536 bytes.
const LAST_TILE: Query = Query::Window {
    x: 240,
    y: 240,
    w: 16,
    h: 16,
    pick: Pick::Level(0),
};

const FRONT: &str =
    "HTTP/1.1 206 Partial Content\r\nETag: \"1\"\r\nContent-Range: bytes 0-65535/67706\r\nContent-Length: 65536\r\n\r\n";

const END: &str =
    "HTTP/1.1 206 Partial Content\r\nETag: \"1\"\r\nContent-Range: bytes 65536-67705/67706\r\nContent-Length: 2170\r\n\r\n";

const END_REQUEST: &str =
    "GET /a HTTP/1.1\r\nHost: cog.test\r\nRange: bytes=65536-67705\r\nIf-Range: \"1\"\r\n\r\n";

const ROWS: [Row; 3] = [
    Row {
        name: "both exchanges",
        connections: &[&[
            Nothing,
            Part(FRONT, 0, 65536),
            Nothing,
            Part(END, 65536, 67706),
        ]],
        queries: &[2],
        steps: &[
            Connect, Look, Write, Read, TOOK_FOUR, Look, Write, Read, TOOK, Over,
        ],
        requests: &[FIRST, END_REQUEST],
        made: 1,
        is_open: true,
        tag: Some("\"1\""),
    },
    Row {
        name: "only one exchange",
        connections: &[&[
            Nothing,
            Part(FRONT, 0, 65536),
            Nothing,
            Part(END, 65536, 67706),
        ]],
        queries: &[1],
        steps: &[Connect, Look, Write, Read, TOOK_FOUR, Over],
        requests: &[FIRST],
        made: 1,
        is_open: true,
        tag: None,
    },
    Row {
        name: "an end in the body",
        connections: &[&[Nothing, Part(FRONT, 0, 20000), Lost(Loss::Ended)]],
        queries: &[1],
        steps: &[Connect, Look, Write, Read, TOOK, Over],
        requests: &[FIRST],
        made: 1,
        is_open: false,
        tag: None,
    },
];

#[test]
fn takes_two_exchanges(rt: HostRuntime) -> Result<(), Fail> {
    expect_rows(&rt, LAST_TILE, &f2(rt.alloc())?, &ROWS)
}
