//! The rows of tables: what connections bring, and which steps of the driver are expected.
use super::driver::{Comes, Connections, Driver};
use assertion_support::expect_eq;
use client_dialogue::{Exchanged, Step};
use cog_client::{Delivered, Ignored, Query, Why};
use std::process::Abort;
use std::test::Fail;

/// The head of the answer that has all of the file f1, with one more field.
macro_rules! head {
    ($line:literal, $tag:literal, $more:literal) => {
        concat!($line, "\r\nETag: ", $tag, "\r\nContent-Range: bytes 0-377/378\r\nContent-Length: 378\r\n", $more, "\r\n")
    };
}

/// The number of bytes of the file f1.
pub const LENGTH: usize = 378;

pub const HEAD: &str = head!("HTTP/1.1 206 Partial Content", "\"1\"", "");

pub const CLOSING: &str = head!(
    "HTTP/1.1 206 Partial Content",
    "\"1\"",
    "Connection: close\r\n"
);

pub const OLDER: &str = head!("HTTP/1.0 206 Partial Content", "\"1\"", "");

pub const CHUNKED: &str = head!(
    "HTTP/1.1 206 Partial Content",
    "\"1\"",
    "Transfer-Encoding: chunked\r\n"
);

pub const OTHER: &str = head!("HTTP/1.1 206 Partial Content", "\"2\"", "");

pub const TIMEOUT: &str = "HTTP/1.1 408 Request Timeout\r\nContent-Length: 0\r\n\r\n";

/// An answer with the whole file f1.
pub const WHOLE: Comes = Comes::Part(HEAD, 0, LENGTH);

/// The request of a client without a revision (docs/PROFILE.md, *The client's request*).
pub const FIRST: &str = "GET /a HTTP/1.1\r\nHost: cog.test\r\nRange: bytes=0-65535\r\n\r\n";

/// An exchange in which `blocks` blocks were stored.
macro_rules! took {
    ($blocks:literal) => {
        Step::Exchanged(Exchanged { delivered: Delivered::Took($blocks), status: 206, alone: true })
    };
}

/// An exchange whose answer wasn't used.
macro_rules! unused {
    ($why:expr, $status:literal) => {
        Step::Exchanged(Exchanged { delivered: Delivered::Ignored(Ignored::NotUsed($why)), status: $status, alone: true })
    };
}

pub const TOOK_NONE: Step = took!(0);

pub const TOOK: Step = took!(1);

pub const TOOK_FOUR: Step = took!(4);

/// An exchange without a whole head of an answer.
pub const CUT: Step = unused!(Why::Cut, 0);

pub const NO_HEAD: Step = unused!(Why::Head, 0);

pub const CODED: Step = unused!(Why::Coding, 206);

pub const MISSING: Step = unused!(Why::Status(404), 404);

pub const TIMED_OUT: Step = unused!(Why::Status(408), 408);

/// A row has what connections bring, and what is expected.
#[derive(Clone, Copy)]
pub struct Row {
    pub name: &'static str,
    pub connections: Connections,
    /// The number of exchanges that each query may take. Before each query but the first, the client forgets all that it has.
    pub queries: &'static [u32],
    pub steps: &'static [Step],
    /// The requests that are written, on all connections.
    pub requests: &'static [&'static str],
    /// The number of connections that are made.
    pub made: usize,
    /// Whether a connection is there afterwards.
    pub is_open: bool,
    /// The ETag of the report, where there is one.
    pub tag: Option<&'static str>,
}

/// Takes the queries of a row to their ends.
fn take_all(driver: &mut Driver<'_>, queries: &[u32]) -> Result<(), Fail> {
    for (i, exchanges) in queries.iter().enumerate() {
        if i > 0 {
            driver.client.forget();
        }
        driver.take(*exchanges)?;
    }
    Ok(())
}

/// Returns whether these requests were written, one after another.
fn are_written(written: &[u8], requests: &[&str]) -> bool {
    let mut rest = written;
    for request in requests {
        match rest.strip_prefix(request.as_bytes()) {
            Some(others) => rest = others,
            None => return false,
        }
    }
    rest.is_empty()
}

/// Compares the steps, requests, connections and report with those that are expected.
fn expect_done(rt: &impl Abort, driver: &Driver<'_>, row: &Row, size: usize) {
    let name = row.name;
    let report = driver.client.report();
    let tag = report.map(|report| report.tag.as_bytes());
    expect_eq!(rt; driver.steps.as_slice(), row.steps, "{name}, in pieces of {size}");
    expect_eq!(rt; are_written(&driver.written, row.requests), true, "{name}, in pieces of {size}");
    expect_eq!(rt; driver.made, row.made, "{name}, in pieces of {size}");
    expect_eq!(rt; driver.dialogue.is_open(), row.is_open, "{name}, in pieces of {size}");
    expect_eq!(rt; tag == row.tag.map(|tag| tag.as_bytes()), true, "{name}, in pieces of {size}");
}

/// Runs the queries of a row in pieces of at most `size` bytes, and compares.
fn expect_row(
    rt: &(impl Abort + AllocGlobal),
    query: Query,
    file: &[u8],
    row: &Row,
    size: usize,
) -> Result<(), Fail> {
    let mut driver = Driver::new(rt.alloc(), query, file, size, row.connections)?;
    take_all(&mut driver, row.queries)?;
    expect_done(rt, &driver, row, size);
    Ok(())
}

/// Runs these rows, byte by byte and all bytes at once.
pub fn expect_rows(
    rt: &(impl Abort + AllocGlobal),
    query: Query,
    file: &[u8],
    rows: &[Row],
) -> Result<(), Fail> {
    for row in rows {
        expect_row(rt, query, file, row, 1)?;
        expect_row(rt, query, file, row, usize::MAX)?;
    }
    Ok(())
}
