//! Checks, and what their answers say.
use super::driver::client_of_a;
use super::rows::{HEAD, TIMEOUT};
use assertion_support::expect_eq;
use client_dialogue::{Check, CheckStep};
use cog_client::{Client, Current, Query, Unknown, Why};
use fixtures_support::f1;
use std::alloc::Global;
use std::process::Abort;
use std::test::Fail;

/// The check of a client that has the revision `"1"` (docs/PROFILE.md, *The client's request*).
const REQUEST: &str =
    "HEAD /a HTTP/1.1\r\nHost: cog.test\r\nIf-None-Match: \"1\"\r\nConnection: close\r\n\r\n";

const SAME: &str = "HTTP/1.1 304 Not Modified\r\nETag: \"1\"\r\n\r\n";

const STILL_SAME: &str = "HTTP/1.1 200 OK\r\nETag: \"1\"\r\nContent-Length: 378\r\n\r\n";

const ANOTHER: &str = "HTTP/1.1 200 OK\r\nETag: \"2\"\r\nContent-Length: 378\r\n\r\n";

const INTERIM: &str =
    "HTTP/1.1 100 Continue\r\n\r\nHTTP/1.1 304 Not Modified\r\nETag: \"1\"\r\n\r\n";

const MISSING: &str = "HTTP/1.1 404 Not Found\r\nContent-Length: 0\r\n\r\n";

/// A row has the text that a connection brings before it ends, what the check then says, and the status code.
type Row = (&'static str, Current, u16);

const NO_ANSWER: Current = Current::Unknown(Unknown::NotUsed(Why::Cut));

const ROWS: [Row; 9] = [
    (SAME, Current::Same, 304),
    (STILL_SAME, Current::Same, 200),
    (ANOTHER, Current::Other, 200),
    (INTERIM, Current::Same, 304),
    ("", NO_ANSWER, 0),
    ("HTTP/1.1 304 Not Modified\r\nETag: \"1\"\r\n", NO_ANSWER, 0),
    ("unasked", Current::Unknown(Unknown::NotUsed(Why::Head)), 0),
    (
        TIMEOUT,
        Current::Unknown(Unknown::NotUsed(Why::Status(408))),
        408,
    ),
    (
        MISSING,
        Current::Unknown(Unknown::NotUsed(Why::Status(404))),
        404,
    ),
];

/// The steps of a check, without the last one.
const STEPS: [CheckStep; 3] = [CheckStep::Connect, CheckStep::Write, CheckStep::Read];

/// Makes a client that has the revision `"1"`.
fn client_with_a_revision(alloc: Global) -> Result<Client, Fail> {
    let mut client = client_of_a(alloc)?;
    client.open(Query::Info);
    let _request = client.request()?;
    client.feed(HEAD.as_bytes())?;
    client.feed(&f1(alloc)?)?;
    let _delivered = client.end()?;
    Ok(client)
}

/// A check, and the bytes that its connection brings. It reads and writes at most `size` bytes at a time.
struct Checker<'a> {
    check: Check,
    /// The steps, without `More` and the last one. A step that repeats the one before is left out.
    steps: Vec<CheckStep>,
    /// What the check says when it is over.
    said: Option<Current>,
    written: Vec<u8>,
    /// The bytes that are still to be taken, and how many of them were read.
    rest: &'a [u8],
    read: usize,
    size: usize,
}

// Written out, so that it is one call wherever a checker is dropped.
impl<'a> Drop for Checker<'a> {
    fn drop(self) {
        let Checker {
            check: _,
            steps: _,
            said: _,
            written: _,
            rest: _,
            read: _,
            size: _,
        } = self;
    }
}

impl<'a> Checker<'a> {
    /// Makes a checker whose connection brings `text` and then ends. Fails where the client has no revision.
    fn new(
        alloc: Global,
        client: &Client,
        text: &'a str,
        size: usize,
    ) -> Result<Checker<'a>, Fail> {
        let check = Check::new(alloc, client)?.ok_or("no revision")?;
        Ok(Checker {
            check,
            steps: Vec::new(alloc),
            said: None,
            written: Vec::new(alloc),
            rest: text.as_bytes(),
            read: 0,
            size,
        })
    }

    /// Notes a step, unless it is `More`, the last one, or the same as the one before.
    fn note(&mut self, step: CheckStep) -> Result<(), Fail> {
        let is_left_out = matches!(step, CheckStep::More | CheckStep::Checked(_));
        if !is_left_out && self.steps.as_slice().last() != Some(&step) {
            self.steps.push(step)?;
        }
        Ok(())
    }

    /// Makes a connection.
    fn connect(&mut self) -> Result<(), Fail> {
        if !self.check.is_open() {
            self.check.connected()?;
        }
        Ok(())
    }

    /// Writes waiting bytes, at most `size` of them.
    fn write(&mut self) -> Result<(), Fail> {
        let waiting = self.check.waiting();
        let count = waiting.len().min(self.size);
        self.written.extend_from_slice(&waiting[..count])?;
        self.check.wrote(count);
        Ok(())
    }

    /// Reads bytes. Where none are left, the connection is gone.
    fn read(&mut self) {
        self.read = self.size.min(self.rest.len());
        if self.read == 0 {
            self.check.gone();
        }
    }

    /// Hands on the bytes that were read, and does the next step.
    fn go_on(&mut self, client: &Client) -> Result<(), Fail> {
        let bytes = self.rest.get(..self.read).unwrap_or(&[]);
        let progress = self.check.go_on(client, bytes)?;
        self.rest = self.rest.get(progress.count..).unwrap_or(&[]);
        self.read = self.read.saturating_sub(progress.count);
        self.note(progress.step)?;
        match progress.step {
            CheckStep::Connect => self.connect()?,
            CheckStep::Write => self.write()?,
            CheckStep::Read => self.read(),
            CheckStep::More => {}
            CheckStep::Checked(said) => self.said = Some(said),
        }
        Ok(())
    }

    /// Goes on until the check is over.
    fn take(&mut self, client: &Client) -> Result<(), Fail> {
        for _ in 0..10_000 {
            self.go_on(client)?;
            if self.said.is_some() {
                break;
            }
        }
        Ok(())
    }
}

/// Compares the steps, the result, the status code and the written bytes with those that are expected.
fn expect_checked(rt: &impl Abort, checker: &Checker<'_>, row: &Row) {
    let (text, said, status) = *row;
    let size = checker.size;
    expect_eq!(rt; checker.steps.as_slice(), STEPS.as_slice(), "{text:?}, in pieces of {size}");
    expect_eq!(rt; checker.said, Some(said), "{text:?}, in pieces of {size}");
    expect_eq!(rt; checker.check.status(), status, "{text:?}, in pieces of {size}");
    expect_eq!(rt; checker.written.as_slice() == REQUEST.as_bytes(), true, "{text:?}, in pieces of {size}");
}

/// Runs the check of a row in pieces of at most `size` bytes, and compares.
fn expect_row(
    rt: &(impl Abort + AllocGlobal),
    client: &Client,
    row: &Row,
    size: usize,
) -> Result<(), Fail> {
    let mut checker = Checker::new(rt.alloc(), client, row.0, size)?;
    checker.take(client)?;
    expect_checked(rt, &checker, row);
    Ok(())
}

#[test]
fn checks(rt: HostRuntime) -> Result<(), Fail> {
    let client = client_with_a_revision(rt.alloc())?;
    for row in &ROWS {
        expect_row(&rt, &client, row, 1)?;
        expect_row(&rt, &client, row, usize::MAX)?;
    }
    Ok(())
}

/// Expects that a check learns nothing where no connection can be made.
#[test]
fn checks_nothing_without_a_connection(rt: HostRuntime) -> Result<(), Fail> {
    let client = client_with_a_revision(rt.alloc())?;
    let mut checker = Checker::new(rt.alloc(), &client, "", 1)?;
    expect_eq!(rt; checker.check.is_open(), false);
    expect_eq!(rt; checker.check.waiting().is_empty(), true);
    checker.check.gone();
    checker.go_on(&client)?;
    expect_eq!(rt; checker.said, Some(NO_ANSWER));
    expect_eq!(rt; checker.check.status(), 0);
    expect_eq!(rt; checker.check.is_open(), false);
    Ok(())
}

/// Expects that a connection that was made is open until it is gone.
#[test]
fn opens_a_connection(rt: HostRuntime) -> Result<(), Fail> {
    let client = client_with_a_revision(rt.alloc())?;
    let mut checker = Checker::new(rt.alloc(), &client, "", 1)?;
    checker.connect()?;
    expect_eq!(rt; checker.check.is_open(), true);
    expect_eq!(rt; checker.check.waiting() == REQUEST.as_bytes(), true);
    checker.check.gone();
    expect_eq!(rt; checker.check.is_open(), false);
    Ok(())
}

/// Expects that a client without a revision has nothing to check.
#[test]
fn checks_no_client_without_a_revision(rt: HostRuntime) -> Result<(), Fail> {
    let client = client_of_a(rt.alloc())?;
    let check = Check::new(rt.alloc(), &client)?;
    expect_eq!(rt; check.is_none(), true);
    Ok(())
}

/// Expects that bytes that stand there when a check begins are dropped: they are of another connection.
#[test]
fn drops_what_another_connection_left(rt: HostRuntime) -> Result<(), Fail> {
    let client = client_with_a_revision(rt.alloc())?;
    let mut check = Check::new(rt.alloc(), &client)?.ok_or("no revision")?;
    for left in ["", "H", SAME] {
        let progress = check.go_on(&client, left.as_bytes())?;
        expect_eq!(rt; progress.step, CheckStep::Connect);
        expect_eq!(rt; progress.count, left.len());
    }
    Ok(())
}
