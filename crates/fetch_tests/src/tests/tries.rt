//! Worked rows of fetching.
use super::fetched::{fetch_by, fetch_pieces_by};
use super::{LAST_TILE, window};
use assertion_support::expect_eq;
use cog_client::{Client, Outcome, Query, Report, Transport};
use cog_fetch::fetch;
use cog_server::Server;
use fixtures_support::{f1, f2};
use std::process::Abort;
use std::test::Fail;
use transports::{Fate, InMemory, server_of_one};

/// The first answer is lost, the first block comes of the second, and the third has the rest.
const LOST_AND_CUT: [Fate; 3] = [Fate::Lost, Fate::Cut(16555), Fate::Whole];

/// A row has the most exchanges, the number of exchanges, and whether the last tile is reported. That is `None` where nothing is reported.
const TRIES: [(u32, u64, Option<bool>); 2] = [(3, 3, Some(true)), (2, 2, None)];

#[test]
fn fetches_within_its_tries_alone(rt: HostRuntime) -> Result<(), Fail> {
    let server = server_of_one(rt.alloc(), 1, b"a", f2(rt.alloc())?)?;
    for (tries, exchanges, reports) in TRIES {
        let fetched = fetch_by(rt.alloc(), &server, LAST_TILE, &LOST_AND_CUT, tries)?;
        expect_eq!(rt; fetched.found(), (exchanges, reports));
    }
    Ok(())
}

/// Sizes of the first pieces of each answer, whose head has 171 bytes or 173.
const SIZES: [&[usize]; 5] = [
    &[],
    &[1; 400],
    &[7; 100],
    &[171, 16_384],
    &[170, 3, 16_382, 1, 2],
];

/// Expects the same of answers in pieces of these sizes.
fn expect_in_pieces(
    rt: &(impl Abort + AllocGlobal),
    server: &Server,
    sizes: &[usize],
) -> Result<(), Fail> {
    let alloc = rt.alloc();
    for (tries, exchanges, reports) in TRIES {
        let fetched = fetch_pieces_by(alloc, server, LAST_TILE, &LOST_AND_CUT, sizes, tries)?;
        expect_eq!(rt; fetched.found(), (exchanges, reports), "{sizes:?}");
    }
    Ok(())
}

#[test]
fn fetches_in_pieces_within_its_tries_alone(rt: HostRuntime) -> Result<(), Fail> {
    let server = server_of_one(rt.alloc(), 1, b"a", f2(rt.alloc())?)?;
    for sizes in SIZES {
        expect_in_pieces(&rt, &server, sizes)?;
    }
    Ok(())
}

#[test]
fn gives_nothing_where_every_answer_is_lost(rt: HostRuntime) -> Result<(), Fail> {
    let server = server_of_one(rt.alloc(), 1, b"a", f1(rt.alloc())?)?;
    for tries in [0, 1, 3, 100] {
        let fetched = fetch_by(rt.alloc(), &server, window(0, 0, 1, 1), &[], tries)?;
        expect_eq!(rt; fetched.found(), (u64::from(tries), None));
    }
    Ok(())
}

/// Returns whether a report answers this query by a window of these samples.
fn has_samples(report: &Report, query: Query, samples: &[u8]) -> bool {
    match &report.outcome {
        Outcome::Window(found) => report.query == query && found.pixels.as_slice() == samples,
        _ => false,
    }
}

/// Expects that a query is answered by these samples, twice. There was at most one exchange before each.
fn expect_samples(
    rt: &impl Abort,
    client: &mut Client,
    transport: &mut InMemory<'_>,
    query: Query,
    samples: &[u8],
) -> Result<(), Fail> {
    client.open(query);
    for _ in 0..2 {
        assert!(rt; transport.exchanges() < 2);
        let report = fetch(client, transport, 3)?.ok_or("no report")?;
        assert!(rt; has_samples(report, query, samples));
    }
    Ok(())
}

/// Expects that a client sends nothing without a query, and one request for two windows.
fn expect_one_exchange(rt: &impl Abort, client: &mut Client, server: &Server) -> Result<(), Fail> {
    let mut transport = InMemory::new(server, b"a");
    let is_silent = fetch(client, &mut transport, 3)?.is_none();
    expect_eq!(rt; (is_silent, transport.exchanges()), (true, 0));
    for (query, samples) in [
        (
            window(2, 1, 3, 2),
            [0x12, 0x13, 0x14, 0x22, 0x23, 0x24].as_slice(),
        ),
        (window(15, 15, 1, 1), [0xff].as_slice()),
    ] {
        expect_samples(rt, client, &mut transport, query, samples)?;
    }
    expect_eq!(rt; transport.exchanges(), 1);
    Ok(())
}

/// Expects that nothing is sent without a query, where a report stands, and for another query whose blocks are there.
#[test]
fn sends_nothing_where_nothing_is_needed(rt: HostRuntime) -> Result<(), Fail> {
    let server = server_of_one(rt.alloc(), 1, b"a", f1(rt.alloc())?)?;
    let mut client = Client::new(rt.alloc(), b"cog.test", b"a", 66)?;
    expect_one_exchange(&rt, &mut client, &server)
}
