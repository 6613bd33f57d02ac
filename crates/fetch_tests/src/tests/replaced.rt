//! A file that is replaced between two exchanges. What is fetched is wholly of the one file, under its tag, or of the other.
use super::LAST_TILE;
use cog_client::{Client, ClientError, Outcome, Report, Transport};
use cog_fetch::{fetch, fetch_pieces};
use cog_server::Server;
use fixtures_support::{f2, f2b};
use std::alloc::Global;
use std::test::Fail;
use transports::{InPieces, Replaced, server_of_one};

const OLD: &[u8] = b"\"1-1\"";

const NEW: &[u8] = b"\"2-1\"";

/// A row of the table.
type Row = (u64, &'static [u8], u8, u64);

/// A row has how many exchanges come to the server of the old file. Then come the tag and the samples of the report, and how many exchanges
/// lead to it.
///
/// After one exchange with the old file, the next answer is the whole new file. Its first 65,536 bytes are kept, and a third answer brings
/// the rest.
const ROWS: [Row; 4] = [
    (0, NEW, 0, 2),
    (1, NEW, 0, 3),
    (2, OLD, 255, 2),
    (3, OLD, 255, 2),
];

/// The sizes of the first pieces of each answer.
const SIZES: [usize; 4] = [1, 169, 2, 10_000];

fn client(alloc: Global) -> Result<Client, ClientError> {
    let mut client = Client::new(alloc, b"cog.test", b"a", 66)?;
    client.open(LAST_TILE);
    Ok(client)
}

/// Returns whether a report is of the last tile, under a tag, with samples that are all the same.
fn is_of(report: &Report, tag: &[u8], sample: u8) -> bool {
    match &report.outcome {
        Outcome::Window(window) => {
            report.tag.as_bytes() == tag
                && report.query == LAST_TILE
                && window.pixels.as_slice() == [sample; 256].as_slice()
        }
        _ => false,
    }
}

/// Returns whether a client fetches what a row says.
fn fetches(
    client: &mut Client,
    (old, new): (&Server, &Server),
    (left, tag, sample, exchanges): Row,
) -> Result<bool, Fail> {
    let mut transport = Replaced::new(old, new, b"a", left);
    let report = fetch(client, &mut transport, 4)?.ok_or("no report")?;
    Ok(is_of(report, tag, sample) && transport.exchanges() == exchanges)
}

/// Returns whether a new client does.
fn is_met(alloc: Global, servers: (&Server, &Server), row: Row) -> Result<bool, Fail> {
    let mut client = client(alloc)?;
    fetches(&mut client, servers, row)
}

#[test]
fn fetches_the_one_file_or_the_other(rt: HostRuntime) -> Result<(), Fail> {
    let old = server_of_one(rt.alloc(), 1, b"a", f2(rt.alloc())?)?;
    let new = server_of_one(rt.alloc(), 2, b"a", f2b(rt.alloc())?)?;
    for row in ROWS {
        assert!(rt; is_met(rt.alloc(), (&old, &new), row)?, "{}", row.0);
    }
    Ok(())
}

/// Returns whether a client fetches the same report where the answers come in pieces.
fn fetches_pieces(
    alloc: Global,
    client: &mut Client,
    (old, new): (&Server, &Server),
    (left, tag, sample, _): Row,
) -> Result<bool, Fail> {
    let transport = Replaced::new(old, new, b"a", left);
    let mut pieces = InPieces::new(alloc, transport, &SIZES);
    let report = fetch_pieces(client, &mut pieces, 4)?.ok_or("no report")?;
    Ok(is_of(report, tag, sample))
}

/// Returns whether a new client does.
fn is_met_in_pieces(alloc: Global, servers: (&Server, &Server), row: Row) -> Result<bool, Fail> {
    let mut client = client(alloc)?;
    fetches_pieces(alloc, &mut client, servers, row)
}

#[test]
fn fetches_the_one_file_or_the_other_in_pieces(rt: HostRuntime) -> Result<(), Fail> {
    let old = server_of_one(rt.alloc(), 1, b"a", f2(rt.alloc())?)?;
    let new = server_of_one(rt.alloc(), 2, b"a", f2b(rt.alloc())?)?;
    for row in ROWS {
        assert!(rt;
            is_met_in_pieces(rt.alloc(), (&old, &new), row)?,
            "{}",
            row.0
        );
    }
    Ok(())
}
