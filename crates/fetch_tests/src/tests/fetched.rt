//! Fetching from a server of one file, which is published as `a`.
ghost use Rattle.std.specs.Prelude.{◌+◌, ◌^◌, ◌<◌};

use super::LAST_TILE;
use cog_client::{Client, ClientError, Outcome, Pieces, Query, Report, Transport};
use cog_fetch::{fetch, fetch_pieces};
use cog_server::Server;
use std::alloc::Global;
use std::test::Fail;
use transports::{Fate, InMemory, InPieces, Scripted};

/// The report, if one stands in the end, and how many exchanges there were.
#[derive(Debug, Drop)]
pub struct Fetched {
    pub report: Option<Report>,
    pub exchanges: u64,
}

impl Fetched {
    /// Returns how many exchanges there were, and whether the report is of the last tile of f2. The second is `None` where there is no
    /// report.
    pub fn found(&self) -> (u64, Option<bool>) {
        (self.exchanges, self.report.as_ref().map(is_last_tile))
    }
}

/// Fetches with a client over a transport. Returns what came of it.
fn fetch_report<T: Transport>(
    alloc: Global,
    client: &mut Client,
    transport: &mut T,
    tries: u32,
) -> Result<Fetched, Fail>
    requires { T.count transport.old + tries < 2 ^ 64 }
{
    let report = match fetch(client, transport, tries)? {
        None => None,
        Some(report) => Some(report.copy(alloc)?),
    };
    let exchanges = transport.exchanges();
    Ok(Fetched { report, exchanges })
}

/// Makes a client of `a` that is asked `query`.
fn asked(alloc: Global, query: Query) -> Result<Client, ClientError> {
    let mut client = Client::new(alloc, b"cog.test", b"a", 66)?;
    client.open(query);
    Ok(client)
}

/// Fetches with a new client where the answers have these fates. Returns what came of it.
pub fn fetch_by(
    alloc: Global,
    server: &Server,
    query: Query,
    fates: &[Fate],
    tries: u32,
) -> Result<Fetched, Fail> {
    let mut client = asked(alloc, query)?;
    let mut transport = Scripted::new(InMemory::new(server, b"a"), fates);
    fetch_report(alloc, &mut client, &mut transport, tries)
}

/// Fetches with a client from a source of pieces. Returns what came of it.
fn fetch_report_in_pieces<P: Pieces>(
    alloc: Global,
    client: &mut Client,
    pieces: &mut P,
    tries: u32,
) -> Result<Fetched, Fail>
    requires { P.count pieces.old + tries < 2 ^ 64 }
{
    let report = match fetch_pieces(client, pieces, tries)? {
        None => None,
        Some(report) => Some(report.copy(alloc)?),
    };
    let exchanges = pieces.starts();
    Ok(Fetched { report, exchanges })
}

/// Fetches with a new client where the answers have these fates, and each comes in pieces of these sizes. Returns what came of it.
pub fn fetch_pieces_by(
    alloc: Global,
    server: &Server,
    query: Query,
    fates: &[Fate],
    sizes: &[usize],
    tries: u32,
) -> Result<Fetched, Fail> {
    let mut client = asked(alloc, query)?;
    let scripted = Scripted::new(InMemory::new(server, b"a"), fates);
    let mut pieces = InPieces::new(alloc, scripted, sizes);
    fetch_report_in_pieces(alloc, &mut client, &mut pieces, tries)
}

/// Returns whether a report is of the last tile of f2, whose samples are all 255, under the first tag of the first epoch.
pub fn is_last_tile(report: &Report) -> bool {
    let Outcome::Window(found) = &report.outcome else {
        return false;
    };
    report.query == LAST_TILE
        && report.tag.as_bytes() == b"\"1-1\"".as_slice()
        && (found.w, found.h) == (16, 16)
        && (found.samples, found.bits) == (1, 8)
        && found.pixels.as_slice() == [255; 256].as_slice()
}
