//! Over a server in memory the report stands unless an answer was lost, which the transport reports.
ghost use Rattle.std.specs.Prelude.{◌≡◌, ◌+◌, ◌<◌, ◌≤◌, ◌^◌, false, IfOk, IsSome, option_copied};
ghost use Rattle.tiff_dir.specs.declared.query.Query.{Query as AQuery};
ghost use Rattle.tiff_dir.specs.Query.{cost};
ghost use Rattle.http_range.specs.Book.{Book, HasDistinctTags, In, Publication};
ghost use Rattle.cog_client.specs.Client.{ClientAgrees, ClientState, name_of};
ghost use Rattle.cog_client.specs.Keeps.{OpensKeeping};
ghost use Rattle.transports.specs.InMemory.{Has};
ghost use Rattle.transports.specs.Transports.{exchanges_of, has_lost, served_name, served_state, source_of};

use super::LAST_TILE;
use assertion_support::expect_eq;
use cog_client::{Client, FetchError, Report, Transport};
use cog_fetch::{fetch, fetch_pieces, law_answer_limit_is};
use cog_server::Server;
use fixtures_support::{f1, f2};
use std::alloc::Global;
use std::test::Fail;
use transports::{InMemory, InPieces, law_servers_in_memory_serve, server_of_one};

/// Fetches from a server in memory. A report stands after an opening where the server has one of the files that the client may read, and no
/// answer was lost. It takes at most as many exchanges as the query costs, and one more. This is `reports` of `fetch`, whose premise such a
/// server meets.
fn fetch_in_memory<'c>(
    client: &'c mut Client,
    transport: &mut InMemory<'_>,
    tries: u32,
) -> Result<Option<&'c Report>, FetchError>
    requires { exchanges_of transport.old + tries < 2 ^ 64 }
    ensures { (book : Book) (p : Publication) (q : AQuery) (before : ClientState) → HasDistinctTags book → In p book → p.name ≡ name_of before
        → ClientAgrees before book → OpensKeeping q before client.old → Has (served_state transport.old).catalogue (served_name transport.old) p
        → has_lost transport.new ≡ false → cost p.file q + 1 ≤ tries → IfOk result (λ report. IsSome (option_copied report)) }
{
    law_servers_in_memory_serve();
    fetch(client, transport, tries)
}

/// Fetches in the same way where the answers come in pieces: `reports` of `fetch_pieces`.
fn fetch_in_pieces<'c>(
    client: &'c mut Client,
    pieces: &mut InPieces<'_, InMemory<'_>>,
    tries: u32,
) -> Result<Option<&'c Report>, FetchError>
    requires { exchanges_of (source_of pieces.old) + tries < 2 ^ 64 }
    ensures { (book : Book) (p : Publication) (q : AQuery) (before : ClientState) → HasDistinctTags book → In p book → p.name ≡ name_of before
        → ClientAgrees before book → OpensKeeping q before client.old
        → Has (served_state (source_of pieces.old)).catalogue (served_name (source_of pieces.old)) p
        → has_lost (source_of pieces.new) ≡ false → cost p.file q + 1 ≤ tries → IfOk result (λ report. IsSome (option_copied report)) }
{
    law_servers_in_memory_serve();
    law_answer_limit_is();
    fetch_pieces(client, pieces, tries)
}

/// Returns whether a client of this name has its report of the last tile within three exchanges, and whether an answer was lost.
fn fetched(
    alloc: Global,
    server: &Server,
    of_client: &[u8],
    asked: &[u8],
) -> Result<(bool, bool), Fail> {
    let mut client = Client::new(alloc, b"cog.test", of_client, 66)?;
    let mut transport = InMemory::new(server, asked);
    client.open(LAST_TILE);
    let reports = fetch_in_memory(&mut client, &mut transport, 3)?.is_some();
    Ok((reports, transport.has_lost()))
}

#[test]
fn loses_nothing_of_its_own_file(rt: HostRuntime) -> Result<(), Fail> {
    let server = server_of_one(rt.alloc(), 1, b"a", f2(rt.alloc())?)?;
    expect_eq!(rt; fetched(rt.alloc(), &server, b"a", b"a")?, (true, false));
    Ok(())
}

#[test]
fn reports_of_pieces(rt: HostRuntime) -> Result<(), Fail> {
    let server = server_of_one(rt.alloc(), 1, b"a", f2(rt.alloc())?)?;
    let mut client = Client::new(rt.alloc(), b"cog.test", b"a", 66)?;
    let mut pieces = InPieces::new(rt.alloc(), InMemory::new(&server, b"a"), &[1, 100, 7]);
    client.open(LAST_TILE);
    let reports = fetch_in_pieces(&mut client, &mut pieces, 3)?.is_some();
    expect_eq!(rt; reports, true);
    Ok(())
}

/// Expects that an answer with none of the server's files isn't lost. The client learns that there is none, and asks again.
#[test]
fn loses_nothing_of_an_answer_without_a_file(rt: HostRuntime) -> Result<(), Fail> {
    let server = server_of_one(rt.alloc(), 1, b"b", f1(rt.alloc())?)?;
    expect_eq!(rt; fetched(rt.alloc(), &server, b"a", b"a")?, (false, false));
    Ok(())
}

#[test]
fn tells_that_it_lost_the_answer_about_another_file(rt: HostRuntime) -> Result<(), Fail> {
    let server = server_of_one(rt.alloc(), 1, b"a", f2(rt.alloc())?)?;
    expect_eq!(rt; fetched(rt.alloc(), &server, b"a", b"b")?, (false, true));
    Ok(())
}
