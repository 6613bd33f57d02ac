//! The test passes with ample memory, and wherever one allocation is refused.
use super::LAST_TILE;
use super::fetched::is_last_tile;
use assertion_support::expect_eq;
use cog_client::{Client, ClientError};
use cog_fetch::fetch;
use cog_server::Server;
use fixtures_support::f2;
use std::alloc::Global;
use std::process::Abort;
use std::test::Fail;
use transports::{InMemory, server_of_one};

/// Makes a client of `a`. Makes it again where memory ran out.
fn make_again(alloc: Global) -> Result<Client, ClientError> {
    match Client::new(alloc, b"cog.test", b"a", 66) {
        Err(ClientError::Memory) => Client::new(alloc, b"cog.test", b"a", 66),
        made => made,
    }
}

/// Expects the last tile from the second fetching. The first is refused under its number, or has the report unless an answer was lost.
fn fetch_again(rt: &impl Abort, server: &Server, client: &mut Client) -> Result<(), Fail> {
    let mut transport = InMemory::new(server, b"a");
    match fetch(client, &mut transport, 3) {
        Err(refusal) => expect_eq!(rt; refusal.number(), 1),
        Ok(report) => assert!(rt; report.is_some() || transport.has_lost()),
    }
    let report = fetch(client, &mut transport, 3)?.ok_or("no report")?;
    assert!(rt; is_last_tile(report));
    Ok(())
}

/// Expects that fetching is refused, or loses one answer of three. The client goes on to the same report.
#[test]
fn goes_on_after_refused_memory(rt: HostRuntime) -> Result<(), Fail> {
    let Ok(file) = f2(rt.alloc()) else {
        return Ok(());
    };
    let Ok(server) = server_of_one(rt.alloc(), 1, b"a", file) else {
        return Ok(());
    };
    let mut client = make_again(rt.alloc())?;
    client.open(LAST_TILE);
    fetch_again(&rt, &server, &mut client)
}
