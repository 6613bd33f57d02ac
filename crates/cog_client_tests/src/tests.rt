//! Tests of a client, answer by answer.
use assertion_support::expect_eq;
use cog_client_support::{OLD, Publication, Revisions, Step};
use std::process::Abort;
use std::test::Fail;

mod checks;
mod clients;
mod deliver;
mod exchanges;
mod fronts;
mod heads;
mod reports;

/// Expects that these lists of steps go as they say, one after another, with a new client.
fn expect(
    rt: &(impl Abort + AllocGlobal),
    revisions: &Revisions<'_>,
    parts: &[&[Step<'_>]],
) -> Result<(), Fail> {
    expect_eq!(rt; revisions.otherwise(rt.alloc(), parts)?, None);
    Ok(())
}

/// Returns one publication, twice.
fn only(file: &[u8]) -> [Publication<'_>; 2] {
    [Publication { tag: OLD, file }; 2]
}
