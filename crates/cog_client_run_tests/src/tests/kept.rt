//! What a client keeps from one query to the next.
use assertion_support::expect_eq;
use cog_client_support::Answer::{Part, PartOf, Whole};
use cog_client_support::Step::{
    Asks, AsksNothing, Forgets, Ignores, IsSilent, Open, Opens, Reads, Reports, Stands, Takes,
    TakesMore,
};
use cog_client_support::{ASKS_FRONT, F2_TWICE, FIRST, NEW, OLD, Revisions, Step};
use cog_reader_support::{Fixture, Want};
use std::process::Abort;
use std::test::Fail;
use tiff_dir::{FileFault, Query};

/// The last tile of f2.
const OF_ONES: Want<'static> = Want::Window(16, 16, 1, 8, &[0xff; 256]);

/// The file f1, published twice.
const F1_TWICE: Revisions<'static> = Revisions {
    files: [Fixture::F1, Fixture::F1],
    ..F2_TWICE
};

/// The file f2, replaced by f3.
const F2_BY_F3: Revisions<'static> = Revisions {
    files: [Fixture::F2, Fixture::F3],
    ..F2_TWICE
};

/// Steps after the windows of two exchanges, which reach every block of f2. No other window needs a request.
const ALL_BLOCKS: [Step<'static>; 26] = [
    Reads(0, 2),
    Opens(0, 0, 1, 1),
    IsSilent,
    Stands(None, Some(OLD)),
    AsksNothing,
    Reports(OLD, Want::Window(1, 1, 1, 8, &[0])),
    Opens(47, 31, 2, 2),
    IsSilent,
    Stands(None, Some(OLD)),
    AsksNothing,
    Reports(OLD, Want::Window(2, 2, 1, 8, &[18, 19, 34, 35])),
    Opens(240, 240, 16, 16),
    IsSilent,
    Stands(None, Some(OLD)),
    AsksNothing,
    Reports(OLD, OF_ONES),
    Opens(255, 255, 2, 1),
    IsSilent,
    Stands(None, Some(OLD)),
    AsksNothing,
    Reports(OLD, Want::Fault(FileFault::Outside)),
    Opens(240, 240, 16, 16),
    IsSilent,
    Stands(None, Some(OLD)),
    AsksNothing,
    Reports(OLD, OF_ONES),
];

/// Steps with a window that is asked after other queries.
const OPENED_AGAIN: [Step<'static>; 10] = [
    Open(Query::Info),
    Asks(FIRST, None),
    Opens(240, 240, 16, 16),
    Asks(FIRST, None),
    Opens(7, 5, 2, 1),
    Ignores(Part(0, 0, 377), 12),
    Asks(FIRST, None),
    Asks(FIRST, None),
    Takes(Part(0, 0, 377), 1),
    Reports(OLD, Want::Window(2, 1, 1, 8, &[0x57, 0x58])),
];

/// Steps with a window that another revision answers, after the client forgot the first.
const FORGOTTEN: [Step<'static>; 10] = [
    Opens(0, 16, 1, 1),
    Asks(FIRST, None),
    Reads(0, 1),
    Reports(OLD, Want::Window(1, 1, 1, 8, &[16])),
    Forgets,
    IsSilent,
    Stands(None, None),
    Asks(FIRST, None),
    Takes(Part(1, 0, 1455), 1),
    Reports(NEW, Want::Window(1, 1, 1, 8, &[0x12])),
];

/// Steps with two parts of one block, in either order.
const HALVES: [Step<'static>; 12] = [
    Opens(0, 0, 1, 1),
    Asks(FIRST, None),
    Takes(Part(0, 0, 200), 0),
    IsSilent,
    Stands(Some(FIRST), Some(OLD)),
    TakesMore(Part(0, 201, 377), 0),
    TakesMore(Part(0, 1, 377), 0),
    TakesMore(Part(0, 0, 376), 0),
    Asks((0, 377), Some(OLD)),
    Ignores(PartOf(0, 0, 377, 379), 11),
    Takes(Whole(0), 1),
    Reports(OLD, Want::Window(1, 1, 1, 8, &[0])),
];

/// Expects that these lists of steps go as they say, one after another, with a new client.
fn expect(
    rt: &(impl Abort + AllocGlobal),
    revisions: &Revisions<'_>,
    parts: &[&[Step<'_>]],
) -> Result<(), Fail> {
    expect_eq!(rt; revisions.otherwise(rt.alloc(), parts)?, None);
    Ok(())
}

#[test]
fn asks_nothing_where_all_blocks_are_there(rt: HostRuntime) -> Result<(), Fail> {
    expect(&rt, &F2_TWICE, &[&ASKS_FRONT, &ALL_BLOCKS])
}

#[test]
fn answers_the_query_of_the_last_opening(rt: HostRuntime) -> Result<(), Fail> {
    expect(&rt, &F1_TWICE, &[&OPENED_AGAIN])
}

#[test]
fn keeps_nothing_but_the_query_after_forgetting(rt: HostRuntime) -> Result<(), Fail> {
    expect(&rt, &F2_BY_F3, &[&FORGOTTEN])
}

#[test]
fn makes_no_block_of_its_parts(rt: HostRuntime) -> Result<(), Fail> {
    expect(&rt, &F1_TWICE, &[&HALVES])
}
