//! Exchanges: what is asked, what each answer does, and what is reported.
use super::expect;
use cog_client_support::Answer::{CutPart, Part, Text, Whole};
use cog_client_support::Step::{
    Asks, AsksNothing, Forgets, Ignores, IsSilent, Opens, Reads, Reports, Restarts, Stands, Takes,
};
use cog_client_support::{
    ASKS_END, ASKS_FRONT, END, F2_REPLACED, F2_TWICE, FIRST, NEW, NOT_FOUND, OLD, Revisions, Step,
};
use cog_reader_support::{Fixture, Want};
use std::test::Fail;

/// The last tiles of f2 and of f2b.
pub const OF_ONES: Want<'static> = Want::Window(16, 16, 1, 8, &[0xff; 256]);

pub const OF_ZEROS: Want<'static> = Want::Window(16, 16, 1, 8, &[0; 256]);

/// The same window of f1 and of f1m.
const SMALL: Want<'static> = Want::Window(3, 2, 1, 8, &[0x12, 0x13, 0x14, 0x22, 0x23, 0x24]);

/// The tag of the first publication of a later epoch.
const LATER: &str = "\"2-1\"";

/// The file f2, published again in a later epoch.
const F2_LATER: Revisions<'static> = Revisions {
    tags: [OLD, LATER],
    ..F2_TWICE
};

/// The file f1, replaced by one with the other byte order.
const F1: Revisions<'static> = Revisions {
    files: [Fixture::F1, Fixture::F1m],
    ..F2_TWICE
};

const ONE_ANSWER: [Step<'static>; 11] = [
    Opens(2, 1, 3, 2),
    Asks(FIRST, None),
    IsSilent,
    Takes(Part(0, 0, 377), 1),
    Reports(OLD, SMALL),
    AsksNothing,
    Reports(OLD, SMALL),
    Forgets,
    Asks(FIRST, None),
    Takes(Part(1, 0, 377), 1),
    Reports(NEW, SMALL),
];

const TWO_ANSWERS: [Step<'static>; 7] = [
    Takes(Part(0, 0, 65535), 4),
    IsSilent,
    Stands(Some(FIRST), Some(OLD)),
    Asks(END, Some(OLD)),
    Takes(Part(0, 65536, 67705), 1),
    Reports(OLD, OF_ONES),
    AsksNothing,
];

/// Steps in which an answer of the first publication comes late, too.
const REPLACED: [Step<'static>; 8] = [
    Restarts(Whole(1)),
    IsSilent,
    Stands(Some(FIRST), Some(NEW)),
    Ignores(Part(0, 0, 65535), 10),
    Asks(END, Some(NEW)),
    Ignores(Part(0, 0, 65535), 10),
    Takes(Part(1, 65536, 67705), 1),
    Reports(NEW, OF_ZEROS),
];

const LATER_EPOCH: [Step<'static>; 4] = [
    Restarts(Whole(1)),
    Asks(END, Some(LATER)),
    Takes(Part(1, 65536, 67705), 1),
    Reports(LATER, OF_ONES),
];

/// Steps with fronts of 170 and 16,554 bytes. The head has 171 bytes.
const NO_WHOLE_BLOCK: [Step<'static>; 4] = [
    Ignores(CutPart(0, 0, 65535, 65537), 1),
    Asks(FIRST, None),
    Takes(CutPart(0, 0, 65535, 49153), 0),
    Asks((0, 16383), Some(OLD)),
];

/// Steps with a front of 16,555 bytes.
const WHOLE_BLOCK: [Step<'static>; 2] = [
    Takes(CutPart(0, 0, 65535, 49152), 1),
    Asks(END, Some(OLD)),
];

const FORGETS: [Step<'static>; 12] = [
    Takes(Part(0, 0, 65535), 4),
    Forgets,
    Stands(None, None),
    Ignores(Part(0, 0, 65535), 12),
    Asks(FIRST, None),
    Takes(Part(0, 0, 65535), 4),
    Opens(0, 0, 1, 1),
    Stands(None, Some(OLD)),
    Ignores(Part(0, 0, 65535), 12),
    Opens(240, 240, 16, 16),
    Reads(0, 1),
    Reports(OLD, OF_ONES),
];

const NOT_PUBLISHED: [Step<'static>; 2] = [Ignores(Text(NOT_FOUND), 3), Asks(FIRST, None)];

const NO_QUERY: [Step<'static>; 5] = [
    Stands(None, None),
    IsSilent,
    AsksNothing,
    Forgets,
    AsksNothing,
];

#[test]
fn reads_a_window_with_one_answer(rt: HostRuntime) -> Result<(), Fail> {
    expect(&rt, &F1, &[&ONE_ANSWER])
}

#[test]
fn reads_a_window_with_two_answers(rt: HostRuntime) -> Result<(), Fail> {
    expect(&rt, &F2_TWICE, &[&ASKS_FRONT, &TWO_ANSWERS])
}

#[test]
fn restarts_where_the_file_is_replaced_between(rt: HostRuntime) -> Result<(), Fail> {
    expect(&rt, &F2_REPLACED, &[&ASKS_END, &REPLACED])
}

#[test]
fn restarts_where_the_same_bytes_have_a_later_tag(rt: HostRuntime) -> Result<(), Fail> {
    expect(&rt, &F2_LATER, &[&ASKS_END, &LATER_EPOCH])
}

#[test]
fn asks_again_for_a_block_that_was_cut(rt: HostRuntime) -> Result<(), Fail> {
    expect(&rt, &F2_TWICE, &[&ASKS_FRONT, &NO_WHOLE_BLOCK])
}

#[test]
fn keeps_a_block_that_came_whole(rt: HostRuntime) -> Result<(), Fail> {
    expect(&rt, &F2_TWICE, &[&ASKS_FRONT, &WHOLE_BLOCK])
}

#[test]
fn forgets_revision_and_blocks(rt: HostRuntime) -> Result<(), Fail> {
    expect(&rt, &F2_TWICE, &[&ASKS_FRONT, &FORGETS])
}

#[test]
fn asks_again_where_the_name_is_not_found(rt: HostRuntime) -> Result<(), Fail> {
    expect(&rt, &F2_TWICE, &[&ASKS_FRONT, &NOT_PUBLISHED])
}

#[test]
fn asks_nothing_without_a_query(rt: HostRuntime) -> Result<(), Fail> {
    expect(&rt, &F2_TWICE, &[&NO_QUERY])
}
