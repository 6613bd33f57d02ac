//! What an answer does to a client, case by case.
use super::exchanges::OF_ONES;
use super::expect;
use assertion_support::expect_eq;
use cog_client_support::Answer::{
    self, Bytes, CutPart, CutWhole, Part, PartOf, ShortWhole, Text, Whole, WholeOf,
};
use cog_client_support::Step::{
    Asks, AsksNothing, Forgets, Ignores, IsSilent, Opens, Reads, Reports, Restarts, Stands, Takes,
    TakesMore,
};
use cog_client_support::{
    ASKS_END, ASKS_FRONT, END, F2_REPLACED, F2_TWICE, FIRST, NEW, NOT_FOUND, OLD, Positions,
    Revisions, Step,
};
use cog_reader_support::{Fixture, Want};
use std::test::Fail;
use tiff_dir::FileFault;

/// The positions of the first block.
const FRONT: Positions = (0, 16383);

/// The head of an answer with a whole file that is one byte longer than f2.
const LONGER: &[u8] = b"HTTP/1.1 200 OK\r\nETag: \"1-1\"\r\nContent-Length: 67707\r\n\r\n";

/// The file f2, replaced by f1.
const F2_BY_F1: Revisions<'static> = Revisions {
    files: [Fixture::F2, Fixture::F1],
    ..F2_TWICE
};

/// Answers before the first request, after `open`, `forget` or a request for nothing, and while a report stands.
const NOTHING_ASKED: [Step<'static>; 21] = [
    Ignores(Part(0, 0, 65535), 12),
    AsksNothing,
    Ignores(Part(0, 0, 65535), 12),
    Opens(240, 240, 16, 16),
    Ignores(Part(0, 0, 65535), 12),
    Ignores(Text(NOT_FOUND), 3),
    Asks(FIRST, None),
    Opens(240, 240, 16, 16),
    Ignores(Part(0, 0, 65535), 12),
    Asks(FIRST, None),
    Forgets,
    Ignores(Part(0, 0, 65535), 12),
    Reads(0, 2),
    Reports(OLD, OF_ONES),
    Ignores(Part(0, 0, 65535), 12),
    Ignores(Whole(1), 12),
    Ignores(Text(NOT_FOUND), 3),
    Reports(OLD, OF_ONES),
    Opens(0, 128, 1, 1),
    Ignores(Whole(1), 12),
    AsksNothing,
];

/// Parts of another revision, of whatever length and place, and however alike the tags are.
const OTHER_REVISION: [Step<'static>; 10] = [
    Ignores(Part(1, 65536, 67705), 10),
    Ignores(Part(1, 0, 65535), 10),
    Ignores(Part(1, 0, 67705), 10),
    Ignores(Bytes(NEW, 65536, b"abc", 70000), 10),
    Ignores(Bytes("\"1-11\"", 65536, b"abc", 67706), 10),
    Ignores(Bytes("\"1-\"", 65536, b"abc", 67706), 10),
    Ignores(Bytes("\"\"", 65536, b"abc", 67706), 10),
    Asks(END, Some(OLD)),
    Reads(0, 1),
    Reports(OLD, OF_ONES),
];

/// Answers with another length of the file: a byte shorter, a byte longer, or no bytes. They have a part or a whole file, inside of what is
/// asked or beside it.
const OTHER_LENGTH: [Step<'static>; 11] = [
    Ignores(PartOf(0, 65536, 67704, 67705), 11),
    Ignores(PartOf(0, 0, 65535, 67705), 11),
    Ignores(ShortWhole(0, 1), 11),
    Ignores(PartOf(0, 65536, 67705, 67707), 11),
    Ignores(Bytes(OLD, 65536, b"abc", 67707), 11),
    Ignores(Bytes(OLD, 67706, b"a", 67707), 11),
    Ignores(WholeOf(OLD, b""), 11),
    Ignores(Text(LONGER), 11),
    Asks(END, Some(OLD)),
    Takes(Part(0, 65536, 67705), 1),
    Reports(OLD, OF_ONES),
];

/// A row has an answer without any byte that is asked, and the same with one byte more.
const CUTS: [(Answer<'static>, Answer<'static>); 6] = [
    (CutPart(0, 65000, 65536, 1), Part(0, 65000, 65536)),
    (CutPart(0, 65536, 65536, 1), Part(0, 65536, 65536)),
    (
        CutPart(0, 65536, 67705, 2170),
        CutPart(0, 65536, 67705, 2169),
    ),
    (CutPart(0, 67705, 67705, 1), Part(0, 67705, 67705)),
    (CutPart(0, 0, 67705, 2170), CutPart(0, 0, 67705, 2169)),
    (CutWhole(0, 2170), CutWhole(0, 2169)),
];

/// A row has how many bytes at the end of a whole file of another revision are lost, and the positions that are missing then.
const FRONTS: [(usize, Positions); 5] = [
    (67706, FRONT),
    (51323, FRONT),
    (51322, END),
    (1, END),
    (0, END),
];

const BESIDE_THE_END: [Step<'static>; 4] = [
    Ignores(Part(0, 0, 0), 12),
    Ignores(Part(0, 65535, 65535), 12),
    TakesMore(Part(0, 65536, 65536), 0),
    TakesMore(Part(0, 67705, 67705), 0),
];

const BESIDE_THE_FRONT: [Step<'static>; 13] = [
    Takes(Part(0, 0, 0), 0),
    Asks(FRONT, Some(OLD)),
    Ignores(Part(0, 16384, 16384), 12),
    Ignores(Part(0, 67705, 67705), 12),
    TakesMore(Part(0, 0, 0), 0),
    TakesMore(Part(0, 16383, 16383), 0),
    TakesMore(Part(0, 0, 16383), 1),
    Opens(0, 99, 1, 1),
    Asks((16384, 32767), Some(OLD)),
    Ignores(Part(0, 16383, 16383), 12),
    Ignores(Part(0, 32768, 32768), 12),
    TakesMore(Part(0, 16384, 16384), 0),
    TakesMore(Part(0, 32767, 32767), 0),
];

/// What is asked stays the same until the next request. One answer comes again, or the blocks come in several answers.
const SEVERAL_ANSWERS: [Step<'static>; 13] = [
    Takes(Part(0, 16384, 32767), 1),
    Stands(Some(FIRST), Some(OLD)),
    IsSilent,
    TakesMore(Part(0, 0, 8191), 0),
    TakesMore(Part(0, 8192, 16383), 0),
    TakesMore(Part(0, 1, 16384), 0),
    TakesMore(Part(0, 0, 65535), 3),
    TakesMore(Part(0, 0, 65535), 0),
    TakesMore(Part(0, 0, 67705), 0),
    TakesMore(Part(0, 65535, 65536), 0),
    Asks(END, Some(OLD)),
    Takes(Whole(0), 1),
    Reports(OLD, OF_ONES),
];

const BLOCKS_BESIDE: [Step<'static>; 7] = [
    Takes(Part(0, 0, 0), 0),
    Asks(FRONT, Some(OLD)),
    Takes(Whole(0), 1),
    Asks(END, Some(OLD)),
    Takes(Whole(0), 1),
    Opens(0, 99, 1, 1),
    Asks((16384, 32767), Some(OLD)),
];

/// The answer comes again: it is of the client's revision then.
const BACK_AGAIN: [Step<'static>; 6] = [
    Restarts(Whole(1)),
    TakesMore(Whole(1), 0),
    Restarts(Whole(0)),
    Stands(Some(FIRST), Some(OLD)),
    Reads(0, 1),
    Reports(OLD, OF_ONES),
];

/// The new file has another image.
const TO_THE_REPORT: [Step<'static>; 6] = [
    Restarts(Whole(1)),
    Reports(NEW, Want::Fault(FileFault::Outside)),
    Ignores(Whole(1), 12),
    Opens(2, 1, 3, 1),
    AsksNothing,
    Reports(NEW, Want::Window(3, 1, 1, 8, &[0x12, 0x13, 0x14])),
];

const TO_NO_BYTES: [Step<'static>; 2] = [
    Restarts(WholeOf("\"0\"", b"")),
    Reports("\"0\"", Want::Fault(FileFault::PastEnd)),
];

#[test]
fn ignores_answers_while_nothing_is_asked(rt: HostRuntime) -> Result<(), Fail> {
    expect(&rt, &F2_TWICE, &[&NOTHING_ASKED])
}

#[test]
fn ignores_a_part_of_another_revision(rt: HostRuntime) -> Result<(), Fail> {
    expect(&rt, &F2_REPLACED, &[&ASKS_END, &OTHER_REVISION])
}

#[test]
fn ignores_another_length_under_its_tag(rt: HostRuntime) -> Result<(), Fail> {
    expect(&rt, &F2_TWICE, &[&ASKS_END, &OTHER_LENGTH])
}

#[test]
fn ignores_bytes_before_the_end_that_is_asked(rt: HostRuntime) -> Result<(), Fail> {
    expect(&rt, &F2_TWICE, &[&ASKS_END, &BESIDE_THE_END])
}

#[test]
fn ignores_bytes_beside_the_block_that_is_asked(rt: HostRuntime) -> Result<(), Fail> {
    expect(&rt, &F2_TWICE, &[&ASKS_FRONT, &BESIDE_THE_FRONT])
}

#[test]
fn takes_what_is_asked_in_several_answers(rt: HostRuntime) -> Result<(), Fail> {
    expect(&rt, &F2_TWICE, &[&ASKS_FRONT, &SEVERAL_ANSWERS])
}

#[test]
fn keeps_no_block_that_is_not_asked(rt: HostRuntime) -> Result<(), Fail> {
    expect(&rt, &F2_TWICE, &[&ASKS_FRONT, &BLOCKS_BESIDE])
}

#[test]
fn restarts_with_each_whole_file_of_another_revision(rt: HostRuntime) -> Result<(), Fail> {
    expect(&rt, &F2_REPLACED, &[&ASKS_END, &BACK_AGAIN])
}

#[test]
fn reports_at_once_where_a_restart_brings_all(rt: HostRuntime) -> Result<(), Fail> {
    expect(&rt, &F2_BY_F1, &[&ASKS_END, &TO_THE_REPORT])
}

#[test]
fn restarts_with_a_file_without_bytes(rt: HostRuntime) -> Result<(), Fail> {
    expect(&rt, &F2_TWICE, &[&ASKS_END, &TO_NO_BYTES])
}

#[test]
fn takes_a_cut_answer_from_its_first_byte_that_is_asked(rt: HostRuntime) -> Result<(), Fail> {
    for (cut, longer) in CUTS {
        let steps = [Ignores(cut, 12), TakesMore(longer, 0), Asks(END, Some(OLD))];
        let found = F2_TWICE.otherwise(rt.alloc(), &[&ASKS_END, &steps])?;
        expect_eq!(rt; found, None, "{cut:?}");
    }
    Ok(())
}

#[test]
fn restarts_with_a_front_of_another_revision(rt: HostRuntime) -> Result<(), Fail> {
    for (lost, positions) in FRONTS {
        let steps = [
            Restarts(CutWhole(1, lost)),
            IsSilent,
            Stands(Some(FIRST), Some(NEW)),
            Asks(positions, Some(NEW)),
        ];
        let found = F2_REPLACED.otherwise(rt.alloc(), &[&ASKS_END, &steps])?;
        expect_eq!(rt; found, None, "{lost} bytes are lost");
    }
    Ok(())
}
