//! Reports of each kind after one exchange, and their copies.
use super::{expect, only};
use assertion_support::expect_eq;
use cog_client_support::Answer::Part;
use cog_client_support::Step::{Asks, AsksNothing, Copies, IsSilent, Open, Opens, Reports, Takes};
use cog_client_support::{F2_TWICE, FIRST, NotDone, OLD, Revisions, Step, otherwise};
use cog_reader_support::{
    CHANGED, FACTS_OF_F3, Facts, Fixture, NO_FACTS, WINDOWS, Want, change, of_level, window,
};
use std::alloc::Global;
use std::process::Abort;
use std::test::Fail;
use tiff_dir::{FileFault, Pick, Query};

/// Returns the number of the first step that doesn't go as expected. A new client is answered with all bytes of a file of one block.
fn exchange_otherwise(
    alloc: Global,
    file: &[u8],
    query: Query,
    want: Want<'_>,
) -> Result<Option<usize>, NotDone> {
    let last = file.len().checked_sub(1).ok_or(NotDone::NoSuchPart)?;
    let steps = [
        Open(query),
        Asks(FIRST, None),
        IsSilent,
        Takes(Part(0, 0, last), 1),
        Reports(OLD, want),
        Copies,
        AsksNothing,
        Reports(OLD, want),
    ];
    otherwise(alloc, &only(file), &[&steps])
}

const FACTS_OF_F1: Facts<'static> = Facts {
    sides: &[(16, 16)],
    ..NO_FACTS
};

/// The contents of Info of f3 without its scale.
const WITHOUT_SCALE: Facts<'static> = Facts {
    scale: None,
    ..FACTS_OF_F3
};

/// A row has a file, bytes that are put at a place in it, and the outcome of Info.
const INFO: [(Fixture, (usize, &[u8]), Want<'static>); 4] = [
    (
        Fixture::F1,
        (54, &[5]),
        Want::Fault(FileFault::Unsupported(259)),
    ),
    (Fixture::F1, (0, b""), Want::Info(FACTS_OF_F1)),
    (Fixture::F3, (0, b""), Want::Info(FACTS_OF_F3)),
    // A tag that isn't named, of an unknown type, stands instead of the scale's.
    (
        Fixture::F3,
        (118, &[0x0f, 0x83, 0xff]),
        Want::Info(WITHOUT_SCALE),
    ),
];

/// A row has bytes that are put at a place in f1, and the fault of the window of its first pixel.
const FAULTS_OF_F1: [(usize, &[u8], FileFault); 16] = [
    (0, b"IM", FileFault::Header),
    (2, &[43], FileFault::Header),
    (4, &[9, 0, 0, 0], FileFault::DirPlace),
    (118, &[7, 0, 0, 0], FileFault::DirPlace),
    (118, &[0xfe, 0xff, 0xff, 0xff], FileFault::PastEnd),
    (8, &[0xff, 0xff], FileFault::DirCount),
    (22, &[0x00, 0x01], FileFault::TagOrder),
    (36, &[4], FileFault::FieldType(258)),
    (18, &[0], FileFault::LevelShape),
    (54, &[5], FileFault::Unsupported(259)),
    (78, &[0], FileFault::TileSize),
    (98, &[0xff, 0xff, 0xff, 0xff], FileFault::TileArray),
    (102, &[0xff, 0xff, 0xff, 0xff], FileFault::PastEnd),
    (114, &[0xff, 0x00], FileFault::TileSize),
    (114, &[0x00, 0x00], FileFault::TileSize),
    (118, &[8, 0, 0, 0], FileFault::TooManyDirs),
];

/// Expects the outcome of a query of a changed file. A file of more than one block is passed over.
fn expect_report(
    rt: &(impl Abort + AllocGlobal),
    fixture: Fixture,
    (place, bytes): (usize, &[u8]),
    query: Query,
    want: Want<'_>,
) -> Result<(), Fail> {
    let mut file = fixture.file(rt.alloc())?;
    change(&mut file, place, bytes);
    if file.len() <= 16384 {
        let found = exchange_otherwise(rt.alloc(), &file, query, want)?;
        expect_eq!(rt; found, None, "{fixture:?} {place} {bytes:?} {query:?}");
    }
    Ok(())
}

#[test]
fn reports_windows_of_one_answer(rt: HostRuntime) -> Result<(), Fail> {
    for (fixture, numbers, want) in WINDOWS {
        expect_report(&rt, fixture, (0, b""), window(numbers), want)?;
    }
    Ok(())
}

#[test]
fn reports_windows_of_changed_files(rt: HostRuntime) -> Result<(), Fail> {
    for (fixture, changed, numbers, want) in CHANGED {
        expect_report(&rt, fixture, changed, window(numbers), want)?;
    }
    Ok(())
}

#[test]
fn reports_the_fault_of_a_file_that_lies(rt: HostRuntime) -> Result<(), Fail> {
    for (place, bytes, fault) in FAULTS_OF_F1 {
        let query = of_level(0, 0, 1, 1, 0);
        expect_report(&rt, Fixture::F1, (place, bytes), query, Want::Fault(fault))?;
    }
    Ok(())
}

#[test]
fn reports_info_of_one_answer(rt: HostRuntime) -> Result<(), Fail> {
    for (fixture, changed, want) in INFO {
        expect_report(&rt, fixture, changed, Query::Info, want)?;
    }
    Ok(())
}

/// Returns the samples of level 0 of f3. Each sample of tile t is 16 + t.
fn large_samples(alloc: Global) -> Result<Vec<u8>, NotDone> {
    let mut samples = Vec::new(alloc);
    for row in 0..32u8 {
        let tile = 16 + row / 16 * 2;
        samples.extend_from_slice(&[tile; 16])?;
        samples.extend_from_slice(&[tile + 1; 16])?;
    }
    Ok(samples)
}

/// Returns the samples of level 1 of f3. Each sample of row r is r.
fn small_samples(alloc: Global) -> Result<Vec<u8>, NotDone> {
    let mut samples = Vec::new(alloc);
    for row in 0..16u8 {
        samples.extend_from_slice(&[row; 16])?;
    }
    Ok(samples)
}

/// Returns the first step that doesn't go as expected where f3 is asked for the level of `columns` columns.
fn level_otherwise(alloc: Global, columns: u32, want: Want<'_>) -> Result<Option<usize>, NotDone> {
    let file = Fixture::F3.file(alloc)?;
    let query = window((0, 0, 32, 32, Pick::Columns(columns)));
    exchange_otherwise(alloc, &file, query, want)
}

/// Returns the first step that doesn't go as expected where f1 lacks its last byte.
fn short_otherwise(alloc: Global) -> Result<Option<usize>, NotDone> {
    let mut file = Fixture::F1.file(alloc)?;
    file.truncate(377);
    let want = Want::Fault(FileFault::PastEnd);
    exchange_otherwise(alloc, &file, of_level(0, 0, 1, 1, 0), want)
}

#[test]
fn picks_the_least_level_of_so_many_columns(rt: HostRuntime) -> Result<(), Fail> {
    let (large, small) = (large_samples(rt.alloc())?, small_samples(rt.alloc())?);
    for (columns, want) in [
        (16, Want::Window(16, 16, 1, 8, &small)),
        (17, Want::Window(32, 32, 1, 8, &large)),
    ] {
        let found = level_otherwise(rt.alloc(), columns, want)?;
        expect_eq!(rt; found, None, "{columns} columns");
    }
    Ok(())
}

/// Returns the length of the first front of f1 whose window isn't reported as a fault.
fn front_of_f1_otherwise(alloc: Global) -> Result<Option<usize>, NotDone> {
    let file = Fixture::F1.file(alloc)?;
    for len in 1..file.len() {
        let front = file.get(..len).ok_or(NotDone::NoSuchPart)?;
        let want = Want::Fault(FileFault::PastEnd);
        if exchange_otherwise(alloc, front, of_level(2, 1, 3, 2, 0), want)?.is_some() {
            return Ok(Some(len));
        }
    }
    Ok(None)
}

/// Returns the length of the first front of f3 whose Info isn't reported as expected. A front needs the first 400 bytes, which have the
/// directories and the keys.
fn front_of_f3_otherwise(alloc: Global) -> Result<Option<usize>, NotDone> {
    let file = Fixture::F3.file(alloc)?;
    for len in 1..file.len() {
        let front = file.get(..len).ok_or(NotDone::NoSuchPart)?;
        let want = match len {
            ..400 => Want::Fault(FileFault::PastEnd),
            _ => Want::Info(FACTS_OF_F3),
        };
        if exchange_otherwise(alloc, front, Query::Info, want)?.is_some() {
            return Ok(Some(len));
        }
    }
    Ok(None)
}

#[test]
fn reports_a_fault_of_a_file_that_ends_early(rt: HostRuntime) -> Result<(), Fail> {
    expect_eq!(rt; front_of_f1_otherwise(rt.alloc())?, None);
    expect_eq!(rt; front_of_f3_otherwise(rt.alloc())?, None);
    Ok(())
}

#[test]
fn reports_a_fault_where_the_last_byte_lacks(rt: HostRuntime) -> Result<(), Fail> {
    expect_eq!(rt; short_otherwise(rt.alloc())?, None);
    Ok(())
}

/// Windows of two levels of f3, in turn.
const LARGE: Want<'static> = Want::Window(2, 1, 1, 8, &[0x10, 0x11]);

const THIN_WINDOW: Query = Query::Window {
    x: 3,
    y: 4,
    w: 1,
    h: 3,
    pick: Pick::Level(1),
};

const THIN: Want<'static> = Want::Window(1, 3, 1, 8, &[4, 5, 6]);

/// The file f3, published twice.
const F3_TWICE: Revisions<'static> = Revisions {
    files: [Fixture::F3, Fixture::F3],
    ..F2_TWICE
};

const IN_TURN: [Step<'static>; 21] = [
    Opens(15, 15, 2, 2),
    Asks(FIRST, None),
    Takes(Part(0, 0, 1455), 1),
    Opens(15, 15, 2, 1),
    AsksNothing,
    Reports(OLD, LARGE),
    Open(Query::Info),
    AsksNothing,
    Reports(OLD, Want::Info(FACTS_OF_F3)),
    Open(THIN_WINDOW),
    AsksNothing,
    Reports(OLD, THIN),
    Open(Query::Info),
    AsksNothing,
    Reports(OLD, Want::Info(FACTS_OF_F3)),
    Opens(15, 15, 2, 1),
    AsksNothing,
    Reports(OLD, LARGE),
    Open(THIN_WINDOW),
    AsksNothing,
    Reports(OLD, THIN),
];

#[test]
fn answers_further_queries_from_one_answer(rt: HostRuntime) -> Result<(), Fail> {
    expect(&rt, &F3_TWICE, &[&IN_TURN])
}
