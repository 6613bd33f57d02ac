//! Fixtures with a few changed bytes.
use super::image::{Answer, Image};
use cog_reader_support::{Fixture, Want, change, is_wanted, of_level};
use std::alloc::{AllocError, Global};
use std::process::Abort;
use std::test::Fail;
use tiff_dir::{FileFault, Query};

/// A row has a place in f1, the bytes that are put there, and the fault of the window `0 0 1 1`. Then comes how many ranges were wanted
/// before it.
const ONE_TILE: [(usize, &[u8], FileFault, usize); 16] = [
    (0, b"IM", FileFault::Header, 1),
    (2, &[43], FileFault::Header, 1),
    (4, &[9, 0, 0, 0], FileFault::DirPlace, 1),
    (118, &[7, 0, 0, 0], FileFault::DirPlace, 3),
    (118, &[0xfe, 0xff, 0xff, 0xff], FileFault::PastEnd, 3),
    (8, &[0xff, 0xff], FileFault::DirCount, 2),
    (22, &[0x00, 0x01], FileFault::TagOrder, 3),
    (36, &[4], FileFault::FieldType(258), 3),
    (18, &[0], FileFault::LevelShape, 3),
    (54, &[5], FileFault::Unsupported(259), 3),
    (78, &[0], FileFault::TileSize, 3),
    (98, &[0xff, 0xff, 0xff, 0xff], FileFault::TileArray, 3),
    (102, &[0xff, 0xff, 0xff, 0xff], FileFault::PastEnd, 5),
    (114, &[0xff, 0x00], FileFault::TileSize, 5),
    (114, &[0x00, 0x00], FileFault::TileSize, 5),
    // The next directory is the first one again, until there are 16.
    (118, &[8, 0, 0, 0], FileFault::TooManyDirs, 33),
];

/// Expects the outcome of a query of the file, and how many ranges were wanted. A failure prints the row's name.
fn expect(
    rt: &(impl Abort + AllocGlobal),
    name: &str,
    file: Vec<u8>,
    query: Query,
    (want, ranges): (Want<'_>, usize),
) -> Result<(), Fail> {
    let mut image = Image::new(rt.alloc(), file);
    let answer = image.answer(rt.alloc(), query);
    let Answer { wanted, outcome } = answer.ok().ok_or("no memory")?;
    assert!(rt;
        is_wanted(outcome, want) && wanted.len() == ranges,
        "{name}: {query:?}: {outcome:?}: {wanted:?}"
    );
    Ok(())
}

#[test]
fn tells_the_fault_of_a_changed_file(rt: HostRuntime) -> Result<(), Fail> {
    for (place, bytes, fault, ranges) in ONE_TILE {
        let mut file = Fixture::F1.file(rt.alloc())?;
        change(&mut file, place, bytes);
        let query = of_level(0, 0, 1, 1, 0);
        expect(&rt, "f1", file, query, (Want::Fault(fault), ranges))?;
    }
    Ok(())
}

/// Expects a group for each tile where the four offsets of a level's tiles are that of the first.
#[test]
fn reads_one_segment_four_times(rt: HostRuntime) -> Result<(), Fail> {
    let mut file = Fixture::F3.file(rt.alloc())?;
    for place in [296, 300, 304, 308] {
        change(&mut file, place, &[0x90, 0x01, 0x00, 0x00]);
    }
    let want = Want::Window(2, 2, 1, 8, &[0x10, 0x10, 0x10, 0x10]);
    expect(&rt, "f3", file, of_level(15, 15, 2, 2, 0), (want, 11))
}

/// A row has a place in f3, the bytes that are put there, and the fault of Info. Then comes how many ranges were wanted before it.
const TWO_LEVELS: [(usize, &[u8], FileFault, usize); 8] = [
    (134, &[0xff, 0xff, 0xff, 0xff], FileFault::TooLarge, 5),
    (120, &[11], FileFault::FieldType(33550), 5),
    (132, &[4], FileFault::FieldType(34735), 5),
    (138, &[0xff, 0xff], FileFault::PastEnd, 5),
    (352, &[2], FileFault::KeyHead, 9),
    (358, &[4], FileFault::KeyHead, 9),
    (368, &[0x00, 0x04], FileFault::KeyOrder, 9),
    (362, &[5], FileFault::KeyPlace, 9),
];

/// Expects that faults of the geo fields are faults for Info alone.
#[test]
fn tells_faults_of_geo_fields_for_info_alone(rt: HostRuntime) -> Result<(), Fail> {
    for (place, bytes, fault, ranges) in TWO_LEVELS {
        let mut file = Fixture::F3.file(rt.alloc())?;
        change(&mut file, place, bytes);
        let same = Vec::from_slice(rt.alloc(), &file)?;
        expect(&rt, "f3", file, Query::Info, (Want::Fault(fault), ranges))?;
        let first = Want::Window(1, 1, 1, 8, &[0x10]);
        expect(&rt, "f3", same, of_level(0, 0, 1, 1, 0), (first, 8))?;
    }
    Ok(())
}

/// A row has what it shows, a fixture, bytes that are put at places in it, and a query. That is the width and the height of the window from
/// 0 0 in level 0, or Info. Then come the fault that is reported first, and how many ranges were wanted before it.
type Ordered = (
    &'static str,
    Fixture,
    &'static [(usize, &'static [u8])],
    Option<(u32, u32)>,
    FileFault,
    usize,
);

#[rattlefmt::skip]
const ORDERS: [Ordered; 11] = [
    ("the end of a geo field before the head of the keys", Fixture::F3, &[(126, &[0xff; 4]), (352, &[2])], None, FileFault::PastEnd, 8),
    ("the end of a geo field before the place of a key", Fixture::F3, &[(126, &[0xff; 4]), (362, &[5])], None, FileFault::PastEnd, 8),
    ("a geo field past the end is the next range", Fixture::F3, &[(126, &[0xff; 4])], None, FileFault::PastEnd, 8),
    ("the byte count of a tile before the packets of another", Fixture::F4, &[(164, &[3]), (158, &[0, 0])], Some((20, 18)), FileFault::TileSize, 6),
    ("the end of a tile before the packets of another", Fixture::F4, &[(164, &[3]), (155, &[1])], Some((20, 18)), FileFault::PastEnd, 6),
    ("packets alone, when all tiles are read", Fixture::F4, &[(164, &[3])], Some((20, 18)), FileFault::Packet, 7),
    ("tile offsets past the end are the next range", Fixture::F3, &[(102, &[0xff; 4])], Some((1, 1)), FileFault::PastEnd, 5),
    ("byte counts past the end are the next range", Fixture::F3, &[(114, &[0xff; 4])], Some((1, 1)), FileFault::PastEnd, 6),
    ("a window past the side before the arrays", Fixture::F3, &[(102, &[0xff; 4])], Some((33, 1)), FileFault::Outside, 5),
    ("a depth of 12 of one sample", Fixture::F6, &[(42, &[12])], Some((1, 1)), FileFault::Unsupported(258), 3),
    ("a depth of 12 before tiles of no side", Fixture::F6, &[(42, &[12]), (78, &[0])], Some((1, 1)), FileFault::Unsupported(258), 3),
];

/// Returns a fixture with other bytes at some places.
fn changed(
    alloc: Global,
    fixture: Fixture,
    changes: &[(usize, &[u8])],
) -> Result<Vec<u8>, AllocError> {
    let mut file = fixture.file(alloc)?;
    for (place, bytes) in changes {
        change(&mut file, *place, bytes);
    }
    Ok(file)
}

#[test]
fn tells_the_first_fault_of_the_order_of_the_checks(rt: HostRuntime) -> Result<(), Fail> {
    for (name, fixture, changes, window, fault, ranges) in ORDERS {
        let file = changed(rt.alloc(), fixture, changes)?;
        let query = window.map_or(Query::Info, |(w, h)| of_level(0, 0, w, h, 0));
        expect(&rt, name, file, query, (Want::Fault(fault), ranges))?;
    }
    Ok(())
}
