//! The plain program's faults. The fixtures have none. Fixtures with changed bytes have all that stand by the definitions.
use faults_support::faults;
use fixtures_support::{f1, f1m, f2, f2b, f3, f4, f5, f6, f6m};
use std::alloc::{AllocError, Global};
use std::process::Abort;
use std::test::Fail;
use tiff_dir::FileFault::{
    DirCount, DirPlace, FieldType, Header, KeyHead, KeyOrder, KeyPlace, LevelShape, Missing,
    Outside, Packet, PastEnd, TagOrder, TileArray, TileSize, TooLarge, TooManyDirs, Unsupported,
};
use tiff_dir::{FileFault, Pick, Query};

/// A window by x, y, w, h and its level, or Info.
type Asked = Option<(u32, u32, u32, u32, u32)>;

const PIXEL: Asked = Some((0, 0, 1, 1, 0));

const INFO: Asked = None;

fn query_of(asked: Asked) -> Query {
    match asked {
        Some((x, y, w, h, level)) => Query::Window {
            x,
            y,
            w,
            h,
            pick: Pick::Level(level),
        },
        None => Query::Info,
    }
}

/// A row has what it shows, a place in the file, and the bytes that are put there. Then come a query, and all faults that stand, in any
/// order.
type Row = (
    &'static str,
    usize,
    &'static [u8],
    Asked,
    &'static [FileFault],
);

#[rattlefmt::skip]
const OF_F1: [Row; 25] = [
    ("two byte orders", 0, b"IM", INFO, &[Header]),
    ("number 43", 2, &[43], PIXEL, &[Header]),
    ("an odd place", 4, &[9], INFO, &[PastEnd, DirPlace, DirCount, Missing(256), Missing(257), Missing(258), Missing(259), Missing(262), Missing(322), Missing(323), Missing(324), Missing(325)]),
    ("itself as the next directory", 118, &[8], PIXEL, &[TooManyDirs]),
    ("a next directory at an odd place past the end", 118, &[0xff, 0xff], PIXEL, &[DirPlace, PastEnd]),
    ("a second 256", 22, &[0x00], INFO, &[TagOrder, Missing(257)]),
    ("depth as LONG", 36, &[4], PIXEL, &[FieldType(258)]),
    ("two depths, of which one stands in the entry", 38, &[2], PIXEL, &[FieldType(258), Unsupported(258)]),
    ("4 bits a sample", 42, &[4], PIXEL, &[Unsupported(258)]),
    ("compression 5", 54, &[5], PIXEL, &[Unsupported(259)]),
    ("photometric interpretation 2", 66, &[2], PIXEL, &[Unsupported(277)]),
    ("photometric interpretation 3", 66, &[3], PIXEL, &[Unsupported(262), Unsupported(277)]),
    ("width 0", 18, &[0], PIXEL, &[LevelShape, TileArray, Outside]),
    ("width 0 for Info", 18, &[0], INFO, &[LevelShape, TileArray]),
    ("tiles of width 0", 78, &[0], INFO, &[TileSize]),
    ("tiles of width 24", 78, &[24], INFO, &[TileSize]),
    ("an array past the end", 98, &[0xff, 0xff, 0xff, 0xff], PIXEL, &[TileArray, PastEnd]),
    ("the same array for Info", 98, &[0xff, 0xff, 0xff, 0xff], INFO, &[TileArray]),
    ("a tile past the end", 102, &[0xff, 0xff, 0xff, 0xff], PIXEL, &[PastEnd]),
    ("byte count 255", 114, &[0xff, 0x00], PIXEL, &[TileSize]),
    ("byte count 255 for Info", 114, &[0xff, 0x00], INFO, &[]),
    ("a window past the side", 0, b"I", Some((16, 0, 1, 1, 0)), &[Outside]),
    ("a window of no rows", 0, b"I", Some((0, 0, 1, 0, 0)), &[Outside]),
    ("a window of another level", 0, b"I", Some((0, 0, 1, 1, 1)), &[Outside]),
    ("a window of 4,198,400 samples", 0, b"I", Some((0, 0, 4096, 1025, 0)), &[Outside, TooLarge]),
];

#[rattlefmt::skip]
const OF_F3: [Row; 16] = [
    ("packets that don't fill the tile", 1454, &[0xf2], Some((0, 0, 1, 1, 1)), &[Packet]),
    ("the same packets, in another level", 1454, &[0xf2], PIXEL, &[]),
    ("key version 2", 352, &[2], INFO, &[KeyHead]),
    ("key version 2, and a window", 352, &[2], PIXEL, &[]),
    ("four keys of three", 358, &[4], INFO, &[KeyHead]),
    ("a key twice", 368, &[0x00, 0x04], INFO, &[KeyOrder]),
    ("location 5", 362, &[5], INFO, &[KeyPlace]),
    ("two values at location 0", 364, &[2], INFO, &[KeyPlace]),
    ("nine items of a field of eight", 372, &[9], INFO, &[KeyPlace]),
    ("no items behind the field's end", 372, &[0, 0, 200], INFO, &[]),
    ("4,294,967,295 numbers", 134, &[0xff, 0xff, 0xff, 0xff], INFO, &[TooLarge, PastEnd, KeyHead]),
    ("scale as FLOAT", 120, &[11], INFO, &[FieldType(33550)]),
    ("keys as LONG", 132, &[4], INFO, &[FieldType(34735), KeyHead, KeyOrder, KeyPlace]),
    ("keys past the end, of another version", 138, &[0xff, 0xff], INFO, &[PastEnd]),
    ("a second level as wide as the first", 192, &[33], INFO, &[LevelShape, TileArray]),
    ("a second level of another type", 172, &[0xfe, 0x00, 0x03], PIXEL, &[FieldType(254)]),
];

/// A row has what it shows, bytes that are put at places in the file, a query, and all faults that stand, in any order.
type Changed = (
    &'static str,
    &'static [(usize, &'static [u8])],
    Asked,
    &'static [FileFault],
);

#[rattlefmt::skip]
const SIDE_BY_SIDE_IN_F3: [Changed; 5] = [
    ("a scale past the end, and key version 2", &[(126, &[0xff; 4]), (352, &[2])], INFO, &[PastEnd, KeyHead]),
    ("a scale past the end, and location 5", &[(126, &[0xff; 4]), (362, &[5])], INFO, &[PastEnd, KeyPlace]),
    ("a scale past the end, and a window", &[(126, &[0xff; 4])], PIXEL, &[]),
    ("offsets of tiles past the end", &[(102, &[0xff; 4])], PIXEL, &[PastEnd]),
    ("byte counts of tiles past the end", &[(114, &[0xff; 4])], PIXEL, &[PastEnd]),
];

/// The query of all samples of f4, whose first tile is at 164.
const ALL_OF_F4: Asked = Some((0, 0, 20, 18, 0));

#[rattlefmt::skip]
const SIDE_BY_SIDE_IN_F4: [Changed; 4] = [
    ("packets of a tile, and byte count 0 of the next", &[(164, &[3]), (158, &[0, 0])], ALL_OF_F4, &[TileSize, Packet]),
    ("packets of a tile, and the last past the end", &[(164, &[3]), (155, &[1])], ALL_OF_F4, &[PastEnd, Packet]),
    ("packets alone", &[(164, &[3])], ALL_OF_F4, &[Packet]),
    ("byte count 0 of a tile that the window has not", &[(158, &[0, 0])], PIXEL, &[]),
];

/// Returns whether the faults that were found are these.
fn are_faults(found: &[FileFault], want: &[FileFault]) -> bool {
    found.len() == want.len() && want.iter().all(|fault| found.contains(fault))
}

/// Returns a file with other bytes at some places.
fn changed(
    alloc: Global,
    fixture: &[u8],
    changes: &[(usize, &[u8])],
) -> Result<Vec<u8>, AllocError> {
    let mut file = Vec::from_slice(alloc, fixture)?;
    for (place, bytes) in changes {
        for (here, byte) in file.iter_mut().skip(*place).zip(*bytes) {
            *here = *byte;
        }
    }
    Ok(file)
}

/// Expects that these faults stand, and no others.
fn expect_faults<R: Abort + AllocGlobal>(
    rt: &R,
    name: &str,
    file: &[u8],
    query: Query,
    want: &[FileFault],
) -> Result<(), Fail> {
    let found = faults(rt.alloc(), file, query)?;
    let found = found.ok_or("a level that the plain program doesn't read")?;
    assert!(rt; are_faults(&found, want), "{name}: {found:?}");
    Ok(())
}

/// Expects the faults of each row for a file with the row's bytes.
fn expect_rows<R: Abort + AllocGlobal>(rt: &R, fixture: &[u8], rows: &[Row]) -> Result<(), Fail> {
    for (name, place, bytes, asked, want) in rows {
        let file = changed(rt.alloc(), fixture, &[(*place, *bytes)])?;
        expect_faults(rt, name, &file, query_of(*asked), want)?;
    }
    Ok(())
}

#[test]
fn tells_all_faults_of_one_tile(rt: HostRuntime) -> Result<(), Fail> {
    expect_rows(&rt, &f1(rt.alloc())?, &OF_F1)
}

#[test]
fn tells_all_faults_of_levels_and_keys(rt: HostRuntime) -> Result<(), Fail> {
    expect_rows(&rt, &f3(rt.alloc())?, &OF_F3)
}

/// Expects the faults of each row for a file with changed bytes.
fn expect_changed<R: Abort + AllocGlobal>(
    rt: &R,
    fixture: &[u8],
    rows: &[Changed],
) -> Result<(), Fail> {
    for (name, changes, asked, want) in rows {
        let file = changed(rt.alloc(), fixture, changes)?;
        expect_faults(rt, name, &file, query_of(*asked), want)?;
    }
    Ok(())
}

#[test]
fn tells_faults_of_several_changes_side_by_side(rt: HostRuntime) -> Result<(), Fail> {
    expect_changed(&rt, &f3(rt.alloc())?, &SIDE_BY_SIDE_IN_F3)?;
    expect_changed(&rt, &f4(rt.alloc())?, &SIDE_BY_SIDE_IN_F4)
}

#[test]
fn tells_no_size_of_another_depth(rt: HostRuntime) -> Result<(), Fail> {
    let fixture = f1(rt.alloc())?;
    let file = changed(
        rt.alloc(),
        &fixture,
        &[(42, &[4][..]), (114, &[128, 0][..])],
    )?;
    let name = "4 bits a sample, and a tile of as many bytes";
    expect_faults(&rt, name, &file, query_of(PIXEL), &[Unsupported(258)])
}

#[test]
fn tells_a_depth_of_12_alone(rt: HostRuntime) -> Result<(), Fail> {
    let fixture = f6(rt.alloc())?;
    let file = changed(rt.alloc(), &fixture, &[(42, &[12][..])])?;
    expect_faults(
        &rt,
        "12 bits a sample, two bytes each",
        &file,
        query_of(PIXEL),
        &[Unsupported(258)],
    )
}

/// Expects two faults where the count and the offset of the only key are past the end of the field.
#[test]
fn tells_the_place_of_a_key_by_its_location(rt: HostRuntime) -> Result<(), Fail> {
    let fixture = f3(rt.alloc())?;
    let file = changed(
        rt.alloc(),
        &fixture,
        &[(134, &[6][..]), (358, &[1][..]), (362, &[5][..])],
    )?;
    let name = "six numbers, the last of which is location 5";
    expect_faults(&rt, name, &file, Query::Info, &[KeyHead, KeyPlace])
}

/// Expects the faults of two queries of the whole of a large level: by its number, and by no columns.
#[test]
fn tells_no_rectangle_of_no_columns(rt: HostRuntime) -> Result<(), Fail> {
    let fixture = f5(rt.alloc())?;
    // The level has 4096 by 4096 samples in 16 tiles of 1024 by 1024.
    let sides = [(18, &[0, 16][..]), (30, &[0, 16][..])];
    let tiles = [(78, &[0, 4][..]), (90, &[0, 4][..])];
    let arrays = [(98, &[16][..]), (110, &[16][..])];
    let wide = changed(rt.alloc(), &fixture, &sides)?;
    let cut = changed(rt.alloc(), &wide, &tiles)?;
    let file = changed(rt.alloc(), &cut, &arrays)?;
    let whole = |pick| Query::Window {
        x: 0,
        y: 0,
        w: 4096,
        h: 4096,
        pick,
    };
    expect_faults(
        &rt,
        "all columns",
        &file,
        whole(Pick::Level(0)),
        &[TooLarge],
    )?;
    expect_faults(&rt, "no column", &file, whole(Pick::Columns(0)), &[Outside])
}

/// Expects that a fixture has no fault.
fn expect_none<R: Abort + AllocGlobal>(
    rt: &R,
    name: &str,
    fixture: Result<Vec<u8>, AllocError>,
) -> Result<(), Fail> {
    let file = fixture?;
    for asked in [PIXEL, INFO, Some((3, 2, 13, 14, 0))] {
        expect_faults(rt, name, &file, query_of(asked), &[])?;
    }
    Ok(())
}

#[test]
fn tells_none_of_fixtures(rt: HostRuntime) -> Result<(), Fail> {
    let alloc = rt.alloc();
    expect_none(&rt, "f1", f1(alloc))?;
    expect_none(&rt, "f1m", f1m(alloc))?;
    expect_none(&rt, "f2", f2(alloc))?;
    expect_none(&rt, "f2b", f2b(alloc))?;
    expect_none(&rt, "f3", f3(alloc))?;
    expect_none(&rt, "f4", f4(alloc))?;
    expect_none(&rt, "f5", f5(alloc))?;
    expect_none(&rt, "f6", f6(alloc))?;
    expect_none(&rt, "f6m", f6m(alloc))
}

#[test]
fn tells_the_end_of_each_front(rt: HostRuntime) -> Result<(), Fail> {
    let file = f1(rt.alloc())?;
    for len in 0..file.len() {
        let found = faults(rt.alloc(), &file[..len], query_of(INFO))?.ok_or("not read")?;
        let want = if len < 122 { &[PastEnd][..] } else { &[][..] };
        assert!(rt; are_faults(&found, want), "at {len}: {found:?}");
    }
    Ok(())
}
