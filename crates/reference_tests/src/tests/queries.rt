//! What queries on the fixtures ask for, by the plain program: ranges, tiles and rectangles.
use assertion_support::expect_eq;
use fixtures_support::{f1, f1m, f2, f3, f5};
use reference_support::{
    Extent, asked_rectangle, cost, is_outside, is_refused, is_too_large, needs,
    needs_of_directories, window_tiles,
};
use std::alloc::Global;
use std::process::Abort;
use std::test::Fail;
use tiff_dir::{Pick, Query};

pub fn window(x: u32, y: u32, w: u32, h: u32, level: u32) -> Query {
    Query::Window {
        x,
        y,
        w,
        h,
        pick: Pick::Level(level),
    }
}

fn columns(x: u32, y: u32, w: u32, h: u32, columns: u32) -> Query {
    Query::Window {
        x,
        y,
        w,
        h,
        pick: Pick::Columns(columns),
    }
}

fn expect_ranges(rt: &impl Abort, ranges: &[Extent], want: &[(u64, u64)]) {
    expect_eq!(rt; ranges.len(), want.len());
    for (range, (first, len)) in ranges.iter().zip(want.iter()) {
        let pair = (range.first, range.len);
        expect_eq!(rt; pair, (*first, *len));
    }
}

pub fn expect_needs(
    rt: &impl Abort,
    alloc: Global,
    file: &[u8],
    query: Query,
    want: &[(u64, u64)],
    blocks: u64,
) -> Result<(), Fail> {
    match needs(alloc, file, query)? {
        Some(ranges) => expect_ranges(rt, &ranges, want),
        None => return Err(Fail::new("no ranges")),
    }
    expect_eq!(rt; cost(alloc, file, query)?, Some(blocks));
    Ok(())
}

/// Expects these tiles of the window.
fn expect_tiles(
    rt: &impl Abort,
    alloc: Global,
    file: &[u8],
    query: Query,
    want: &[u64],
) -> Result<(), Fail> {
    match window_tiles(alloc, file, query)? {
        Some(tiles) => assert_eq!(rt; tiles.as_slice(), want),
        None => return Err(Fail::new("no tiles")),
    }
    Ok(())
}

/// The ranges that are read of f1 and f1m, whatever is asked of their tile.
const OF_ONE_TILE: [(u64, u64); 6] = [(0, 8), (8, 2), (10, 112), (102, 4), (114, 4), (122, 256)];

/// The ranges that are read of f2, where its last tile is asked for, or all of them.
const OF_LAST_TILE: [(u64, u64); 6] = [
    (0, 8),
    (8, 2),
    (10, 112),
    (122, 1024),
    (1146, 1024),
    (67450, 256),
];

const OF_ALL_TILES: [(u64, u64); 6] = [
    (0, 8),
    (8, 2),
    (10, 112),
    (122, 1024),
    (1146, 1024),
    (2170, 65536),
];

/// The ranges that are read of f3, where four tiles of its first level are asked for, or the tile of its second.
const OF_FIRST_LEVEL: [(u64, u64); 8] = [
    (0, 8),
    (8, 2),
    (10, 160),
    (170, 2),
    (172, 124),
    (296, 16),
    (312, 16),
    (400, 1024),
];

const OF_SECOND_LEVEL: [(u64, u64); 8] = [
    (0, 8),
    (8, 2),
    (10, 160),
    (170, 2),
    (172, 124),
    (276, 4),
    (288, 4),
    (1424, 32),
];

/// Returns a file of one tile with compression 5.
fn compressed(alloc: Global) -> Result<Vec<u8>, Fail> {
    let mut file = f1(alloc)?;
    if let Some(byte) = file.get_mut(54) {
        *byte = 5;
    }
    Ok(file)
}

/// Expects the ranges that are read of f3, by windows and by its directories alone.
fn expect_needs_of_levels(rt: &impl Abort, alloc: Global, file: &[u8]) -> Result<(), Fail> {
    expect_needs(rt, alloc, file, window(15, 15, 2, 2, 0), &OF_FIRST_LEVEL, 8)?;
    expect_needs(rt, alloc, file, window(0, 0, 1, 1, 1), &OF_SECOND_LEVEL, 8)?;
    let every = needs_of_directories(alloc, file)?;
    expect_ranges(rt, &every, &OF_FIRST_LEVEL[..5]);
    Ok(())
}

#[test]
fn lists_what_windows_need(rt: HostRuntime) -> Result<(), Fail> {
    let alloc = rt.alloc();
    let (first, last) = (window(0, 0, 1, 1, 0), window(15, 15, 1, 1, 0));
    expect_needs(&rt, alloc, &f1(alloc)?, first, &OF_ONE_TILE, 6)?;
    expect_needs(&rt, alloc, &f1m(alloc)?, last, &OF_ONE_TILE, 6)?;
    expect_needs(&rt, alloc, &compressed(alloc)?, first, &OF_ONE_TILE, 6)?;
    let (last, whole) = (window(240, 240, 16, 16, 0), window(0, 0, 256, 256, 0));
    expect_needs(&rt, alloc, &f2(alloc)?, last, &OF_LAST_TILE, 6)?;
    expect_needs(&rt, alloc, &f2(alloc)?, whole, &OF_ALL_TILES, 10)?;
    expect_needs_of_levels(&rt, alloc, &f3(alloc)?)
}

/// Expects that a window is outside of f1.
fn expect_outside(rt: &impl Abort, alloc: Global, file: &[u8], query: Query) -> Result<(), Fail> {
    let told = (
        is_outside(alloc, file, query)?,
        is_refused(alloc, file, query)?,
    );
    expect_eq!(rt; told, (true, true));
    expect_tiles(rt, alloc, file, query, &[])?;
    expect_needs(rt, alloc, file, query, &OF_ONE_TILE[..3], 3)
}

/// Expects that the whole of f1 isn't refused, and which windows are too large.
fn expect_sizes(rt: &impl Abort, alloc: Global, file: &[u8]) -> Result<(), Fail> {
    let whole = window(0, 0, 16, 16, 0);
    let told = (
        is_outside(alloc, file, whole)?,
        is_refused(alloc, file, whole)?,
    );
    expect_eq!(rt; told, (false, false));
    let (most, more) = (window(0, 0, 4096, 1024, 0), window(0, 0, 4096, 1025, 0));
    let told = (
        is_too_large(alloc, file, most)?,
        is_too_large(alloc, file, more)?,
    );
    expect_eq!(rt; told, (false, true));
    Ok(())
}

#[test]
fn refuses_windows_outside_or_too_large(rt: HostRuntime) -> Result<(), Fail> {
    let file = f1(rt.alloc())?;
    let rows = [
        window(16, 0, 1, 1, 0),
        window(0, 0, 0, 1, 0),
        window(4294967295, 0, 2, 1, 0),
        window(0, 0, 1, 1, 1),
    ];
    for query in rows {
        expect_outside(&rt, rt.alloc(), &file, query)?;
    }
    expect_sizes(&rt, rt.alloc(), &file)
}

#[test]
fn lists_the_tiles_of_windows(rt: HostRuntime) -> Result<(), Fail> {
    let alloc = rt.alloc();
    let many = f2(alloc)?;
    expect_tiles(&rt, alloc, &many, window(240, 240, 16, 16, 0), &[255])?;
    expect_tiles(&rt, alloc, &many, window(0, 0, 1, 1, 0), &[0])?;
    expect_tiles(&rt, alloc, &many, window(15, 0, 2, 1, 0), &[0, 1])?;
    let file = f3(alloc)?;
    expect_tiles(&rt, alloc, &file, window(15, 15, 2, 2, 0), &[0, 1, 2, 3])?;
    expect_tiles(&rt, alloc, &file, window(0, 0, 1, 1, 1), &[0])?;
    Ok(())
}

/// Expects the query to ask for this rectangle of a level: left, top, width and height.
fn expect_rectangle(
    rt: &impl Abort,
    alloc: Global,
    file: &[u8],
    query: Query,
    level: usize,
    want: [u128; 4],
) -> Result<(), Fail> {
    match asked_rectangle(alloc, file, query)? {
        Some(r) => {
            expect_eq!(rt; r.level, level);
            expect_eq!(rt; [r.left, r.top, r.width, r.height], want);
        }
        None => return Err(Fail::new("no rectangle")),
    }
    Ok(())
}

/// Expects that queries ask for these rectangles of f3. Those of the first level aren't refused.
fn expect_rectangles(rt: &impl Abort, alloc: Global, file: &[u8]) -> Result<(), Fail> {
    let rows = [
        (window(5, 6, 7, 8, 1), 1, [5, 6, 7, 8]),
        (columns(0, 0, 32, 32, 16), 1, [0, 0, 16, 16]),
        (columns(0, 0, 32, 32, 17), 0, [0, 0, 32, 32]),
        (columns(5, 0, 3, 1, 1), 1, [2, 0, 2, 1]),
    ];
    for (query, level, want) in rows {
        expect_rectangle(rt, alloc, file, query, level, want)?;
        assert!(rt; !is_refused(alloc, file, query)? || level == 1);
    }
    Ok(())
}

/// Expects that windows by columns are outside of f3, and ask for no tile.
fn expect_columns_outside(rt: &impl Abort, alloc: Global, file: &[u8]) -> Result<(), Fail> {
    let outside = [
        columns(0, 0, 32, 32, 0),
        columns(4294967295, 0, 2, 1, 1),
        columns(31, 31, 2, 1, 1),
        columns(0, 0, 0, 1, 1),
    ];
    for query in outside {
        assert!(rt; is_outside(alloc, file, query)?);
        expect_tiles(rt, alloc, file, query, &[])?;
    }
    Ok(())
}

#[test]
fn finds_the_rectangle_of_a_query(rt: HostRuntime) -> Result<(), Fail> {
    let alloc = rt.alloc();
    let file = f3(alloc)?;
    expect_rectangles(&rt, alloc, &file)?;
    expect_eq!(rt; asked_rectangle(alloc, &file, Query::Info)?, None);
    expect_columns_outside(&rt, alloc, &file)?;
    assert!(rt; !is_refused(alloc, &file, Query::Info)?);
    expect_tiles(&rt, alloc, &file, columns(5, 0, 3, 1, 1), &[0])
}

#[test]
fn joins_large_tiles_up_to_the_limit(rt: HostRuntime) -> Result<(), Fail> {
    let alloc = rt.alloc();
    let file = f5(alloc)?;
    let want = [
        (0, 8),
        (8, 2),
        (10, 112),
        (122, 80),
        (202, 80),
        (16384, 1048576),
        (1064960, 262144),
    ];
    expect_needs(&rt, alloc, &file, window(0, 0, 1280, 1024, 0), &want, 85)
}

#[test]
fn lists_what_info_needs(rt: HostRuntime) -> Result<(), Fail> {
    let alloc = rt.alloc();
    let one = [(0, 8), (8, 2), (10, 112)];
    expect_needs(&rt, alloc, &f1(alloc)?, Query::Info, &one, 3)?;
    let keys = [
        (0, 8),
        (8, 2),
        (10, 160),
        (170, 2),
        (172, 124),
        (352, 32),
        (384, 8),
        (392, 8),
        (328, 24),
    ];
    expect_needs(&rt, alloc, &f3(alloc)?, Query::Info, &keys, 9)
}
