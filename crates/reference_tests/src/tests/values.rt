//! Levels, values and samples of the fixtures, by the plain program, with worked values.
use super::queries::{expect_needs, window};
use assertion_support::expect_eq;
use fixtures_support::{f1, f1m, f2, f2b, f3, f4, f5, f6, f6m};
use reference_support::{
    Grid, Level, level_of, level_samples, level_sides, number, order_of, sample, unpack, value,
    values,
};
use std::alloc::Global;
use std::process::Abort;
use std::test::Fail;
use tiff_dir::{Codec, Compression, Kind, Order, Place};

fn at(first: u64, len: u64, count: u32) -> Place {
    Place {
        first,
        len,
        count,
        kind: Kind::Long,
    }
}

/// Makes a level with tiles of 16 by 16.
fn level(side: u32, compression: Compression, offsets: Place, counts: Place) -> Level {
    Level {
        grid: Grid {
            width: side,
            length: side,
            tile_width: 16,
            tile_length: 16,
        },
        samples: 1,
        bits: 8,
        compression,
        offsets,
        counts,
    }
}

/// A row has the level, the column and the row of a pixel, the number of a sample in it, and its value.
type Sample = ((u32, u32, u32, u16), Option<u64>);

/// Expects these samples of a file.
fn expect_samples<R: Abort + AllocGlobal>(
    rt: &R,
    file: &[u8],
    rows: &[Sample],
) -> Result<(), Fail> {
    for ((level, x, y, c), want) in rows {
        let found = sample(rt.alloc(), file, *level, *x, *y, *c)?;
        expect_eq!(rt; found, *want, "in level {level} at {x} {y}");
    }
    Ok(())
}

#[test]
fn reads_single_samples(rt: HostRuntime) -> Result<(), Fail> {
    let alloc = rt.alloc();
    let ramp = [((0, 15, 2, 0), Some(47)), ((1, 0, 0, 0), None)];
    expect_samples(&rt, &f1(alloc)?, &ramp)?;
    expect_samples(&rt, &f1m(alloc)?, &ramp)?;
    expect_samples(&rt, &f2(alloc)?, &[((0, 240, 255, 0), Some(255))])?;
    expect_samples(&rt, &f2b(alloc)?, &[((0, 240, 255, 0), Some(0))])?;
    let levels = [((0, 31, 15, 0), Some(17)), ((1, 3, 9, 0), Some(9))];
    expect_samples(&rt, &f3(alloc)?, &levels)?;
    expect_samples(&rt, &f4(alloc)?, &[((0, 16, 17, 1), Some(3))])?;
    expect_samples(&rt, &f6(alloc)?, &[((0, 1, 1, 0), Some(32785))])
}

/// Returns a file of two levels, in which a tile of the second is damaged.
fn damaged(alloc: Global) -> Result<Vec<u8>, Fail> {
    let mut file = f3(alloc)?;
    match file.get_mut(1454) {
        Some(byte) => *byte = 0xf2,
        None => return Err(Fail::new("short")),
    }
    Ok(file)
}

#[test]
fn reads_no_sample_of_a_damaged_tile(rt: HostRuntime) -> Result<(), Fail> {
    let alloc = rt.alloc();
    let rows = [((1, 0, 0, 0), None), ((0, 0, 0, 0), Some(16))];
    expect_samples(&rt, &damaged(alloc)?, &rows)?;
    let mut short = f1(alloc)?;
    short.truncate(377);
    expect_samples(&rt, &short, &[((0, 0, 0, 0), None)])?;
    let want = [(0, 8), (8, 2), (10, 112), (102, 4), (114, 4), (122, 256)];
    expect_needs(&rt, alloc, &short, window(0, 0, 1, 1, 0), &want, 5)
}

#[test]
fn describes_each_level(rt: HostRuntime) -> Result<(), Fail> {
    let alloc = rt.alloc();
    let one = level(16, Compression::Plain, at(102, 4, 1), at(114, 4, 1));
    let many = level(
        256,
        Compression::Plain,
        at(122, 1024, 256),
        at(1146, 1024, 256),
    );
    let first = level(32, Compression::Plain, at(296, 16, 4), at(312, 16, 4));
    let second = level(
        16,
        Compression::Packed(Codec::PackBits),
        at(276, 4, 1),
        at(288, 4, 1),
    );
    let rows = [
        (f1(alloc)?, one, None),
        (f1m(alloc)?, one, None),
        (f2(alloc)?, many, None),
        (f2b(alloc)?, many, None),
        (f3(alloc)?, first, Some(second)),
    ];
    for (file, level_0, level_1) in rows {
        expect_eq!(rt; level_of(alloc, &file, 0)?, Some(level_0));
        expect_eq!(rt; level_of(alloc, &file, 1)?, level_1);
        expect_eq!(rt; level_of(alloc, &file, 2)?, None);
    }
    Ok(())
}

/// Rows of values of fields of f3: the directory, the field, the number of the value, and the value.
const VALUES: [(u32, u16, u64, Option<u64>); 15] = [
    (0, 324, 0, Some(400)),
    (0, 324, 3, Some(1168)),
    (0, 324, 4, None),
    (0, 325, 3, Some(256)),
    (0, 254, 0, Some(0)),
    (0, 277, 0, Some(1)),
    (0, 33550, 2, Some(0x3ff0_0000_0000_0000)),
    (0, 34735, 4, Some(1024)),
    (0, 34735, 15, Some(0)),
    (0, 34737, 6, Some(0x7c)),
    (1, 254, 0, Some(1)),
    (1, 259, 0, Some(32773)),
    (1, 324, 0, Some(1424)),
    (1, 325, 0, Some(32)),
    (1, 33550, 0, None),
];

#[test]
fn reads_numbers_and_values(rt: HostRuntime) -> Result<(), Fail> {
    let file = f3(rt.alloc())?;
    let orders = [
        order_of(&file),
        order_of(&f1m(rt.alloc())?),
        order_of(b"IM"),
    ];
    expect_eq!(rt; orders, [Some(Order::Little), Some(Order::Big), None]);
    let numbers = [number(&file, 384, 8), number(&file, 1449, 8)];
    expect_eq!(rt; numbers, [Some(0x0102_0304_0506_0708), None]);
    for (k, tag, i, want) in VALUES {
        expect_eq!(rt; value(&file, k, tag, i), want, "at {k} {tag} {i}");
    }
    Ok(())
}

#[test]
fn unpacks_the_example_of_the_standard(rt: HostRuntime) -> Result<(), Fail> {
    let packed = b"\xfe\xaa\x02\x80\x00\x2a\xfd\xaa\x03\x80\x00\x2a\x22\xf7\xaa";
    let want =
        b"\xaa\xaa\xaa\x80\x00\x2a\xaa\xaa\xaa\xaa\x80\x00\x2a\x22\xaa\xaa\xaa\xaa\xaa\xaa\xaa\xaa\xaa\xaa";
    match unpack(rt.alloc(), packed, 24)? {
        Some(plain) => assert_eq!(rt; plain.as_slice(), want.as_slice()),
        None => return Err(Fail::new("no packets")),
    }
    assert!(rt; unpack(rt.alloc(), packed, 12)?.is_none());
    assert!(rt; unpack(rt.alloc(), b"\x80\x80", 0)?.is_some());
    assert!(rt; unpack(rt.alloc(), b"\x00\x2a", 0)?.is_none());
    Ok(())
}

/// Returns the first `len` bytes, or all.
fn front(file: &[u8], len: usize) -> &[u8] {
    file.get(..len).unwrap_or(file)
}

/// Expects all values of a field of the first directory, or that there is none.
fn expect_values(
    rt: &impl Abort,
    alloc: Global,
    file: &[u8],
    tag: u16,
    want: Option<&[u64]>,
) -> Result<(), Fail> {
    let found = values(alloc, file, 0, tag)?;
    match &found {
        Some(found) => assert_eq!(rt; Some(found.as_slice()), want, "of {tag}"),
        None => assert_eq!(rt; None, want, "of {tag}"),
    }
    Ok(())
}

/// The numbers of the keys of f3.
const KEYS: [u64; 16] = [
    1, 1, 0, 3, 1024, 0, 1, 2, 1026, 34737, 7, 0, 2057, 34736, 1, 0,
];

/// The fields of f3 that say where it lies, and one that it lacks.
const PLACING: [(u16, Option<&[u64]>); 5] = [
    (34735, Some(&KEYS)),
    (34736, Some(&[0x0102_0304_0506_0708])),
    (34737, Some(&[87, 71, 83, 32, 56, 52, 124, 0])),
    (33550, Some(&[0x3ff0_0000_0000_0000; 3])),
    (33922, None),
];

/// Expects the sides of two levels.
fn expect_sides(rt: &impl Abort, alloc: Global, file: &[u8]) -> Result<(), Fail> {
    let sides = level_sides(alloc, file)?.ok_or("no sides")?;
    assert_eq!(rt; sides.as_slice(), [(32, 32), (16, 16)].as_slice());
    Ok(())
}

#[test]
fn reads_what_info_tells(rt: HostRuntime) -> Result<(), Fail> {
    let alloc = rt.alloc();
    let file = f3(alloc)?;
    expect_sides(&rt, alloc, &file)?;
    expect_eq!(rt; value(&file, 0, 34735, 2), Some(0));
    for (tag, want) in PLACING {
        expect_values(&rt, alloc, &file, tag, want)?;
    }
    expect_values(&rt, alloc, front(&file, 383), 34735, None)?;
    assert!(rt; level_sides(alloc, front(&file, 190))?.is_none());
    Ok(())
}

/// Samples that are equal in cells of `columns` columns and `rows` rows. They rise from `first` on from cell to cell. There are `across`
/// cells side by side.
#[derive(Clone, Copy)]
struct Cells {
    first: u64,
    columns: u16,
    rows: u16,
    across: u16,
}

impl Cells {
    /// Returns the sample in column `x` and row `y`.
    fn sample(&self, x: u16, y: u16) -> Option<u64> {
        let (column, row) = (x.checked_div(self.columns)?, y.checked_div(self.rows)?);
        self.first.checked_add(u64::from(row) * u64::from(self.across) + u64::from(column))
    }
}

/// Expects row `y` of the cells, which has `width` samples.
fn expect_row<R: Abort>(
    rt: &R,
    row: &[u64],
    y: u16,
    width: u16,
    cells: &Cells,
) -> Result<(), Fail> {
    expect_eq!(rt; row.len(), usize::from(width));
    for x in 0..width {
        expect_eq!(rt;
            row.get(usize::from(x)).copied(),
            cells.sample(x, y),
            "at {x} {y}"
        );
    }
    Ok(())
}

/// Expects level `n`, of these sides, to have the samples of the cells.
fn expect_level<R: Abort + AllocGlobal>(
    rt: &R,
    file: &[u8],
    n: u32,
    sides: (u16, u16),
    cells: Cells,
) -> Result<(), Fail> {
    let rows = level_samples(rt.alloc(), file, n)?.ok_or("no samples")?;
    expect_eq!(rt; rows.len(), usize::from(sides.1));
    for y in 0..sides.1 {
        let row = rows.get(usize::from(y)).ok_or("no row")?;
        expect_row(rt, row, y, sides.0, &cells)?;
    }
    Ok(())
}

fn cells_of(first: u64, columns: u16, rows: u16, across: u16) -> Cells {
    Cells {
        first,
        columns,
        rows,
        across,
    }
}

#[test]
fn reads_all_samples_of_one_tile(rt: HostRuntime) -> Result<(), Fail> {
    let alloc = rt.alloc();
    for file in [f1(alloc)?, f1m(alloc)?] {
        expect_level(&rt, &file, 0, (16, 16), cells_of(0, 1, 1, 16))?;
    }
    for file in [f6(alloc)?, f6m(alloc)?] {
        expect_level(&rt, &file, 0, (16, 16), cells_of(32768, 1, 1, 16))?;
    }
    Ok(())
}

#[test]
fn reads_all_samples_of_even_tiles(rt: HostRuntime) -> Result<(), Fail> {
    let alloc = rt.alloc();
    expect_level(&rt, &f2(alloc)?, 0, (256, 256), cells_of(0, 16, 16, 16))?;
    expect_level(&rt, &f3(alloc)?, 0, (32, 32), cells_of(16, 16, 16, 2))?;
    expect_level(&rt, &f3(alloc)?, 1, (16, 16), cells_of(0, 16, 1, 1))?;
    expect_level(&rt, &f5(alloc)?, 0, (1280, 1024), cells_of(0, 256, 256, 5))
}

/// Expects a row of 20 pixels of f4.
fn expect_pixels(rt: &impl Abort, row: &[u64], y: u16) -> Result<(), Fail> {
    expect_eq!(rt; row.len(), 60);
    for x in 0..20u16 {
        let first = 3 * usize::from(x);
        let pixel = row.get(first..first + 3).ok_or("no pixel")?;
        let want = if x % 16 == 0 {
            [u64::from(y % 16), u64::from(y / 16 * 2 + x / 16), 255]
        } else {
            [128; 3]
        };
        assert_eq!(rt; pixel, want.as_slice(), "at {x} {y}");
    }
    Ok(())
}

#[test]
fn reads_three_samples_of_a_pixel(rt: HostRuntime) -> Result<(), Fail> {
    let rows = level_samples(rt.alloc(), &f4(rt.alloc())?, 0)?.ok_or("no samples")?;
    expect_eq!(rt; rows.len(), 18);
    for y in 0..18u16 {
        expect_pixels(&rt, rows.get(usize::from(y)).ok_or("no row")?, y)?;
    }
    Ok(())
}

#[test]
fn reads_no_samples_of_a_cut_level(rt: HostRuntime) -> Result<(), Fail> {
    let alloc = rt.alloc();
    let mut file = f3(alloc)?;
    file.truncate(1455);
    assert!(rt; level_samples(alloc, &file, 1)?.is_none());
    assert!(rt; level_samples(alloc, &file, 0)?.is_some());
    assert!(rt; level_samples(alloc, &file, 2)?.is_none());
    Ok(())
}
