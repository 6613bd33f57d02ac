//! Walks over the fixtures: the ranges that they take, and the levels that they end with.
use super::{course_of, fault_of, place};
use assertion_support::expect_eq;
use fixtures_support::{f1, f1m, f2, f3, f4, f5};
use reference_support::Course;
use std::process::Abort;
use std::test::Fail;
use tiff_dir::{Codec, Compression, FileFault, Kind, Level, Order, Span, Walk};

/// Returns whether these are the ranges, each by its first and its last byte.
fn are_ranges(ranges: &[Span], want: &[(u64, u64)]) -> bool {
    ranges.len() == want.len()
        && ranges
            .iter()
            .zip(want.iter())
            .all(|(span, want)| (span.first, span.last) == *want)
}

/// Returns the levels of a file without faults, and the ranges that a walk over it took.
fn levels_of<R: Abort + AllocGlobal>(
    rt: &R,
    file: &[u8],
) -> Result<(Vec<Span>, Order, Vec<Level>), Fail> {
    let Course { ranges, end } = course_of(rt, file)?;
    match end {
        Ok(walk) => {
            expect_eq!(rt; walk.given() as usize, ranges.len());
            let order = walk.order();
            Ok((ranges, order, Vec::from_slice(rt.alloc(), walk.levels())?))
        }
        Err(_) => Err(Fail::new("a fault")),
    }
}

#[test]
fn walks_over_one_tile_in_both_orders(rt: HostRuntime) -> Result<(), Fail> {
    expect_eq!(rt; Walk::new(rt.alloc()).given(), 0);
    let files = [
        (f1(rt.alloc())?, Order::Little),
        (f1m(rt.alloc())?, Order::Big),
    ];
    for (file, want) in files {
        let (ranges, order, levels) = levels_of(&rt, &file)?;
        assert!(rt; are_ranges(&ranges, &[(0, 7), (8, 9), (10, 121)]));
        expect_eq!(rt; order, want);
        expect_eq!(rt; levels.len(), 1);
        let first = levels.first().ok_or("no level")?;
        expect_eq!(rt; (first.width, first.length), (16, 16));
        expect_eq!(rt; (first.tile_width, first.tile_length), (16, 16));
        expect_eq!(rt; (first.samples, first.bits), (1, 8));
        expect_eq!(rt; first.compression, Compression::Plain);
        expect_eq!(rt; first.offsets, place(102, 4, 1, Kind::Long));
        expect_eq!(rt; first.counts, place(114, 4, 1, Kind::Long));
    }
    Ok(())
}

#[test]
fn reads_a_width_of_type_long(rt: HostRuntime) -> Result<(), Fail> {
    let file = f1(rt.alloc())?;
    let mut long = f1(rt.alloc())?;
    if let Some(kind) = long.get_mut(12) {
        *kind = 4;
    }
    let (_ranges, _order, levels) = levels_of(&rt, &file)?;
    let (_ranges, _order, same) = levels_of(&rt, &long)?;
    assert_eq!(rt; levels.as_slice(), same.as_slice());
    Ok(())
}

#[test]
fn finds_the_arrays_of_many_tiles(rt: HostRuntime) -> Result<(), Fail> {
    let rows = [
        (f2(rt.alloc())?, 256, 1024, 1146),
        (f5(rt.alloc())?, 20, 80, 202),
    ];
    for (file, count, len, counts) in rows {
        let (_ranges, _order, levels) = levels_of(&rt, &file)?;
        let first = levels.first().ok_or("no level")?;
        expect_eq!(rt; first.offsets, place(122, len, count, Kind::Long));
        expect_eq!(rt; first.counts, place(counts, len, count, Kind::Long));
    }
    Ok(())
}

#[test]
fn walks_over_two_levels(rt: HostRuntime) -> Result<(), Fail> {
    let (ranges, _order, levels) = levels_of(&rt, &f3(rt.alloc())?)?;
    let want = [(0, 7), (8, 9), (10, 169), (170, 171), (172, 295)];
    assert!(rt; are_ranges(&ranges, &want));
    expect_eq!(rt; levels.len(), 2);
    let first = levels.first().ok_or("no level")?;
    expect_eq!(rt; first.offsets, place(296, 16, 4, Kind::Long));
    expect_eq!(rt; first.counts, place(312, 16, 4, Kind::Long));
    let second = levels.last().ok_or("no level")?;
    expect_eq!(rt; second.offsets, place(276, 4, 1, Kind::Long));
    expect_eq!(rt; second.counts, place(288, 4, 1, Kind::Long));
    expect_eq!(rt; second.compression, Compression::Packed(Codec::PackBits));
    Ok(())
}

#[test]
fn walks_over_values_outside_their_entries(rt: HostRuntime) -> Result<(), Fail> {
    let (ranges, _order, levels) = levels_of(&rt, &f4(rt.alloc())?)?;
    let want = [(0, 7), (8, 9), (10, 133), (134, 139)];
    assert!(rt; are_ranges(&ranges, &want));
    expect_eq!(rt; levels.len(), 1);
    let first = levels.first().ok_or("no level")?;
    expect_eq!(rt; first.samples, 3);
    expect_eq!(rt; first.offsets, place(140, 16, 4, Kind::Long));
    expect_eq!(rt; first.counts, place(156, 8, 4, Kind::Short));
    Ok(())
}

#[test]
fn refuses_a_directory_past_the_end(rt: HostRuntime) -> Result<(), Fail> {
    let mut file = f1(rt.alloc())?;
    for (at, byte) in [(118, 0xfe), (119, 0xff), (120, 0xff), (121, 0xff)] {
        if let Some(place) = file.get_mut(at) {
            *place = byte;
        }
    }
    expect_eq!(rt; fault_of(&rt, &file)?, Some(FileFault::PastEnd));
    Ok(())
}
