//! The places of tiles, by the arrays of their level.
use super::{Entry, begun, end_of, fields, put_directory, put_long, put_short};
use assertion_support::expect_eq;
use fixtures_support::{f1, f1m, f3, f4};
use std::process::Abort;
use std::test::Fail;
use tiff_dir::{Level, Order, Place, tile_of};

/// Returns the bytes of an array.
fn array(file: &[u8], place: Place) -> Option<&[u8]> {
    let first = usize::try_from(place.first).ok()?;
    let len = usize::try_from(place.len).ok()?;
    file.get(first..first.checked_add(len)?)
}

/// Returns the place of tile `t` of a level, by the file's arrays.
fn tile(file: &[u8], order: Order, level: &Level, t: u32) -> Option<(u32, u32)> {
    let offsets = array(file, level.offsets)?;
    let counts = array(file, level.counts)?;
    if t >= level.offsets.count
        || offsets.len() as u64 != level.offsets.len
        || counts.len() as u64 != level.counts.len
    {
        return None;
    }
    Some(tile_of(order, level, t, offsets, counts))
}

/// Expects the tiles of level `n` at these places, and no more.
fn expect_tiles<R: Abort + AllocGlobal>(
    rt: &R,
    file: &[u8],
    n: usize,
    want: &[(u32, u32)],
) -> Result<(), Fail> {
    match end_of(rt, file)? {
        Ok(walk) => {
            let level = walk.levels().get(n).ok_or("no level")?;
            // This is no call: below it is known that they are equal.
            assert_eq!(rt; level.offsets.count as usize, want.len());
            for (t, place) in want.iter().enumerate() {
                expect_eq!(rt;
                    tile(file, walk.order(), level, t as u32),
                    Some(*place),
                    "tile {t}"
                );
            }
            Ok(())
        }
        Err(_) => Err(Fail::new("a fault")),
    }
}

#[test]
fn finds_each_tile_of_the_fixtures(rt: HostRuntime) -> Result<(), Fail> {
    expect_tiles(&rt, &f1(rt.alloc())?, 0, &[(122, 256)])?;
    expect_tiles(&rt, &f1m(rt.alloc())?, 0, &[(122, 256)])?;
    let file = f3(rt.alloc())?;
    let first = [(400, 256), (656, 256), (912, 256), (1168, 256)];
    expect_tiles(&rt, &file, 0, &first)?;
    expect_tiles(&rt, &file, 1, &[(1424, 32)])?;
    let colours = [(164, 96), (260, 96), (356, 96), (452, 96)];
    expect_tiles(&rt, &f4(rt.alloc())?, 0, &colours)
}

#[test]
fn reads_short_byte_counts_in_their_entry(rt: HostRuntime) -> Result<(), Fail> {
    for order in [Order::Little, Order::Big] {
        let mut file = begun(&rt, order, 8)?;
        let one = fields(&rt, &[(325, 3, 1, 256)])?;
        put_directory(&mut file, order, &one, 0)?;
        expect_tiles(&rt, &file, 0, &[(122, 256)])?;
    }
    // Two counts share the last four bytes of the entry: 96 and 97.
    for (order, counts) in [
        (Order::Little, 97 * 65536 + 96),
        (Order::Big, 96 * 65536 + 97),
    ] {
        let mut file = begun(&rt, order, 8)?;
        let changes = [(256, 3, 1, 32), (324, 4, 2, 122), (325, 3, 2, counts)];
        put_directory(&mut file, order, &fields(&rt, &changes)?, 0)?;
        put_long(&mut file, order, 500)?;
        put_long(&mut file, order, 600)?;
        expect_tiles(&rt, &file, 0, &[(500, 96), (600, 97)])?;
    }
    Ok(())
}

#[test]
fn finds_many_tiles_in_both_orders(rt: HostRuntime) -> Result<(), Fail> {
    for order in [Order::Little, Order::Big] {
        let mut file = begun(&rt, order, 8)?;
        let changes = [
            (256, 3, 1, 32),
            (257, 3, 1, 32),
            (324, 4, 4, 122),
            (325, 4, 4, 138),
        ];
        put_directory(&mut file, order, &fields(&rt, &changes)?, 0)?;
        for number in [1000, 70000, 3000, 16909060, 256, 257, 258, 65536] {
            put_long(&mut file, order, number)?;
        }
        let want = [(1000, 256), (70000, 257), (3000, 258), (16909060, 65536)];
        expect_tiles(&rt, &file, 0, &want)?;
    }
    Ok(())
}

// The fields of 20 by 18 pixels of three samples, with values outside their entries.
const COLOURS: [Entry; 10] = [
    (256, 3, 1, 20),
    (257, 3, 1, 18),
    (258, 3, 3, 134),
    (259, 3, 1, 32773),
    (262, 3, 1, 2),
    (277, 3, 1, 3),
    (322, 3, 1, 16),
    (323, 3, 1, 16),
    (324, 4, 4, 140),
    (325, 3, 4, 156),
];

#[test]
fn finds_tiles_of_three_samples_in_both_orders(rt: HostRuntime) -> Result<(), Fail> {
    for order in [Order::Little, Order::Big] {
        let mut file = begun(&rt, order, 8)?;
        put_directory(&mut file, order, &COLOURS, 0)?;
        for bits in [8, 8, 8] {
            put_short(&mut file, order, bits)?;
        }
        for offset in [164, 260, 356, 452] {
            put_long(&mut file, order, offset)?;
        }
        for count in [96, 97, 98, 99] {
            put_short(&mut file, order, count)?;
        }
        let want = [(164, 96), (260, 97), (356, 98), (452, 99)];
        expect_tiles(&rt, &file, 0, &want)?;
    }
    Ok(())
}
