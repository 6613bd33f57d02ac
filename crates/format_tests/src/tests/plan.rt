//! The groups of windows.
use crate::tests::image::{Image, change};
use crate::tests::of_level;
use assertion_support::expect_eq;
use fixtures_support::{f3, f5};
use std::alloc::Global;
use std::process::Abort;
use std::test::Fail;
use tiff_dir::{FileFault, Query};
use tile_plan::{Group, PlanError};

/// The first byte, the last byte and the number of tiles of a group.
type Shape = (u64, u64, usize);

fn shape(group: &Group) -> Shape {
    (group.span.first, group.span.last, group.tiles.len())
}

/// Returns the shapes of the groups of a window.
fn shapes(alloc: Global, image: &Image, window: Query) -> Result<Vec<Shape>, Fail> {
    let plan = image
        .plan(alloc, window)
        .map_err(|_| Fail::new("no groups"))?;
    Ok(plan.iter().map(shape).collect::<Vec<_>>(alloc)?)
}

/// Expects these shapes of the groups of a file's window.
fn expect_shapes(
    rt: &(impl Abort + AllocGlobal),
    file: Vec<u8>,
    window: Query,
    want: &[Shape],
) -> Result<(), Fail> {
    let image = Image::new(rt.alloc(), file)?;
    let shapes = shapes(rt.alloc(), &image, window)?;
    assert_eq!(rt; shapes.as_slice(), want);
    Ok(())
}

/// Expects two groups for the whole window of f5: 16 tiles have as many bytes as a group may have.
#[test]
fn joins_tiles_up_to_the_limit(rt: HostRuntime) -> Result<(), Fail> {
    expect_shapes(
        &rt,
        f5(rt.alloc())?,
        of_level(0, 0, 1280, 1024, 0),
        &[(16384, 1064959, 16), (1064960, 1327103, 4)],
    )
}

/// Makes a query of the whole window of f3's first level.
fn whole() -> Query {
    of_level(0, 0, 32, 32, 0)
}

/// Returns f3 with the offset of the first tile for all tiles.
fn equal_offsets(alloc: Global) -> Result<Vec<u8>, Fail> {
    let mut file = f3(alloc)?;
    for tile in 1..4 {
        change(&mut file, 296 + 4 * tile, 0x90);
        change(&mut file, 297 + 4 * tile, 1);
    }
    Ok(file)
}

/// Expects one group for f3's tiles, which follow each other, and a group for each tile where their offsets are equal.
#[test]
fn joins_no_tiles_of_equal_offsets(rt: HostRuntime) -> Result<(), Fail> {
    expect_shapes(&rt, f3(rt.alloc())?, whole(), &[(400, 1423, 4)])?;
    let file = equal_offsets(rt.alloc())?;
    expect_shapes(&rt, file, whole(), &[(400, 655, 1); 4])
}

/// A row has the place of a byte of an array, its new value, and the fault of f3's tiles that is reported.
const WRONG: [(usize, u8, FileFault); 4] = [
    // The byte count of tile 0 is 255, and that of tile 3 is 512.
    (312, 0xff, FileFault::TileSize),
    (325, 2, FileFault::TileSize),
    // Tile 3 begins past the end.
    (309, 0xff, FileFault::PastEnd),
    (310, 1, FileFault::PastEnd),
];

/// Returns why there is no plan of f3's whole window where these bytes are changed.
fn refusal(alloc: Global, changes: &[(usize, u8)]) -> Result<Option<PlanError>, Fail> {
    let mut file = f3(alloc)?;
    for (place, byte) in changes {
        change(&mut file, *place, *byte);
    }
    let image = Image::new(alloc, file)?;
    Ok(image.plan(alloc, whole()).err())
}

#[test]
fn refuses_each_wrong_tile(rt: HostRuntime) -> Result<(), Fail> {
    for (place, byte, fault) in WRONG {
        let plan = refusal(rt.alloc(), &[(place, byte)])?;
        expect_eq!(rt; plan, Some(PlanError::File(fault)), "{place}");
    }
    Ok(())
}

/// Expects the fault of the first tile where two tiles of f3 have one each. Where one tile has both, the fault is its size.
#[test]
fn tells_the_fault_of_the_first_tile(rt: HostRuntime) -> Result<(), Fail> {
    for (first, second, fault) in [
        ((302, 1), (325, 2), FileFault::PastEnd),
        ((317, 2), (310, 1), FileFault::TileSize),
        ((310, 1), (325, 2), FileFault::TileSize),
    ] {
        let plan = refusal(rt.alloc(), &[first, second])?;
        expect_eq!(rt; plan, Some(PlanError::File(fault)), "{first:?} {second:?}");
    }
    Ok(())
}
