//! The shape of a level: its sides, its tiles and their arrays.
use crate::fields::{exceeds, product};
use crate::stands::add_if;
use reference_support::{field, is_level, value};
use std::alloc::AllocError;
use tiff_dir::FileFault;
use tiff_dir::limits::{MAX_TILE_BYTES, MAX_TILES};
use tiff_dir::tags::{
    BITS_PER_SAMPLE, IMAGE_LENGTH, IMAGE_WIDTH, SAMPLES_PER_PIXEL, TILE_BYTE_COUNTS, TILE_LENGTH,
    TILE_OFFSETS, TILE_WIDTH,
};

/// Returns the width and the length of directory `k`.
fn sides(file: &[u8], k: u32) -> Option<(u64, u64)> {
    Some((
        value(file, k, IMAGE_WIDTH, 0)?,
        value(file, k, IMAGE_LENGTH, 0)?,
    ))
}

/// Returns the level before directory `k`.
fn previous_level(file: &[u8], k: u32) -> Option<u32> {
    (0..k).filter(|before| is_level(file, *before)).last()
}

/// Returns whether the level isn't smaller than the one before. A smaller one is in neither side greater, and smaller in one.
fn is_not_smaller(file: &[u8], k: u32) -> bool {
    let Some(before) = previous_level(file, k) else {
        return false;
    };
    match (sides(file, k), sides(file, before)) {
        (Some(here), Some(there)) => here.0 > there.0 || here.1 > there.1 || here == there,
        _ => false,
    }
}

fn is_tile_side(side: u64) -> bool {
    side > 0 && side % 16 == 0
}

fn has_no_tile_side(file: &[u8], k: u32, tag: u16) -> bool {
    match value(file, k, tag, 0) {
        Some(side) => !is_tile_side(side),
        None => false,
    }
}

/// Returns how many bytes a sample has. A depth other than 8 and 16 bits gives `None`.
fn sample_size(file: &[u8], k: u32) -> Option<u64> {
    match value(file, k, BITS_PER_SAMPLE, 0)? {
        8 => Some(1),
        16 => Some(2),
        _ => None,
    }
}

/// Returns the numbers whose product is how many bytes a row of an unpacked tile has.
pub fn row_factors(file: &[u8], k: u32) -> Option<[u64; 3]> {
    Some([
        value(file, k, TILE_WIDTH, 0)?,
        value(file, k, SAMPLES_PER_PIXEL, 0)?,
        sample_size(file, k)?,
    ])
}

/// Returns the numbers whose product is how many bytes an unpacked tile has.
fn tile_factors(file: &[u8], k: u32) -> Option<[u64; 4]> {
    let [tile_width, samples, size] = row_factors(file, k)?;
    Some([tile_width, value(file, k, TILE_LENGTH, 0)?, samples, size])
}

/// Returns how many bytes an unpacked tile of directory `k` has, where the number has 128 bits.
pub fn plain_size(file: &[u8], k: u32) -> Option<u128> {
    product(&tile_factors(file, k)?)
}

/// Returns how many tiles stand along a side, if tiles have a side.
fn tiles_along(side: u64, tile_side: u64) -> Option<u64> {
    if tile_side == 0 {
        return None;
    }
    Some(side.div_ceil(tile_side))
}

/// Returns how many tiles stand side by side in directory `k`, and how many one below another.
fn grid(file: &[u8], k: u32) -> Option<[u64; 2]> {
    let (width, length) = sides(file, k)?;
    let tile_width = value(file, k, TILE_WIDTH, 0)?;
    let tile_length = value(file, k, TILE_LENGTH, 0)?;
    Some([
        tiles_along(width, tile_width)?,
        tiles_along(length, tile_length)?,
    ])
}

/// Returns whether an array of tiles has another count than there are tiles.
fn is_no_tile_array(file: &[u8], k: u32, tag: u16) -> bool {
    let (Some(grid), Some(entry)) = (grid(file, k), field(file, k, tag)) else {
        return false;
    };
    match entry.count {
        Some(count) => product(&grid) != Some(u128::from(count)),
        None => false,
    }
}

/// Adds what is wrong with the shape of directory `k`: LevelShape, TileSize and TileArray.
pub fn add_shape_faults(
    faults: &mut Vec<FileFault>,
    file: &[u8],
    k: u32,
) -> Result<(), AllocError> {
    let has_no_side = |tag| value(file, k, tag, 0) == Some(0);
    add_if(
        faults,
        has_no_side(IMAGE_WIDTH) || has_no_side(IMAGE_LENGTH) || is_not_smaller(file, k),
        FileFault::LevelShape,
    )?;
    let is_large_tile = match tile_factors(file, k) {
        Some(factors) => exceeds(&factors, MAX_TILE_BYTES),
        None => false,
    };
    add_if(
        faults,
        has_no_tile_side(file, k, TILE_WIDTH)
            || has_no_tile_side(file, k, TILE_LENGTH)
            || is_large_tile,
        FileFault::TileSize,
    )?;
    let has_many_tiles = match grid(file, k) {
        Some(grid) => exceeds(&grid, MAX_TILES),
        None => false,
    };
    add_if(
        faults,
        has_many_tiles
            || is_no_tile_array(file, k, TILE_OFFSETS)
            || is_no_tile_array(file, k, TILE_BYTE_COUNTS),
        FileFault::TileArray,
    )
}
