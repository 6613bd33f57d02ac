//! What is wrong with a window, and with the tiles that it needs.
use crate::fields::product;
use crate::levels::{plain_size, row_factors};
use crate::stands::add_if;
use reference_support::{
    asked_rectangle, is_outside, is_too_large, level_directory, segment, unpack, value,
    window_tiles,
};
use std::alloc::{AllocError, Global};
use tiff_dir::limits::MAX_TILE_BYTES;
use tiff_dir::tags::{COMPRESSION, TILE_BYTE_COUNTS};
use tiff_dir::{FileFault, Query};

/// Returns whether the byte count of tile `t` is 0, too great, or not the size of a plain tile.
fn has_wrong_count(file: &[u8], k: u32, t: u64) -> bool {
    let Some(count) = value(file, k, TILE_BYTE_COUNTS, t) else {
        return false;
    };
    let plain = value(file, k, COMPRESSION, 0) == Some(1);
    let differs = match plain_size(file, k) {
        Some(size) => u128::from(count) != size,
        None => false,
    };
    count == 0 || count > MAX_TILE_BYTES || plain && differs
}

/// Returns how many bytes a row of an unpacked tile has. No packet crosses a row that is longer than memory.
fn plain_row(file: &[u8], k: u32) -> Option<usize> {
    let row = product(&row_factors(file, k)?).unwrap_or(u128::MAX);
    Some(usize::try_from(row).unwrap_or(usize::MAX))
}

/// Returns whether the bytes of the packed tile `t` of level `n`, directory `k`, are no packets that fill it.
fn has_bad_packets(
    alloc: Global,
    file: &[u8],
    n: usize,
    k: u32,
    t: u64,
) -> Result<bool, AllocError> {
    if value(file, k, COMPRESSION, 0) != Some(32773) {
        return Ok(false);
    }
    let (Some(row), Some(size)) = (plain_row(file, k), plain_size(file, k)) else {
        return Ok(false);
    };
    let Some(bytes) = segment(alloc, file, n, t)? else {
        return Ok(false);
    };
    match unpack(alloc, bytes, row)? {
        Some(plain) => Ok(plain.len() as u128 != size),
        None => Ok(true),
    }
}

/// Adds what is wrong with the window and its tiles: Outside, TooLarge, TileSize and Packet.
pub fn add_window_faults(
    alloc: Global,
    faults: &mut Vec<FileFault>,
    file: &[u8],
    query: Query,
) -> Result<(), AllocError> {
    add_if(faults, is_outside(alloc, file, query)?, FileFault::Outside)?;
    add_if(
        faults,
        is_too_large(alloc, file, query)?,
        FileFault::TooLarge,
    )?;
    let Some(rectangle) = asked_rectangle(alloc, file, query)? else {
        return Ok(());
    };
    let Some(k) = level_directory(alloc, file, rectangle.level)? else {
        return Ok(());
    };
    for t in window_tiles(alloc, file, query)?.unwrap_or(Vec::new(alloc)) {
        add_if(faults, has_wrong_count(file, k, t), FileFault::TileSize)?;
        let bad = has_bad_packets(alloc, file, rectangle.level, k, t)?;
        add_if(faults, bad, FileFault::Packet)?;
    }
    Ok(())
}
