//! The levels of a file, and the bytes of their tiles.
ghost use Rattle.std.specs.Prelude.{◌≡◌, ◌<◌, ◌^◌, ◌*◌, ◌&&◌, nat_lt, IfOk, IfSome, IsTrue, option_copied, length, Some, None};
ghost use Rattle.tiff_dir.specs.Level.{compression_of, depth_at, is_level, level_directories, level_directory, level_value};
ghost use Rattle.tiff_dir.specs.Query.{segment};
ghost use Rattle.std.specs.Option.{option_map};
ghost use Rattle.reference_support.specs.Modest.{grid_of, is_modest, is_modest_grid, layout_of, modest_at, modest_grid, modest_grid_at, modest_level, part};

use crate::directories::has_directory;
use crate::fields::{place, value};
use std::alloc::{AllocError, Global};
use tiff_dir::field_values::{COMPRESSION_NONE, COMPRESSION_PACKBITS};
use tiff_dir::limits::MAX_DIRECTORIES;
use tiff_dir::tags::{
    BITS_PER_SAMPLE, COMPRESSION, IMAGE_LENGTH, IMAGE_WIDTH, NEW_SUBFILE_TYPE, SAMPLES_PER_PIXEL,
    TILE_BYTE_COUNTS, TILE_LENGTH, TILE_OFFSETS, TILE_WIDTH,
};
use tiff_dir::{Codec, Compression, Place};

/// Returns whether directory `k` is a level.
#[tactic(auto, unfolding(tiff_dir::specs::Level::is_level))]
pub fn is_level(file: &[u8], k: u32) -> bool
    ensures { result ≡ is_level file.now k }
{
    if k == 0 {
        return true;
    }
    match value(file, k, NEW_SUBFILE_TYPE, 0) {
        Some(v) => v == 1,
        None => false,
    }
}

/// Returns the directories that are levels, in order.
#[tactic(auto, unfolding(tiff_dir::specs::Level::level_directories, tiff_dir::specs::File::directories))]
pub fn level_directories(alloc: Global, file: &[u8]) -> Result<Vec<u32>, AllocError>
    ensures { IfOk result (λ ks. ks.items ≡ level_directories file.now) }
{
    (0..MAX_DIRECTORIES)
        .filter(|k| has_directory(file, *k))
        .filter(|k| is_level(file, *k))
        .collect(alloc)
}

/// Returns the directory of level `n`.
#[tactic(auto, unfolding(tiff_dir::specs::Level::level_directory))]
pub fn level_directory(alloc: Global, file: &[u8], n: usize) -> Result<Option<u32>, AllocError>
    ensures { IfOk result (λ k. k ≡ level_directory file.now n) }
{
    let directories = level_directories(alloc, file)?;
    Ok(directories.get(n).copied())
}

fn compression_of(number: u64) -> Option<Compression>
    ensures { result ≡ compression_of number }
{
    if number == u64::from(COMPRESSION_NONE) {
        Some(Compression::Plain)
    } else if number == u64::from(COMPRESSION_PACKBITS) {
        Some(Compression::Packed(Codec::PackBits))
    } else {
        None
    }
}

/// How a level is cut into tiles: its sides and those of the tiles, in pixels.
#[derive(Clone, Copy, Debug, PartialEq, Eq)]
pub struct Grid {
    pub width: u32,
    pub length: u32,
    pub tile_width: u32,
    pub tile_length: u32,
}

/// What a directory says of its level, whether the profile allows it or not.
#[derive(Clone, Copy, Debug, PartialEq, Eq)]
pub struct Level {
    pub grid: Grid,
    pub samples: u16,
    pub bits: u16,
    pub compression: Compression,
    pub offsets: Place,
    pub counts: Place,
}

/// Returns whether the plain program reads a level with this side.
fn is_modest_side(side: u64) -> bool
    ensures { result ≡ nat_lt side (2 ^ 30) }
{
    side < 1 << 30
}

fn is_modest_tile_side(side: u64) -> bool
    ensures { result ≡ (nat_lt 0 side && nat_lt side (2 ^ 24)) }
{
    side > 0 && side < 1 << 24
}

/// Returns the grid of directory `k`, where its numbers are modest.
#[tactic(auto, unfolding(tiff_dir::specs::Level::grid_at))]
pub fn grid_at(file: &[u8], k: u32) -> Option<Grid>
    ensures grid { option_map grid_of result ≡ modest_grid_at file.now k }
    ensures modest { IfSome result (λ g. IsTrue (is_modest_grid (grid_of g))) }
{
    let width = value(file, k, IMAGE_WIDTH, 0)?;
    let length = value(file, k, IMAGE_LENGTH, 0)?;
    let tile_width = value(file, k, TILE_WIDTH, 0)?;
    let tile_length = value(file, k, TILE_LENGTH, 0)?;
    if !is_modest_side(width) || !is_modest_side(length) {
        return None;
    }
    if !is_modest_tile_side(tile_width) || !is_modest_tile_side(tile_length) {
        return None;
    }
    Some(Grid {
        width: width as u32,
        length: length as u32,
        tile_width: tile_width as u32,
        tile_length: tile_length as u32,
    })
}

/// Returns the depth of directory `k`'s samples, where it is 8 or 16 bits.
#[tactic(auto, unfolding(tiff_dir::specs::Level::depth_at))]
fn depth_at(file: &[u8], k: u32) -> Option<u64>
    ensures { result ≡ depth_at file.now k }
{
    let bits = value(file, k, BITS_PER_SAMPLE, 0)?;
    if bits == 8 || bits == 16 {
        Some(bits)
    } else {
        None
    }
}

/// Returns the level that directory `k` describes, where its numbers are modest.
#[tactic(auto, unfolding(tiff_dir::specs::Level::layout_at))]
pub fn level_at(file: &[u8], k: u32) -> Option<Level>
    ensures level { option_map layout_of result ≡ modest_at file.now k }
    ensures modest { IfSome result (λ l. IsTrue (is_modest (layout_of l))) }
{
    let grid = grid_at(file, k)?;
    let samples = value(file, k, SAMPLES_PER_PIXEL, 0)?;
    let bits = depth_at(file, k)?;
    let compression = compression_of(value(file, k, COMPRESSION, 0)?)?;
    let offsets = place(file, k, TILE_OFFSETS)?;
    let counts = place(file, k, TILE_BYTE_COUNTS)?;
    if samples >= 1 << 8 || bits < 8 || bits > 64 {
        return None;
    }
    Some(Level {
        grid,
        samples: samples as u16,
        bits: bits as u16,
        compression,
        offsets,
        counts,
    })
}

/// Returns the grid of level `n`, where its numbers are modest.
#[tactic(auto, unfolding(tiff_dir::specs::Level::level_grid))]
pub fn level_grid(alloc: Global, file: &[u8], n: usize) -> Result<Option<Grid>, AllocError>
    ensures grid { IfOk result (λ o. option_map grid_of o ≡ modest_grid file.now n) }
    ensures modest { IfOk result (λ o. IfSome o (λ g. IsTrue (is_modest_grid (grid_of g)))) }
{
    match level_directory(alloc, file, n)? {
        Some(k) => Ok(grid_at(file, k)),
        None => Ok(None),
    }
}

/// Returns level `n`, where its numbers are modest.
#[tactic(auto, unfolding(tiff_dir::specs::Level::level_layout))]
pub fn level_of(alloc: Global, file: &[u8], n: usize) -> Result<Option<Level>, AllocError>
    ensures level { IfOk result (λ o. option_map layout_of o ≡ modest_level file.now n) }
    ensures modest { IfOk result (λ o. IfSome o (λ l. IsTrue (is_modest (layout_of l)))) }
{
    match level_directory(alloc, file, n)? {
        Some(k) => Ok(level_at(file, k)),
        None => Ok(None),
    }
}

/// Returns value `i` of the field with this tag in level `n`.
#[tactic(auto, unfolding(tiff_dir::specs::Level::level_value))]
pub fn level_value(
    alloc: Global,
    file: &[u8],
    n: usize,
    tag: u16,
    i: u64,
) -> Result<Option<u64>, AllocError>
    ensures { IfOk result (λ v. v ≡ level_value file.now n tag i) }
{
    match level_directory(alloc, file, n)? {
        Some(k) => Ok(value(file, k, tag, i)),
        None => Ok(None),
    }
}

/// Returns the `count` bytes from `first`, where they are in the file.
fn part(file: &[u8], first: u64, count: u64) -> Option<&[u8]>
    ensures { option_copied result ≡ part file.now first count }
{
    let end = first.checked_add(count)?;
    if end > file.len() as u64 {
        return None;
    }
    Some(&file[first as usize..end as usize])
}

/// Returns the bytes of tile `t` of level `n`.
#[tactic(auto, unfolding(tiff_dir::specs::Query::segment, tiff_dir::specs::Query::tile_range))]
pub fn segment(alloc: Global, file: &[u8], n: usize, t: u64) -> Result<Option<&[u8]>, AllocError>
    ensures { IfOk result (λ bytes. option_copied bytes ≡ segment file.now n t) }
{
    let first = level_value(alloc, file, n, TILE_OFFSETS, t)?;
    let count = level_value(alloc, file, n, TILE_BYTE_COUNTS, t)?;
    match (first, count) {
        (Some(first), Some(count)) => Ok(part(file, first, count)),
        _ => Ok(None),
    }
}
