//! The bytes of unpacked tiles, and the samples in them.
ghost use Rattle.std.specs.Prelude.{◌≡◌, ◌<◌, ◌≤◌, ◌^◌, ◌+◌, ◌*◌, ◌%◌, IfOk, IfSome, IfNone, IsTrue, Some, length};
ghost use Rattle.tiff_dir.specs.Level.{plain_row, plain_size};
ghost use Rattle.tiff_dir.specs.Window.{place_in_tile, sample_in, tile_at, IsUnpacked};
ghost use Rattle.reference_support.specs.Missing.{IsNotUnpacked};
ghost use Rattle.reference_support.specs.Modest.{grid_of, is_modest, is_modest_grid, layout_of};

use crate::levels::{Grid, Level};
use crate::numbers::number_in;
use crate::packets::unpack;
use crate::query::tiles_along;
use std::alloc::{AllocError, Global};
use tiff_dir::{Codec, Compression, Order, law_one_text};

/// Returns the number of the tile that has the pixel.
pub(crate) fn tile_at(grid: &Grid, x: u32, y: u32) -> u64
    requires { IsTrue (is_modest_grid (grid_of grid.now)) }
    ensures { result ≡ tile_at (grid_of grid.now) x y }
{
    let across = tiles_along(grid.width, grid.tile_width);
    u64::from(y / grid.tile_length) * across + u64::from(x / grid.tile_width)
}

/// Returns the number of a pixel in its tile, row by row.
fn pixel_number(row: u32, column: u32, width: u32) -> usize
    requires row { row < 2 ^ 24 }
    requires column { column < 2 ^ 24 }
    requires width { width < 2 ^ 24 }
    ensures value { result ≡ row * width + column }
    ensures small { result < 2 ^ 50 }
{
    row as usize * width as usize + column as usize
}

/// Returns which sample of its tile is sample `c` of the pixel.
pub(crate) fn place_in_tile(level: &Level, x: u32, y: u32, c: u16) -> usize
    requires { IsTrue (is_modest (layout_of level.now)) }
    ensures place { result ≡ place_in_tile (layout_of level.now) x y c }
    ensures small { result < 2 ^ 58 }
{
    let row = y % level.grid.tile_length;
    let column = x % level.grid.tile_width;
    pixel_number(row, column, level.grid.tile_width) * usize::from(level.samples) + usize::from(c)
}

/// Returns how many samples a tile of these sides has.
fn sample_count(width: u32, length: u32, samples: u16) -> usize
    requires width { width < 2 ^ 24 }
    requires length { length < 2 ^ 24 }
    requires samples { samples < 2 ^ 8 }
    ensures value { result ≡ width * length * samples }
    ensures small { result < 2 ^ 56 }
{
    width as usize * length as usize * usize::from(samples)
}

/// Returns how many bytes a row of an unpacked tile has, and how many the whole tile has.
fn row_and_size(level: &Level) -> (usize, usize)
    requires { IsTrue (is_modest (layout_of level.now)) }
    ensures row { result.0 ≡ plain_row (layout_of level.now) }
    ensures size { result.1 ≡ plain_size (layout_of level.now) }
{
    let bytes = usize::from(level.bits / 8);
    let row = level.grid.tile_width as usize * usize::from(level.samples) * bytes;
    let samples = sample_count(level.grid.tile_width, level.grid.tile_length, level.samples);
    (row, samples * bytes)
}

/// Returns the samples of a tile whose bytes in the file are `bytes`. Packed bytes have to give as many samples as the tile has, or there
/// are none.
pub(crate) fn plain_tile(
    alloc: Global,
    level: &Level,
    bytes: &[u8],
) -> Result<Option<Vec<u8>>, AllocError>
    requires { IsTrue (is_modest (layout_of level.now)) }
    ensures tile { IfOk result (λ o. IfSome o (λ plain. IsUnpacked (layout_of level.now) bytes.now plain.items)) }
    ensures none { IfOk result (λ o. IfNone o (IsNotUnpacked (layout_of level.now) bytes.now)) }
{
    law_one_text();
    let (row, size) = row_and_size(level);
    match level.compression {
        Compression::Plain => {
            let mut plain = Vec::new(alloc);
            plain.extend_from_slice(bytes)?;
            Ok(Some(plain))
        }
        Compression::Packed(Codec::PackBits) => match unpack(alloc, bytes, row)? {
            Some(plain) if plain.len() == size => Ok(Some(plain)),
            _ => Ok(None),
        },
    }
}

/// Returns the value of sample `p` of an unpacked tile.
#[tactic(auto, unfolding(tiff_dir::specs::Window::sample_in))]
pub(crate) fn sample_in(order: Order, bits: u16, plain: &[u8], p: usize) -> Option<u64>
    requires some { 8 ≤ bits }
    requires few { bits ≤ 64 }
    requires small { p < 2 ^ 58 }
    ensures { result ≡ sample_in order bits plain.now p }
{
    let size = usize::from(bits / 8);
    if p * size + size > plain.len() {
        return None;
    }
    Some(number_in(order, plain, p * size, size))
}
