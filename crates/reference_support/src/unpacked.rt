//! The samples of a file, one by one or for a whole level with each tile unpacked once.
ghost use Rattle.std.specs.Prelude.{◌≡◌, ◌<◌, IfOk, IfSome, IfNone, IsSome, IsTrue, MatchOption, None, Some, length};
ghost use Rattle.tiff_dir.specs.File.{order_of};
ghost use Rattle.tiff_dir.specs.Level.{tile_total};
ghost use Rattle.tiff_dir.specs.Window.{IsSample};
ghost use Rattle.reference_support.specs.Missing.{HasNoSample};
ghost use Rattle.reference_support.specs.Modest.{grid_of, is_modest, is_modest_grid, layout_of, modest_level};
ghost use Rattle.reference_support.specs.Tile.{AreRows, AreTiles, HasNoRow, HasNoRows, HasNoTile, IsRow, IsTile};

use crate::levels::{Grid, Level, level_of, segment};
use crate::numbers::order_of;
use crate::query::tiles_along;
use crate::samples::{place_in_tile, plain_tile, sample_in, tile_at};
use std::alloc::{AllocError, Global};
use tiff_dir::law_one_text;

/// Returns the unpacked bytes of tile `t` of level `n`, where it is in the file and its packets fill it.
fn tile(
    alloc: Global,
    file: &[u8],
    n: u32,
    level: &Level,
    t: u64,
) -> Result<Option<Vec<u8>>, AllocError>
    requires { IsTrue (is_modest (layout_of level.now)) }
    ensures { IfOk result (λ o. MatchOption o (HasNoTile file.now n (layout_of level.now) t) (λ plain. IsTile file.now n (layout_of level.now) t plain.items)) }
{
    let Some(bytes) = segment(alloc, file, n as usize, t)? else {
        return Ok(None);
    };
    plain_tile(alloc, level, bytes)
}

/// Returns how many tiles the grid has.
fn tile_total(grid: &Grid) -> u64
    requires { IsTrue (is_modest_grid (grid_of grid.now)) }
    ensures { result ≡ tile_total (grid_of grid.now) }
{
    tiles_along(grid.width, grid.tile_width) * tiles_along(grid.length, grid.tile_length)
}

/// Returns the unpacked bytes of each tile of level `n`.
fn tiles(
    alloc: Global,
    file: &[u8],
    n: u32,
    level: &Level,
) -> Result<Vec<Option<Vec<u8>>>, AllocError>
    requires { IsTrue (is_modest (layout_of level.now)) }
    ensures { IfOk result (λ v. AreTiles file.now n (layout_of level.now) (tile_total (grid_of level.now.grid)) v.items) }
{
    let mut tiles = Vec::new(alloc);
    for t in 0..tile_total(&level.grid) {
        tiles.push(tile(alloc, file, n, level, t)?)?;
    }
    Ok(tiles)
}

/// Returns sample `c` of the pixel in column `x` and row `y` of level `n`, which has the tiles `tiles`.
fn sample_of(
    file: &[u8],
    n: u32,
    level: &Level,
    tiles: &[Option<Vec<u8>>],
    x: u32,
    y: u32,
    c: u16,
) -> Option<u64>
    requires level { modest_level file.now n ≡ Some (layout_of level.now) }
    requires modest { IsTrue (is_modest (layout_of level.now)) }
    requires tiles { AreTiles file.now n (layout_of level.now) (tile_total (grid_of level.now.grid)) tiles.now }
    ensures some { IfSome result (λ v. IsSample file.now n x y c v) }
    ensures none { x < level.now.grid.width → y < level.now.grid.length → IfNone result (HasNoSample file.now n x y c) }
{
    law_one_text();
    let order = order_of(file)?;
    let plain = tiles.get(tile_at(&level.grid, x, y) as usize)?.as_ref()?;
    let place = place_in_tile(level, x, y, c);
    sample_in(order, level.bits, plain, place)
}

/// Returns row `y` of level `n`, which has the tiles `tiles`.
fn row(
    alloc: Global,
    file: &[u8],
    n: u32,
    level: &Level,
    tiles: &[Option<Vec<u8>>],
    y: u32,
) -> Result<Option<Vec<u64>>, AllocError>
    requires level { modest_level file.now n ≡ Some (layout_of level.now) }
    requires modest { IsTrue (is_modest (layout_of level.now)) }
    requires tiles { AreTiles file.now n (layout_of level.now) (tile_total (grid_of level.now.grid)) tiles.now }
    requires inside { y < level.now.grid.length }
    ensures some { IfOk result (λ o. IfSome o (λ row. IsRow file.now n (layout_of level.now) y row.items)) }
    ensures none { IfOk result (λ o. IfNone o (HasNoRow file.now n (layout_of level.now) y)) }
{
    let samples = u64::from(level.samples);
    let mut row = Vec::new(alloc);
    for i in 0..u64::from(level.grid.width) * samples {
        let (x, c) = (i / samples, i % samples);
        match sample_of(file, n, level, tiles, x as u32, y, c as u16) {
            Some(value) => row.push(value)?,
            None => return Ok(None),
        }
    }
    Ok(Some(row))
}

/// Returns the samples of level `n` row by row, where it is modest and its tiles are good. Each tile is unpacked once. `None` for another
/// level says nothing.
pub fn level_samples(
    alloc: Global,
    file: &[u8],
    n: u32,
) -> Result<Option<Vec<Vec<u64>>>, AllocError>
    ensures some { IfOk result (λ o. IfSome o (λ rows. AreRows file.now n rows.items)) }
    ensures none { IsSome (modest_level file.now n) → IfOk result (λ o. IfNone o (HasNoRows file.now n)) }
{
    let Some(level) = level_of(alloc, file, n as usize)? else {
        return Ok(None);
    };
    let tiles = tiles(alloc, file, n, &level)?;
    let mut rows = Vec::new(alloc);
    for y in 0..level.grid.length {
        match row(alloc, file, n, &level, &tiles, y)? {
            Some(row) => rows.push(row)?,
            None => return Ok(None),
        }
    }
    Ok(Some(rows))
}

/// Returns sample `c` of the pixel in column `x` and row `y` of level `n`, where the level is modest and the tile is good. `None` for
/// another level says nothing.
pub fn sample(
    alloc: Global,
    file: &[u8],
    n: u32,
    x: u32,
    y: u32,
    c: u16,
) -> Result<Option<u64>, AllocError>
    ensures some { IfOk result (λ o. IfSome o (λ v. IsSample file.now n x y c v)) }
    ensures none { IsSome (modest_level file.now n) → IfOk result (λ o. IfNone o (HasNoSample file.now n x y c)) }
{
    law_one_text();
    let Some(order) = order_of(file) else {
        return Ok(None);
    };
    let Some(level) = level_of(alloc, file, n as usize)? else {
        return Ok(None);
    };
    let Some(plain) = tile(alloc, file, n, &level, tile_at(&level.grid, x, y))? else {
        return Ok(None);
    };
    let place = place_in_tile(&level, x, y, c);
    Ok(sample_in(order, level.bits, &plain, place))
}
