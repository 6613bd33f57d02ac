//! The windows that queries ask for, and the tiles that they need.
ghost use Rattle.std.specs.Prelude.{◌≡◌, ◌<◌, ◌^◌, ◌+◌, ◌-◌, ◌*◌, ◌/◌, true, false, IsTrue, nat_lt, IfOk, IfSome, IfNone, None, Some, length};
ghost use Rattle.tiff_dir.specs.Profile.{tiles_along};
ghost use Rattle.tiff_dir.specs.Level.{across as across_of};
ghost use Rattle.tiff_dir.specs.declared.limits.TheConstants.{MAX_WINDOW_SAMPLES};
ghost use Rattle.tiff_dir.specs.Query.{is_outside, is_outside_level, is_refused, is_too_large, meets, overlap, passes, tiles_in, window_tiles};
ghost use Rattle.reference_support.specs.Modest.{grid_of, is_modest_grid};
ghost use Rattle.reference_support.specs.Asked.{rectangle_of, HasNoModestLevel};

use crate::asked::asked_rectangle;
use crate::levels::{Grid, level_directory, level_grid, level_value};
use crate::rectangles::Rectangle;
use std::alloc::{AllocError, Global};
use tiff_dir::limits::MAX_WINDOW_SAMPLES;
use tiff_dir::tags::{IMAGE_LENGTH, IMAGE_WIDTH, SAMPLES_PER_PIXEL};
use tiff_dir::{Pick, Query};

fn passes(end: u64, side: Option<u64>) -> bool
    ensures { result ≡ passes end side }
{
    match side {
        Some(side) => side < end,
        None => false,
    }
}

/// Returns whether the window is empty, its level isn't there, or it passes a side of the level.
fn is_outside_level(
    alloc: Global,
    file: &[u8],
    n: usize,
    x: u32,
    y: u32,
    w: u32,
    h: u32,
) -> Result<bool, AllocError>
    ensures { IfOk result (λ outside. outside ≡ is_outside_level file.now n x y w h) }
{
    if w == 0 || h == 0 || level_directory(alloc, file, n)?.is_none() {
        return Ok(true);
    }
    let width = level_value(alloc, file, n, IMAGE_WIDTH, 0)?;
    let length = level_value(alloc, file, n, IMAGE_LENGTH, 0)?;
    Ok(passes(u64::from(x) + u64::from(w), width) || passes(u64::from(y) + u64::from(h), length))
}

/// Returns whether the window is outside the level in whose pixels it is given.
#[tactic(auto, unfolding(tiff_dir::specs::Query::is_outside))]
pub fn is_outside(alloc: Global, file: &[u8], query: Query) -> Result<bool, AllocError>
    ensures { IfOk result (λ outside. outside ≡ is_outside file.now query) }
{
    match query {
        Query::Window { x, y, w, h, pick } => match pick {
            Pick::Level(n) => is_outside_level(alloc, file, n as usize, x, y, w, h),
            Pick::Columns(0) => Ok(true),
            Pick::Columns(_) => is_outside_level(alloc, file, 0, x, y, w, h),
        },
        Query::Info => Ok(false),
    }
}

/// Returns whether `width` columns and `height` rows of `samples` samples are more than 4,194,304 samples.
fn exceeds(width: u128, height: u128, samples: u64) -> bool
    ensures { result ≡ nat_lt MAX_WINDOW_SAMPLES (width * height * samples) }
{
    if width == 0 || height == 0 || samples == 0 {
        return false;
    }
    match width.checked_mul(height) {
        Some(pixels) => match pixels.checked_mul(u128::from(samples)) {
            Some(n) => n > u128::from(MAX_WINDOW_SAMPLES),
            None => true,
        },
        None => true,
    }
}

/// Returns whether the rectangle that is asked for has more than 4,194,304 samples.
#[tactic(auto, unfolding(tiff_dir::specs::Query::is_too_large))]
pub fn is_too_large(alloc: Global, file: &[u8], query: Query) -> Result<bool, AllocError>
    ensures { IfOk result (λ large. large ≡ is_too_large file.now query) }
{
    match asked_rectangle(alloc, file, query)? {
        Some(r) => match level_value(alloc, file, r.level, SAMPLES_PER_PIXEL, 0)? {
            Some(samples) => Ok(exceeds(r.width, r.height, samples)),
            None => Ok(false),
        },
        None => Ok(false),
    }
}

pub(crate) fn tiles_along(side: u32, tile_side: u32) -> u64
    requires side { side < 2 ^ 30 }
    requires some { 0 < tile_side }
    requires tile_side { tile_side < 2 ^ 24 }
    ensures value { result ≡ tiles_along side tile_side }
    ensures small { result < 2 ^ 31 }
{
    (u64::from(side) + u64::from(tile_side) - 1) / u64::from(tile_side)
}

/// Returns whether the tile of this place along a side has a column or row of the rectangle.
fn overlaps(place: u64, tile_side: u32, first: u128, count: u128) -> bool
    requires { first + count < 2 ^ 100 }
    ensures { result ≡ overlap (place * tile_side) tile_side first count }
{
    match u128::from(place).checked_mul(u128::from(tile_side)) {
        Some(at) => at < first + count && first < at + u128::from(tile_side),
        None => false,
    }
}

/// Returns whether tile `t` of the grid has a pixel of the rectangle. The grid has `across` tiles side by side.
fn meets(g: &Grid, r: &Rectangle, across: u64, t: u64) -> bool
    requires across { across ≡ across_of (grid_of g.now) }
    requires some { 0 < across }
    ensures { result ≡ meets (grid_of g.now) (rectangle_of r.now) t }
{
    overlaps(t % across, g.tile_width, r.left, r.width)
        && overlaps(t / across, g.tile_length, r.top, r.height)
}

/// Returns the tiles of a rectangle, in ascending number.
#[tactic(auto, unfolding(tiff_dir::specs::Query::tiles_in))]
fn tiles_in(alloc: Global, g: &Grid, r: &Rectangle) -> Result<Vec<u64>, AllocError>
    requires { IsTrue (is_modest_grid (grid_of g.now)) }
    ensures { IfOk result (λ ts. ts.items ≡ tiles_in (grid_of g.now) (rectangle_of r.now)) }
{
    let across = tiles_along(g.width, g.tile_width);
    let down = tiles_along(g.length, g.tile_length);
    if across == 0 {
        return Ok(Vec::new(alloc));
    }
    (0..across * down)
        .filter(|t| meets(g, r, across, *t))
        .collect(alloc)
}

/// Returns whether the window is outside or too large.
pub fn is_refused(alloc: Global, file: &[u8], query: Query) -> Result<bool, AllocError>
    ensures { IfOk result (λ refused. refused ≡ is_refused file.now query) }
{
    Ok(is_outside(alloc, file, query)? || is_too_large(alloc, file, query)?)
}

/// Returns the tiles that the window needs, in ascending number, where its level is modest.
#[tactic(auto, unfolding(tiff_dir::specs::Query::window_tiles))]
pub fn window_tiles(
    alloc: Global,
    file: &[u8],
    query: Query,
) -> Result<Option<Vec<u64>>, AllocError>
    ensures tiles { IfOk result (λ o. IfSome o (λ ts. ts.items ≡ window_tiles file.now query)) }
    ensures none { IfOk result (λ o. IfNone o (HasNoModestLevel file.now query)) }
{
    if is_refused(alloc, file, query)? {
        return Ok(Some(Vec::new(alloc)));
    }
    let Some(r) = asked_rectangle(alloc, file, query)? else {
        return Ok(Some(Vec::new(alloc)));
    };
    match level_grid(alloc, file, r.level)? {
        Some(grid) => Ok(Some(tiles_in(alloc, &grid, &r)?)),
        None => Ok(None),
    }
}
