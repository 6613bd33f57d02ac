//! The rectangle that a query asks for.
ghost use Rattle.std.specs.Prelude.{◌≡◌, ◌<◌, ◌^◌, ◌+◌, IfOk, length, Option, Some, None};
ghost use Rattle.std.specs.Option.{option_map};
ghost use Rattle.tiff_dir.specs.Query.{has_columns, rectangle, scaled, scaled_down, scaled_up, smallest_level};
ghost use Rattle.reference_support.specs.Asked.{rectangle_of};

use crate::levels::{level_directories, level_value};
use crate::rectangles::Rectangle;
use std::alloc::{AllocError, Global};
use tiff_dir::tags::{IMAGE_LENGTH, IMAGE_WIDTH};
use tiff_dir::{Pick, Query};

/// Returns whether level `n` has at least `columns` columns for `w` columns of level 0.
fn has_columns(
    alloc: Global,
    file: &[u8],
    columns: u32,
    w: u32,
    n: usize,
) -> Result<bool, AllocError>
    ensures { IfOk result (λ has. has ≡ has_columns file.now columns w n) }
{
    let width = level_value(alloc, file, n, IMAGE_WIDTH, 0)?;
    let first = level_value(alloc, file, 0, IMAGE_WIDTH, 0)?;
    match width {
        Some(width) => match first {
            Some(first) => Ok(
                u128::from(columns) * u128::from(first) <= u128::from(width) * u128::from(w),
            ),
            None => Ok(false),
        },
        None => Ok(false),
    }
}

/// Returns the greatest number of a level with at least `columns` columns, or 0 if there is none.
#[tactic(auto, unfolding(tiff_dir::specs::Query::smallest_level))]
fn smallest_level(alloc: Global, file: &[u8], columns: u32, w: u32) -> Result<usize, AllocError>
    ensures { IfOk result (λ n. n ≡ smallest_level file.now columns w) }
{
    let directories = level_directories(alloc, file)?;
    let mut level = 0;
    for n in 0..directories.len() {
        if has_columns(alloc, file, columns, w, n)? {
            level = n;
        }
    }
    Ok(level)
}

/// Returns a place along a side of level 0 as a place along the same side of another level, rounded down.
fn scaled_down(side: u64, first: u64, at: u64) -> u128
    requires { at < 2 ^ 34 }
    ensures value { result ≡ scaled_down side first at }
    ensures small { result < 2 ^ 98 }
{
    if first == 0 {
        return 0;
    }
    u128::from(at) * u128::from(side) / u128::from(first)
}

/// Returns the same, rounded up.
fn scaled_up(side: u64, first: u64, at: u64) -> u128
    requires { at < 2 ^ 34 }
    ensures value { result ≡ scaled_up side first at }
    ensures small { result < 2 ^ 99 }
{
    if first == 0 {
        return 0;
    }
    (u128::from(at) * u128::from(side) + u128::from(first) - 1) / u128::from(first)
}

/// Returns the window of level 0 as a rectangle of level `n`, rounded outwards.
#[tactic(auto, unfolding(tiff_dir::specs::Query::scaled))]
fn scaled(
    alloc: Global,
    file: &[u8],
    n: usize,
    x: u32,
    y: u32,
    w: u32,
    h: u32,
) -> Result<Option<Rectangle>, AllocError>
    ensures { IfOk result (λ o. option_map rectangle_of o ≡ scaled file.now n x y w h) }
{
    let Some(first_width) = level_value(alloc, file, 0, IMAGE_WIDTH, 0)? else {
        return Ok(None);
    };
    let Some(first_length) = level_value(alloc, file, 0, IMAGE_LENGTH, 0)? else {
        return Ok(None);
    };
    let Some(width) = level_value(alloc, file, n, IMAGE_WIDTH, 0)? else {
        return Ok(None);
    };
    let Some(length) = level_value(alloc, file, n, IMAGE_LENGTH, 0)? else {
        return Ok(None);
    };
    let left = scaled_down(width, first_width, u64::from(x));
    let top = scaled_down(length, first_length, u64::from(y));
    let right = scaled_up(width, first_width, u64::from(x) + u64::from(w));
    let bottom = scaled_up(length, first_length, u64::from(y) + u64::from(h));
    Ok(Some(Rectangle {
        level: n,
        left,
        top,
        width: right.saturating_sub(left),
        height: bottom.saturating_sub(top),
    }))
}

/// Returns the rectangle that the query asks for.
#[tactic(auto, unfolding(tiff_dir::specs::Query::rectangle))]
pub fn asked_rectangle(
    alloc: Global,
    file: &[u8],
    query: Query,
) -> Result<Option<Rectangle>, AllocError>
    ensures { IfOk result (λ o. option_map rectangle_of o ≡ rectangle file.now query) }
{
    match query {
        Query::Window { x, y, w, h, pick } => match pick {
            Pick::Level(n) => Ok(Some(Rectangle {
                level: n as usize,
                left: u128::from(x),
                top: u128::from(y),
                width: u128::from(w),
                height: u128::from(h),
            })),
            Pick::Columns(0) => Ok(None),
            Pick::Columns(columns) => {
                let n = smallest_level(alloc, file, columns, w)?;
                scaled(alloc, file, n, x, y, w, h)
            }
        },
        Query::Info => Ok(None),
    }
}
