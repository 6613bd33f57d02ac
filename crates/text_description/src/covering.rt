//! The pixels of a level that a rectangle of the file's coordinates meets.
ghost use Rattle.std.specs.Prelude.{◌≡◌, IfOk, IfSome, slice_get, pos};
ghost use Rattle.std.specs.Float.Ieee.{binary64, div, of_int};
ghost use Rattle.tiff_dir.specs.declared.query.Query.TheVariants.{Window};
ghost use Rattle.tiff_dir.specs.declared.query.Pick.TheVariants.{Level};
ghost use Rattle.text_description.specs.Covering.{IsInside, IsOfLevel, IsWithin, columns_met, window_covering, end_pixel, first_pixel, is_step, is_upright, met_by, met_in, pixels_between, pixels_met, pixels_to, placement_by, rows_met};
ghost use Rattle.text_description.specs.declared.covering.TheConstants.{ONE, SNAP};

use crate::description::is_point;
use crate::facts::RasterType;
use crate::placement::{NOTHING, Placement};
use cog_client::{Info, Query};
use std::num::saturating_f64_to_u32;
use tiff_dir::Pick;

/// How far a place may lie from the edge of a pixel and still count as on it: a millionth of a pixel. Doubles have no exact tenths, so a
/// decimal place that is meant to be an edge is seldom computed as one.
const SNAP: f64 = 0.000001;

const ONE: f64 = 1.0;

/// States that the constants are 1 and a millionth, since the definitions name them. It does nothing: its contract is the law.
pub fn law_snap_is()
    ensures one { ONE ≡ of_int binary64 (pos 1) }
    ensures snap { SNAP ≡ div binary64 (of_int binary64 (pos 1)) (of_int binary64 (pos 1000000)) }
{}

/// Holds a rectangle in the file's own coordinates. A point is one, too.
#[derive(Clone, Copy, Debug, PartialEq)]
pub struct Bounds {
    pub west: f64,
    pub south: f64,
    pub east: f64,
    pub north: f64,
}

/// Says why a rectangle gives no window.
#[derive(Clone, Copy, Debug, PartialEq, Eq)]
pub enum NoPixels {
    /// The file doesn't say where its pixels lie: it has neither a scale with one tiepoint nor a transformation.
    NotPlaced,
    /// The columns or rows are turned, or a step from a pixel to the next is 0, infinite or NaN.
    Turned,
    /// The rectangle meets no pixel of the level.
    Outside,
}

/// Returns a place in pixels of the step `step`, from the edge `origin` on.
fn pixels_to(origin: f64, step: f64, place: f64) -> f64
    ensures { result ≡ pixels_to origin step place }
{
    (place - origin) / step
}

/// Returns the pixel in which an interval begins that begins at `low` pixels, or the next one where that is less than `SNAP` away.
fn first_pixel(low: f64) -> f64
    ensures { result ≡ first_pixel low }
{
    (low + SNAP).floor()
}

/// Returns the pixel after the one in which an interval ends that ends at `high` pixels and begins in the pixel `first`. Where it passes
/// the edge of that pixel by less than `SNAP`, it ends in the pixel before.
fn end_pixel(first: f64, high: f64) -> f64
    ensures { result ≡ end_pixel first high }
{
    let (least, end) = (first + ONE, (high - SNAP).ceil());
    if least <= end { end } else { least }
}

/// Returns the first pixel that the interval from `low` to `high` meets among `count` pixels, and how many it meets. Returns `None` where
/// it meets none.
fn pixels_met(count: u32, low: f64, high: f64) -> Option<(u32, u32)>
    ensures met { result ≡ pixels_met count low high }
    ensures within { IfSome result (IsWithin count) }
{
    let begin = first_pixel(low);
    let first = saturating_f64_to_u32(begin);
    let end = saturating_f64_to_u32(end_pixel(begin, high)).min(count);
    if first < end {
        Some((first, end - first))
    } else {
        None
    }
}

/// Returns the same for the interval between two places, whichever is the lesser.
fn pixels_between(count: u32, a: f64, b: f64) -> Option<(u32, u32)>
    ensures met { result ≡ pixels_between count a b }
    ensures within { IfSome result (IsWithin count) }
{
    if a <= b {
        pixels_met(count, a, b)
    } else {
        pixels_met(count, b, a)
    }
}

/// Returns whether a step to the next pixel can be divided by.
fn is_step(step: f64) -> bool
    ensures { result ≡ is_step step }
{
    step.is_finite() && step != NOTHING
}

/// Returns whether columns lie upright and rows level.
fn is_upright(placement: &Placement) -> bool
    ensures { result ≡ is_upright placement.now }
{
    placement.across.1 == NOTHING
        && placement.down.0 == NOTHING
        && is_step(placement.across.0)
        && is_step(placement.down.1)
}

/// Returns the first column that a rectangle meets among `count` columns, and how many it meets.
fn columns_met(placement: &Placement, bounds: &Bounds, count: u32) -> Option<(u32, u32)>
    ensures met { result ≡ columns_met placement.now bounds.now count }
    ensures within { IfSome result (IsWithin count) }
{
    let (left, step) = (placement.left, placement.across.0);
    pixels_between(
        count,
        pixels_to(left, step, bounds.west),
        pixels_to(left, step, bounds.east),
    )
}

/// Returns the first row that a rectangle meets among `count` rows, and how many it meets.
fn rows_met(placement: &Placement, bounds: &Bounds, count: u32) -> Option<(u32, u32)>
    ensures met { result ≡ rows_met placement.now bounds.now count }
    ensures within { IfSome result (IsWithin count) }
{
    let (top, step) = (placement.top, placement.down.1);
    pixels_between(
        count,
        pixels_to(top, step, bounds.north),
        pixels_to(top, step, bounds.south),
    )
}

/// Returns the window of a level of `sides` columns and rows that a rectangle meets, where `placement` is the level's.
fn met_in(
    placement: &Placement,
    sides: (u32, u32),
    bounds: &Bounds,
    level: u32,
) -> Result<Query, NoPixels>
    ensures met { result ≡ met_in placement.now sides bounds.now level }
    ensures level { IfOk result (IsOfLevel level) }
    ensures inside { IfOk result (IsInside sides) }
{
    if !is_upright(placement) {
        return Err(NoPixels::Turned);
    }
    let columns = columns_met(placement, bounds, sides.0);
    let rows = rows_met(placement, bounds, sides.1);
    match (columns, rows) {
        (Some((x, w)), Some((y, h))) => Ok(window(x, y, w, h, level)),
        _ => Err(NoPixels::Outside),
    }
}

/// Returns the columns and rows of a level, or `None` where the file doesn't have it.
#[tactic(auto, using(crate::proofs::CoveringLemmas::item_copied))]
pub fn level_sides(info: &Info, level: u32) -> Option<(u32, u32)>
    ensures { result ≡ slice_get info.now.sides.items level }
{
    info.sides.get(level as usize).copied()
}

/// Returns where the file has its columns and rows, or `None` where it doesn't say it.
pub(crate) fn placement_by(info: &Info) -> Option<Placement>
    ensures { result ≡ placement_by info.now }
{
    Placement::of(info, is_point(RasterType::of(info)))
}

/// Returns the query for a window of a level.
fn window(x: u32, y: u32, w: u32, h: u32, level: u32) -> Query
    ensures { result ≡ Window x y w h (Level level) }
{
    let pick = Pick::Level(level);
    Query::Window { x, y, w, h, pick }
}

/// Returns the window of a level of `sides` columns and rows that a rectangle meets, where level 0 has `whole` of them and lies as
/// `placement` says. For a level that isn't there, it is a window that isn't there, either.
fn met_by(
    placement: Option<Placement>,
    whole: Option<(u32, u32)>,
    sides: Option<(u32, u32)>,
    bounds: &Bounds,
    level: u32,
) -> Result<Query, NoPixels>
    ensures met { result ≡ met_by placement whole sides bounds.now level }
    ensures level { IfOk result (IsOfLevel level) }
    ensures inside { IfOk result (λ q. IfSome whole (λ _. IfSome sides (λ s. IsInside s q))) }
{
    let Some(placement) = placement else {
        return Err(NoPixels::NotPlaced);
    };
    match (whole, sides) {
        (Some(whole), Some(sides)) => {
            met_in(&placement.of_level(whole, sides), sides, bounds, level)
        }
        _ => Ok(window(0, 0, 1, 1, level)),
    }
}

/// Returns the window of the pixels of a level that a rectangle meets: the smallest one of whole pixels that is to cover what of it lies in
/// the image. It is computed in rounded doubles, and no contract says that it covers the rectangle. A side of the rectangle within a
/// millionth of a pixel of a pixel's edge counts as that edge. For a level that the file doesn't have, it is a window that the file doesn't
/// have, either. Fails where the rectangle gives no window.
pub fn window_covering(info: &Info, bounds: &Bounds, level: u32) -> Result<Query, NoPixels>
    ensures met { result ≡ window_covering info.now bounds.now level }
    ensures level { IfOk result (IsOfLevel level) }
    ensures inside { IfOk result (λ q. IfSome (slice_get info.now.sides.items level) (λ sides. IsInside sides q)) }
{
    let (whole, sides) = (level_sides(info, 0), level_sides(info, level));
    met_by(placement_by(info), whole, sides, bounds, level)
}
