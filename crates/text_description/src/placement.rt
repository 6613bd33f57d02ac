//! Where the columns and rows of an image lie (GeoTIFF 1.1, OGC 19-008, section 7.3).
ghost use Rattle.std.specs.Prelude.{◌≡◌, from_bits, pos};
ghost use Rattle.std.specs.Int.{w64, from_be_bytes};
ghost use Rattle.std.specs.Float.Ieee.{binary64, div, neg, of_int};
ghost use Rattle.text_description.specs.declared.placement.TheConstants.{HALF_BEFORE, NOTHING, TWO};
ghost use Rattle.text_description.specs.Placement.{double_at, longer, said_of, scaled, transformed};

use cog_client::Info;
use serde::Serialize;
use std::num::f64_from_bits_with_nan;

/// Zero: the first column and row, and what a step along one axis adds to the other.
pub(crate) const NOTHING: f64 = 0.0;

/// Half a column or row before the first one.
const HALF_BEFORE: f64 = -0.5;

/// Two, by which a side is halved.
const TWO: f64 = 2.0;

/// States that the constants are 0, 2 and -1/2, since the definitions name them. It does nothing: its contract is the law.
pub fn law_halves_are()
    ensures nothing { NOTHING ≡ of_int binary64 (pos 0) }
    ensures two { TWO ≡ of_int binary64 (pos 2) }
    ensures half { HALF_BEFORE ≡ neg (div binary64 (of_int binary64 (pos 1)) (of_int binary64 (pos 2))) }
{}

/// Places columns and rows, fractions of them too, in the units of the coordinate system. To the right a place is `left + across.0 * column
/// + down.0 * row`. Upwards it is `top + across.1 * column + down.1 * row`.
#[derive(Clone, Copy, Debug, PartialEq)]
pub struct Placement {
    pub left: f64,
    pub top: f64,
    /// The step from one column to the next, to the right and upwards.
    pub across: (f64, f64),
    /// The step from one row to the next, to the right and upwards.
    pub down: (f64, f64),
}

/// Holds the places of an image's corners and of its middle, each to the right and upwards.
#[derive(Clone, Copy, Debug, PartialEq, Serialize)]
#[serde(rename_all = "camelCase")]
pub struct Corners {
    pub upper_left: (f64, f64),
    pub lower_left: (f64, f64),
    pub lower_right: (f64, f64),
    pub upper_right: (f64, f64),
    pub center: (f64, f64),
}

/// Returns the double of eight bytes, the most significant byte first.
fn number_of(item: &[u8; 8]) -> f64
    ensures { result ≡ from_bits binary64 (from_be_bytes w64 item.now) }
{
    f64_from_bits_with_nan(u64::from_be_bytes(*item))
}

/// Returns the double at index `place` of a field, or `None` where the field is shorter.
fn number_at(items: &[[u8; 8]], place: usize) -> Option<f64>
    ensures { result ≡ double_at items.now place }
{
    items.get(place).map(number_of)
}

/// Returns the placement by ModelTransformation, whose numbers stand row by row, four to a row.
fn by_transformation(items: &[[u8; 8]]) -> Option<Placement>
    ensures { result ≡ transformed items.now }
{
    Some(Placement {
        left: number_at(items, 3)?,
        top: number_at(items, 7)?,
        across: (number_at(items, 0)?, number_at(items, 4)?),
        down: (number_at(items, 1)?, number_at(items, 5)?),
    })
}

/// Returns the placement by ModelPixelScale and one ModelTiepoint: a column, a row, a height, and the place of these. Returns `None` where
/// there are several tiepoints.
fn by_scale(scale: &[[u8; 8]], tiepoint: &[[u8; 8]]) -> Option<Placement>
    ensures { result ≡ scaled scale.now tiepoint.now }
{
    if tiepoint.len() != 6 {
        return None;
    }
    let (width, height) = (number_at(scale, 0)?, number_at(scale, 1)?);
    let (column, row) = (number_at(tiepoint, 0)?, number_at(tiepoint, 1)?);
    let (x, y) = (number_at(tiepoint, 3)?, number_at(tiepoint, 4)?);
    Some(Placement {
        left: x - column * width,
        top: y + row * height,
        across: (width, NOTHING),
        down: (NOTHING, -height),
    })
}

/// Returns the placement as the fields have it: by the scale and the tiepoint, or else by the transformation.
fn as_said(info: &Info) -> Option<Placement>
    ensures { result ≡ said_of info.now }
{
    match (&info.scale, &info.tiepoints, &info.transformation) {
        (Some(scale), Some(tiepoints), _) => by_scale(scale, tiepoints),
        (_, _, Some(items)) => by_transformation(items),
        (_, _, None) => None,
    }
}

/// Returns a step that is longer by a factor.
fn longer(step: (f64, f64), by: f64) -> (f64, f64)
    ensures { result ≡ longer step by }
{
    (step.0 * by, step.1 * by)
}

impl Placement {
    ghost use Rattle.std.specs.Prelude.{◌≡◌, pos};
    ghost use Rattle.std.specs.Float.Ieee.{binary64, of_int};
    ghost use Rattle.text_description.specs.Placement.{corners_of, geo_transform_of, of_level, place_of, placement_of};

    /// Returns where the corners of columns and rows lie, or `None` where the file doesn't say it. With `is_point` the fields place the
    /// middle of the first pixel, and its corner lies half a pixel before that.
    pub fn of(info: &Info, is_point: bool) -> Option<Placement>
        ensures { result ≡ placement_of info.now is_point }
    {
        let said = as_said(info)?;
        if !is_point {
            return Some(said);
        }
        let (left, top) = said.at(HALF_BEFORE, HALF_BEFORE);
        Some(Placement { left, top, ..said })
    }

    /// Returns the placement of a level of `sides` columns and rows, where level 0 has `whole` of them. Both begin in one corner.
    pub fn of_level(&self, whole: (u32, u32), sides: (u32, u32)) -> Placement
        ensures { result ≡ of_level self.now whole sides }
    {
        Placement {
            across: longer(self.across, f64::from(whole.0) / f64::from(sides.0)),
            down: longer(self.down, f64::from(whole.1) / f64::from(sides.1)),
            ..*self
        }
    }

    /// Returns the place of a column and a row, to the right and upwards. Both may have fractions.
    pub fn at(&self, column: f64, row: f64) -> (f64, f64)
        ensures { result ≡ place_of self.now column row }
    {
        (
            self.left + self.across.0 * column + self.down.0 * row,
            self.top + self.across.1 * column + self.down.1 * row,
        )
    }

    /// Returns the six numbers of GDAL's GetGeoTransform, in its order.
    pub fn numbers(&self) -> [f64; 6]
        ensures { result ≡ geo_transform_of self.now }
    {
        [
            self.left,
            self.across.0,
            self.down.0,
            self.top,
            self.across.1,
            self.down.1,
        ]
    }

    /// Returns the corners and the middle of an image of `sides` columns and rows.
    pub fn corners(&self, sides: (u32, u32)) -> Corners
        ensures { result ≡ corners_of self.now (of_int binary64 (pos sides.0)) (of_int binary64 (pos sides.1)) }
    {
        let (columns, rows) = (f64::from(sides.0), f64::from(sides.1));
        Corners {
            upper_left: self.at(NOTHING, NOTHING),
            lower_left: self.at(NOTHING, rows),
            lower_right: self.at(columns, rows),
            upper_right: self.at(columns, NOTHING),
            center: self.at(columns / TWO, rows / TWO),
        }
    }
}
