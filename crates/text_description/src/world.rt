//! World files, which place a picture: as ESRI's, GDAL's and QGIS's readers take them.
ghost use Rattle.std.specs.Prelude.{◌≡◌, pos};
ghost use Rattle.std.specs.Float.Ieee.{binary64, div, of_int};
ghost use Rattle.text_description.specs.World.{middle, world_at, world_by, world_file, world_in};
ghost use Rattle.text_description.specs.declared.world.TheConstants.{HALF};

use crate::covering::{level_sides, placement_by};
use crate::placement::Placement;
use cog_client::{Info, Query};
use tiff_dir::Pick;

/// Half a column or row: from the edge of a pixel to its middle.
const HALF: f64 = 0.5;

/// States that the constant is a half, since the definitions name it. It does nothing: its contract is the law.
pub fn law_half_is()
    ensures { HALF ≡ div binary64 (of_int binary64 (pos 1)) (of_int binary64 (pos 2)) }
{}

/// Holds what a world file says of a picture. It is printed as its six lines: both steps, each to the right and upwards, and the place of
/// the first pixel's middle.
#[derive(Clone, Copy, Debug, PartialEq)]
pub struct WorldFile {
    /// The step from one column to the next, to the right and upwards.
    pub across: (f64, f64),
    /// The step from one row to the next, to the right and upwards.
    pub down: (f64, f64),
    /// The place of the middle of the upper left pixel, to the right and upwards.
    pub first: (f64, f64),
}

/// Returns the middle along a side of the pixel with this number.
fn middle(number: u32) -> f64
    ensures { result ≡ middle number }
{
    f64::from(number) + HALF
}

/// Returns the world file of a picture whose first pixel is in a column and a row.
fn world_at(placement: &Placement, column: u32, row: u32) -> WorldFile
    ensures { result ≡ world_at placement.now column row }
{
    WorldFile {
        across: placement.across,
        down: placement.down,
        first: placement.at(middle(column), middle(row)),
    }
}

/// Returns the same for a column and a row of a level of `sides` columns and rows, where level 0 has `whole` of them and lies as
/// `placement` says.
fn world_by(
    placement: Option<Placement>,
    whole: Option<(u32, u32)>,
    sides: Option<(u32, u32)>,
    column: u32,
    row: u32,
) -> Option<WorldFile>
    ensures { result ≡ world_by placement whole sides column row }
{
    let placement = placement?;
    match (whole, sides) {
        (Some(whole), Some(sides)) => {
            Some(world_at(&placement.of_level(whole, sides), column, row))
        }
        _ => Some(world_at(&placement, column, row)),
    }
}

/// Returns the world file of a picture whose first pixel is in a column and a row of a level.
fn world_in(info: &Info, level: u32, column: u32, row: u32) -> Option<WorldFile>
    ensures { result ≡ world_in info.now level column row }
{
    let (whole, sides) = (level_sides(info, 0), level_sides(info, level));
    world_by(placement_by(info), whole, sides, column, row)
}

/// Returns the world file of a window of a level, or `None` where the file doesn't say where its pixels lie. A query that isn't for a
/// window in the pixels of its level has none, either.
#[tactic(auto, unfolding(crate::specs::World::world_file))]
pub fn world_file(info: &Info, query: &Query) -> Option<WorldFile>
    ensures { result ≡ world_file info.now query.now }
{
    match *query {
        Query::Window {
            x,
            y,
            pick: Pick::Level(level),
            ..
        } => world_in(info, level, x, y),
        _ => None,
    }
}
