//! Whether the sides of a level, its tiles and their arrays are those of the profile.
ghost use Rattle.std.specs.Prelude.{◌≡◌, ◌*◌, ◌<◌, ◌≤◌, true, nat_le, MatchResult};
ghost use Rattle.tiff_dir.specs.declared.limits.TheConstants.{MAX_TILES, MAX_TILE_BYTES};
ghost use Rattle.tiff_dir.specs.Profile.{is_tile_side, tile_bytes};
ghost use Rattle.tiff_dir.specs.Shape.{fits_under, has_arrays, has_sides, has_tiles, IsShaped, IsShapeFault};

use crate::level::tiles_along;
use crate::limits::{MAX_TILE_BYTES, MAX_TILES};
use crate::stage::Draft;
use crate::{FileFault, Level};

/// Returns whether the sides aren't 0, and the level is smaller than the one before.
fn fits_below(previous: Option<Level>, draft: Draft) -> bool
    ensures { result ≡ fits_under previous draft }
{
    let has_sides = draft.width > 0 && draft.length > 0;
    match previous {
        None => has_sides,
        Some(level) => {
            has_sides
                && draft.width <= level.width
                && draft.length <= level.length
                && (draft.width < level.width || draft.length < level.length)
        }
    }
}

fn is_side_of_tile(side: u32) -> bool
    ensures { result ≡ is_tile_side side }
{
    side > 0 && side % 16 == 0
}

fn product(a: u32, b: u32) -> u64
    ensures { result ≡ a * b }
{
    u64::from(a) * u64::from(b)
}

/// Returns whether a tile of these sides has at most as many bytes as the profile allows.
fn is_small(width: u32, length: u32, samples: u16, bits: u16) -> bool
    requires samples { 0 < samples }
    requires bits { 8 ≤ bits }
    ensures { result ≡ nat_le (tile_bytes width length samples bits) MAX_TILE_BYTES }
{
    let area = product(width, length);
    area <= MAX_TILE_BYTES && area * u64::from(samples) * u64::from(bits / 8) <= MAX_TILE_BYTES
}

/// Returns whether the tile sides and the plain size of a tile are those of the profile.
fn has_right_tiles(draft: Draft, bits: u16) -> bool
    requires samples { 0 < draft.samples }
    requires bits { 8 ≤ bits }
    ensures { result ≡ has_tiles draft bits }
{
    is_side_of_tile(draft.tile_width)
        && is_side_of_tile(draft.tile_length)
        && is_small(draft.tile_width, draft.tile_length, draft.samples, bits)
}

/// Returns whether there are not too many tiles, and as many offsets and byte counts.
fn has_right_arrays(draft: Draft) -> bool
    requires sides { has_sides draft ≡ true }
    requires tile_sides { (0 < draft.tile_width) × (0 < draft.tile_length) }
    ensures { result ≡ has_arrays draft }
{
    let across = tiles_along(draft.width, draft.tile_width);
    let down = tiles_along(draft.length, draft.tile_length);
    let tiles = product(across, down);
    tiles <= MAX_TILES
        && tiles == u64::from(draft.offsets.count)
        && tiles == u64::from(draft.counts.count)
}

/// Checks that the level of a draft has the shape that the profile asks for. Fails with `LevelShape`, `TileSize` or
/// `TileArray`.
pub(crate) fn check_shape(previous: Option<Level>, draft: Draft, bits: u16) -> Result<(), FileFault>
    requires samples { 0 < draft.samples }
    requires bits { 8 ≤ bits }
    ensures { MatchResult result (λ _. IsShaped previous draft bits) (IsShapeFault previous draft bits) }
{
    if !fits_below(previous, draft) {
        return Err(FileFault::LevelShape);
    }
    if !has_right_tiles(draft, bits) {
        return Err(FileFault::TileSize);
    }
    if !has_right_arrays(draft) {
        return Err(FileFault::TileArray);
    }
    Ok(())
}
