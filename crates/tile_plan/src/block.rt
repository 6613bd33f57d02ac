//! The tiles that have a pixel of a rectangle.
ghost use Rattle.std.specs.Prelude.{◌≡◌, ℕ, ◌<◌, ◌≤◌, ◌+◌, ◌-◌, ◌*◌, ◌/◌, ◌^◌, IsTrue, map};
ghost use Rattle.tiff_dir.specs.Described.{grid_of};
ghost use Rattle.tiff_dir.specs.Level.{tile_total};
ghost use Rattle.tiff_dir.specs.declared.limits.TheConstants.{MAX_TILES};
ghost use Rattle.std.specs.List.{range_with_len};
ghost use Rattle.tile_plan.specs.Levels.{is_inside};
ghost use Rattle.tile_plan.specs.Plan.{tiles_of};

use crate::Rectangle;
use tiff_dir::Level;

/// Adjacent columns and rows of the tiles of a level, which has `across` tiles side by side.
#[derive(Clone, Copy)]
pub struct Block {
    across: u32,
    left: u32,
    top: u32,
    columns: u32,
    rows: u32,
    ghost some: { (0 < columns) × (0 < rows) },
    ghost side: { left + columns ≤ across },
    ghost few: { (top + rows) * across ≤ MAX_TILES },
}

/// Returns the first tile along a side that has one of `len` pixels from `at` on, and how many tiles have one.
fn touched(at: u32, len: u32, tile_side: u32) -> (u32, u32)
    requires some { 0 < len }
    requires tile { 0 < tile_side }
    requires fits { at + len < 2 ^ 32 }
    ensures { (result.0 ≡ at / tile_side) × (result.1 ≡ (at + len - 1) / tile_side + 1 - at / tile_side) }
{
    let first = at / tile_side;
    let last = (at + len - 1) / tile_side;
    (first, last - first + 1)
}

impl Block {
    ghost use Rattle.tile_plan.specs.Block.{tile_of_block};

    /// Returns the tiles of `level` that have a pixel of `rect`.
    pub fn of(level: &Level, rect: Rectangle) -> Block
        requires { IsTrue (is_inside level.now rect.x rect.y rect.w rect.h) }
        ensures tiles { map (tile_of_block result) (range_with_len 0 (result.columns * result.rows)) ≡ tiles_of level.now rect }
        ensures within { (n : ℕ) → n < result.columns * result.rows → tile_of_block result n < tile_total (grid_of level.now) }
    {
        // The sides are read for their bounds alone.
        let Level {
            width: _width,
            length: _length,
            tile_width,
            tile_length,
            ..
        } = *level;
        let across = level.tiles_across();
        let (left, columns) = touched(rect.x, rect.w, tile_width);
        let (top, rows) = touched(rect.y, rect.h, tile_length);
        Block {
            across,
            left,
            top,
            columns,
            rows,
        }
    }

    /// Returns the number of these tiles.
    pub fn count(self) -> u32
        ensures { result ≡ self.columns * self.rows }
    {
        self.columns * self.rows
    }

    /// Returns the number in the level of tile `n` of these, counted row by row from 0.
    pub fn tile(self, n: u32) -> u32
        requires { n < self.columns * self.rows }
        ensures { result ≡ tile_of_block self n }
    {
        (self.top + n / self.columns) * self.across + self.left + n % self.columns
    }
}
