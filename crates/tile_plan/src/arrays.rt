//! The tile arrays of a level.
ghost use Rattle.std.specs.Prelude.{◌≡◌, length};

use tiff_dir::{Level, Order, tile_of};

/// A level of a file, with the bytes of its arrays of tile offsets and of tile byte counts.
#[derive(Drop)]
pub struct Arrays {
    /// The byte order of the file.
    pub order: Order,
    /// The level.
    pub level: Level,
    /// The bytes of TileOffsets (324).
    pub offsets: Vec<u8>,
    /// The bytes of TileByteCounts (325).
    pub counts: Vec<u8>,
    ghost offsets_whole: { length offsets.items ≡ level.offsets.len },
    ghost counts_whole: { length counts.items ≡ level.counts.len },
}

impl Arrays {
    ghost use Rattle.std.specs.Prelude.{◌<◌, ℕ, List};
    ghost use Rattle.tiff_dir.specs.Described.{grid_of};
    ghost use Rattle.tiff_dir.specs.Level.{tile_total};
    ghost use Rattle.tile_plan.specs.Plan.{IsRangeOf};
    ghost use Rattle.tile_plan.specs.WindowBuilder.{tile_extent, AreArraysOf};

    /// Returns where `tile` begins in the file, in bytes from 0, and how many bytes it has.
    pub fn place_of(&self, tile: u32) -> (u32, usize)
        requires { tile < tile_total (grid_of self.now.level) }
        ensures first { result.0 ≡ (tile_extent self.now tile).first }
        ensures len { result.1 ≡ (tile_extent self.now tile).len }
        ensures values { (f : List ℕ) (n : ℕ) → AreArraysOf f n self.now → IsRangeOf f n tile (tile_extent self.now tile) }
    {
        let (first, len) = tile_of(self.order, &self.level, tile, &self.offsets, &self.counts);
        (first, len as usize)
    }
}
