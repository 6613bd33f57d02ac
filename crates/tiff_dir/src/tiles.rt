//! The offset and the byte count of a tile (TIFF 6.0, section 15).
ghost use Rattle.std.specs.Prelude.{◌≡◌, ℕ, ◌*◌, ◌<◌, List, Some, length};
ghost use Rattle.tiff_dir.specs.Described.{grid_of, layout_of};
ghost use Rattle.tiff_dir.specs.File.{order_of, size_of};
ghost use Rattle.tiff_dir.specs.Level.{level_layout, level_value, tile_total};
ghost use Rattle.tiff_dir.specs.Number.{number_in};
ghost use Rattle.tiff_dir.specs.Walk.{IsArrayOf};

use crate::tags::{TILE_BYTE_COUNTS, TILE_OFFSETS};
use crate::{Kind, Level, Order};

/// Returns the offset and the byte count of tile `t`, in bytes (TIFF 6.0, section 15). `offsets` and `counts` are the
/// bytes of the level's arrays TileOffsets and TileByteCounts, in byte order `order`. Tiles are numbered left to right,
/// then top to bottom.
pub fn tile_of(order: Order, level: &Level, t: u32, offsets: &[u8], counts: &[u8]) -> (u32, u32)
    requires tile { t < tile_total (grid_of level.now) }
    requires offsets { length offsets.now ≡ level.now.offsets.len }
    requires counts { length counts.now ≡ level.now.counts.len }
    ensures offset { result.0 ≡ number_in order (t * 4) 4 offsets.now }
    ensures count { result.1 ≡ number_in order (t * size_of level.now.counts.kind) (size_of level.now.counts.kind) counts.now }
    // Of a level of a file and the bytes of its arrays, these are the values in the file.
    ensures first { (f : List ℕ) (n : ℕ) → order_of f ≡ Some order → level_layout f n ≡ Some (layout_of level.now)
        → IsArrayOf f level.now.offsets offsets.now
        → level_value f n TILE_OFFSETS t ≡ Some result.0 }
    ensures len { (f : List ℕ) (n : ℕ) → order_of f ≡ Some order → level_layout f n ≡ Some (layout_of level.now)
        → IsArrayOf f level.now.counts counts.now
        → level_value f n TILE_BYTE_COUNTS t ≡ Some result.1 }
{
    let at = t as usize;
    let offset = order.long_at(offsets, at * 4);
    let count = match level.counts.kind {
        Kind::Short => u32::from(order.short_at(counts, at * 2)),
        _ => order.long_at(counts, at * 4),
    };
    (offset, count)
}
