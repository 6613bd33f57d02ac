//! A packed tile is unpacked and copied onto a canvas.
ghost use Rattle.std.specs.Prelude.{◌≡◌, ◌<◌, ◌≤◌, true, ℕ, List, IfErr, OnOk, length};
ghost use Rattle.tiff_dir.specs.Described.{grid_of, layout_of};
ghost use Rattle.tiff_dir.specs.Level.{plain_size, tile_total};
ghost use Rattle.tiff_dir.specs.Window.{is_packed};
ghost use Rattle.extents.specs.Extent.{bytes_in};
ghost use Rattle.tile_plan.specs.Paint.{IsPaint, IsBad};
ghost use Rattle.tile_plan.specs.TileCache.{AreTilesOf};

use crate::decoding::decode;
use crate::tile_cache::TileCache;
use crate::{Bytes, Canvas, Slice};
use tiff_dir::{Compression, FileFault};

/// Copies a packed tile onto the canvas. Its packed bytes begin at `first` in the file. Where the tile isn't kept, they
/// are put in one piece, in `room` if need be, and unpacked to `plain`. Then the tile is kept, unless there is no memory
/// for it. Fails with the fault of its bytes.
pub fn paint_packed<B: Bytes>(
    canvas: &mut Canvas,
    tile: u32,
    first: u32,
    bytes: &B,
    room: &mut [u8],
    plain: &mut Vec<u8>,
    tile_cache: &mut TileCache,
) -> Result<(), FileFault>
    requires packed { is_packed canvas.old.level.compression ≡ true }
    requires tile { tile < tile_total (grid_of canvas.old.level) }
    requires room { B.room_needed bytes.now ≤ length room.old }
    requires plain { length plain.old.items ≡ plain_size (layout_of canvas.old.level) }
    // Of a file that has these bytes there, and whose tiles those are that are kept.
    ensures paint { (f : List ℕ) → B.bytes bytes.now ≡ bytes_in f (record { first = first; len = length (B.bytes bytes.now) })
        → AreTilesOf f tile_cache.old → OnOk result (IsPaint tile (B.bytes bytes.now) canvas.old canvas.new) }
    ensures kept { (f : List ℕ) → B.bytes bytes.now ≡ bytes_in f (record { first = first; len = length (B.bytes bytes.now) })
        → AreTilesOf f tile_cache.old → AreTilesOf f tile_cache.new }
    ensures most { tile_cache.new.most ≡ tile_cache.old.most }
    ensures plain { length plain.new.items ≡ length plain.old.items }
    ensures bad { IfErr result (IsBad (B.bytes bytes.now) canvas.old) }
    ensures level { canvas.new.level ≡ canvas.old.level }
    ensures rectangle { canvas.new.rectangle ≡ canvas.old.rectangle }
    ensures size { length canvas.new.bytes ≡ length canvas.old.bytes }
{
    let Compression::Packed(codec) = canvas.level().compression else {
        unreachable!()
    };
    let row = canvas.level().plain_row();
    let len = bytes.len();
    tile_cache.promote(first);
    if let Some(kept) = tile_cache.find(codec, first, len, row, plain.len()) {
        canvas.blit(tile, &Slice(kept));
        return Ok(());
    }
    let packed = bytes.part_at(0, len, room);
    decode(codec, packed, row, plain)?;
    canvas.blit(tile, &Slice(plain));
    // Where there is no memory to keep it, the window is read all the same.
    tile_cache.keep(codec, first, len, row, plain).ok();
    Ok(())
}
