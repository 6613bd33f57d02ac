//! The samples of a window, put together from tiles.
ghost use Rattle.std.specs.Prelude.{◌≡◌, ◌+◌, ◌*◌, ◌<◌, ◌^◌, IfOk, length, max, min, replicate};
ghost use Rattle.tiff_dir.specs.Described.{grid_of, layout_of};
ghost use Rattle.tiff_dir.specs.Level.{plain_size, tile_total};
ghost use Rattle.tile_plan.specs.Levels.{IsSmall};
ghost use Rattle.tile_plan.specs.Canvas.{Picture, IsBlit, picture_size};

use crate::rows::{Rows, copy_rows};
use crate::{Bytes, Rectangle};
use extents::Memory;
use std::alloc::Global;
use std::marker::Model;
use std::ops::Range;
use tiff_dir::Level;

/// The bytes of a rectangle of a level, row by row. Samples have the bytes of the tiles: those of 16 bits are in the
/// file's byte order.
#[derive(Drop)]
pub struct Canvas {
    level: Level,
    rect: Rectangle,
    bytes: Vec<u8>,
}

impl Model for Canvas {
    ghost use Rattle.std.specs.Prelude.{◌≡◌, length};
    ghost use Rattle.tile_plan.specs.Levels.{IsSmall};
    ghost use Rattle.tile_plan.specs.Canvas.{Picture, picture_size};

    ghost Value = { Picture };

    ghost view = { λ c. record { level = c.level; rectangle = c.rect; bytes = c.bytes.items } };

    ghost invariant = { λ c. IsSmall c.level c.rect × (length c.bytes.items ≡ picture_size c.level c.rect) };
}

/// Returns the numbers that two runs of numbers have in common. Each run is given by its first number and its length.
fn common(a: usize, a_len: u32, b: usize, b_len: u32) -> Range<usize>
    requires { (a < 2 ^ 62) × (b < 2 ^ 62) }
    ensures first { result.start ≡ max a b }
    ensures end { result.end ≡ min (a + a_len) (b + b_len) }
{
    a.max(b)..(a + a_len as usize).min(b + b_len as usize)
}

impl Canvas {
    /// Makes a canvas for a rectangle of the level. It has the bytes of the rectangle's samples, one or two for each,
    /// and all are 0. The rectangle lies in the level and has at most 4,194,304 samples. Fails with `Memory` alone.
    pub fn new(alloc: Global, level: &Level, rect: Rectangle) -> Result<Canvas, Memory>
        requires { IsSmall level.now rect }
        ensures { IfOk result (λ c. c ≡ record { level = level.now; rectangle = rect; bytes = replicate (picture_size level.now rect) 0 }) }
    {
        let size = rect.w as usize * rect.h as usize * level.pixel_size();
        let bytes = vec![in alloc; 0; size]?;
        Ok(Canvas {
            level: *level,
            rect,
            bytes,
        })
    }

    /// Copies the part of `tile` that lies in the rectangle. `bytes` are the tile's unpacked bytes.
    pub fn blit<B: Bytes>(&mut self, tile: u32, bytes: &B)
        requires tile { tile < tile_total (grid_of self.old.level) }
        requires size { length (B.bytes bytes.now) ≡ plain_size (layout_of self.old.level) }
        ensures { IsBlit tile (B.bytes bytes.now) self.old self.new }
    {
        let Level {
            tile_width,
            tile_length,
            ..
        } = self.level;
        let rect = self.rect;
        let across = self.level.tiles_across();
        let x = (tile % across) as usize * tile_width as usize;
        let y = (tile / across) as usize * tile_length as usize;
        let columns = common(rect.x as usize, rect.w, x, tile_width);
        let rows = common(rect.y as usize, rect.h, y, tile_length);
        if columns.end <= columns.start || rows.end <= rows.start {
            return;
        }
        let pixel = self.level.pixel_size();
        let read = Rows::from_pixel(
            tile_width as usize,
            columns.start - x,
            rows.start - y,
            pixel,
        );
        let write = Rows::from_pixel(
            rect.w as usize,
            columns.start - rect.x as usize,
            rows.start - rect.y as usize,
            pixel,
        );
        let len = (columns.end - columns.start) * pixel;
        copy_rows(
            rows.end - rows.start,
            len,
            bytes,
            read,
            &mut self.bytes,
            write,
        );
    }

    /// Returns the level whose tiles it takes.
    pub fn level(&self) -> &Level
        ensures { result.now ≡ self.now.level }
    {
        &self.level
    }

    /// Returns the bytes as they stand.
    pub fn into_data(self) -> Vec<u8>
        ensures { result.items ≡ self.bytes }
    {
        self.bytes
    }
}
