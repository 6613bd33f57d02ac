//! A level of 512 by 512 samples in four tiles, and its whole window.
ghost use Rattle.std.specs.Prelude.{◌≡◌};
ghost use Rattle.tiff_dir.specs.Described.{grid_of, layout_of};
ghost use Rattle.tiff_dir.specs.Level.{plain_size, tile_total};
ghost use Rattle.tile_plan.specs.Levels.{IsSmall};

use crate::tiles::TILE;
use std::alloc::Global;
use tiff_dir::{Compression, Kind, Level, Place};
use tile_plan::{Canvas, Rectangle, Slice};

/// Four values of a type.
fn array(first: u64, len: u64, kind: Kind) -> Place
    ensures { result ≡ record { first = first; len = len; count = 4; kind = kind } }
{
    Place {
        first,
        len,
        count: 4,
        kind,
    }
}

/// A level of 512 by 512 samples of 8 bits in four plain tiles.
fn level() -> Level
    ensures size { plain_size (layout_of result) ≡ 65536 }
    ensures tiles { tile_total (grid_of result) ≡ 4 }
    ensures small { IsSmall result (record { level = 0; x = 0; y = 0; w = 512; h = 512 }) }
{
    Level {
        width: 512,
        length: 512,
        tile_width: 256,
        tile_length: 256,
        samples: 1,
        bits: 8,
        compression: Compression::Plain,
        offsets: array(8, 16, Kind::Long),
        counts: array(24, 16, Kind::Long),
    }
}

/// A canvas for the whole of it.
#[derive(Drop)]
pub struct Picture {
    canvas: Canvas,
    ghost tiles: { tile_total (grid_of canvas.level) ≡ 4 },
    ghost size: { plain_size (layout_of canvas.level) ≡ 65536 },
}

impl Picture {
    /// An empty one, None where no memory is left.
    pub fn new(alloc: Global) -> Option<Picture> {
        let whole = Rectangle {
            level: 0,
            x: 0,
            y: 0,
            w: 512,
            h: 512,
        };
        match Canvas::new(alloc, &level(), whole) {
            Ok(canvas) => Some(Picture { canvas }),
            Err(_) => None,
        }
    }

    /// Copies a tile of 65,536 bytes, of number 0 to 3.
    pub fn blit(&mut self, tile: u32, bytes: &[u8]) {
        if tile < 4 && bytes.len() == TILE {
            self.canvas.blit(tile, &Slice(bytes));
        }
    }

    /// Its samples.
    pub fn into_data(self) -> Vec<u8> {
        self.canvas.into_data()
    }
}
