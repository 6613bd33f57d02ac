//! One image of a file, and the types of its fields (TIFF 6.0, sections 2 and 15).
ghost use Rattle.std.specs.Prelude.{◌≡◌, ◌≢◌, ◌*◌, ◌<◌, ◌≤◌, ◌^◌, IsTrue};
ghost use Rattle.tiff_dir.specs.declared.level.Kind.TheVariants as kind;
ghost use Rattle.tiff_dir.specs.declared.tags.TheConstants.{SAMPLES_PER_PIXEL};
ghost use Rattle.tiff_dir.specs.declared.limits.TheConstants.{MAX_TILES, MAX_TILE_BYTES};
ghost use Rattle.tiff_dir.specs.File.{size_of};
ghost use Rattle.tiff_dir.specs.Profile.{accepts, is_depth, is_tile_side, tile_bytes, tile_count, tiles_along};

use crate::field_values::{COMPRESSION_NONE, COMPRESSION_PACKBITS};

/// The type of a field's values (TIFF 6.0, section 2), in the order of the types' numbers.
#[derive(Clone, Copy, Debug, PartialEq, Eq)]
pub enum Kind {
    Byte,
    Ascii,
    Short,
    Long,
    Rational,
    SignedByte,
    Undefined,
    SignedShort,
    SignedLong,
    SignedRational,
    Float,
    Double,
}

impl Kind {
    /// Returns how many bytes a value of the type has.
    pub fn size(self) -> u64
        ensures size { result ≡ size_of self }
        ensures some { 0 < result }
        ensures few { result ≤ 8 }
    {
        match self {
            Kind::Byte | Kind::Ascii | Kind::SignedByte | Kind::Undefined => 1,
            Kind::Short | Kind::SignedShort => 2,
            Kind::Long | Kind::SignedLong | Kind::Float => 4,
            Kind::Rational | Kind::SignedRational | Kind::Double => 8,
        }
    }
}

/// The place of a field's values, in the entry or outside it, with their type and their number. It is no span, since a
/// field may have no values.
#[derive(Clone, Copy, Debug, PartialEq, Eq)]
pub struct Place {
    /// The position of the first byte in the file, from 0.
    pub first: u64,
    /// The number of bytes: `count` times the type's size.
    pub len: u64,
    /// The number of values.
    pub count: u32,
    /// The type of the values.
    pub kind: Kind,
}

/// How the bytes of a tile are packed.
#[derive(Clone, Copy, Debug, PartialEq, Eq)]
pub enum Codec {
    /// Row by row in packets (TIFF 6.0, section 9).
    PackBits,
}

/// What the Compression field says of a tile's bytes (TIFF 6.0, section 8).
#[derive(Clone, Copy, Debug, PartialEq, Eq)]
pub enum Compression {
    /// They are those of the tile's samples.
    Plain,
    /// They are packed.
    Packed(Codec),
}

impl Compression {
    ghost use Rattle.tiff_dir.specs.Level.{compression_of};

    /// Returns the compression that has this number in a Compression field. Returns `None` for a number that the
    /// profile doesn't have.
    pub fn of_number(value: u16) -> Option<Compression>
        ensures { result ≡ compression_of value }
    {
        match value {
            COMPRESSION_NONE => Some(Compression::Plain),
            COMPRESSION_PACKBITS => Some(Compression::Packed(Codec::PackBits)),
            _ => None,
        }
    }
}

/// One image of a file, as the profile allows it.
#[derive(Clone, Copy, Debug, PartialEq, Eq)]
pub struct Level {
    /// ImageWidth, in pixels.
    pub width: u32,
    /// ImageLength, in pixels.
    pub length: u32,
    /// TileWidth, in pixels.
    pub tile_width: u32,
    /// TileLength, in pixels.
    pub tile_length: u32,
    /// SamplesPerPixel, 1 or 3.
    pub samples: u16,
    /// BitsPerSample, 8 or 16.
    pub bits: u16,
    /// How the bytes of its tiles are packed, if they are.
    pub compression: Compression,
    /// The place of the array TileOffsets.
    pub offsets: Place,
    /// The place of the array TileByteCounts.
    pub counts: Place,
    ghost sides: { (0 < width) × (0 < length) },
    ghost tile_sides: { IsTrue (is_tile_side tile_width) × IsTrue (is_tile_side tile_length) },
    ghost one_or_three: { IsTrue (accepts SAMPLES_PER_PIXEL samples) },
    ghost depth: { IsTrue (is_depth bits) },
    ghost plain: { tile_bytes tile_width tile_length samples bits ≤ MAX_TILE_BYTES },
    ghost tiles: { tile_count width length tile_width tile_length ≤ MAX_TILES },
    ghost offset_of_each: { offsets.count ≡ tile_count width length tile_width tile_length },
    ghost count_of_each: { counts.count ≡ tile_count width length tile_width tile_length },
    ghost kinds: { (offsets.kind ≡ kind.Long) × (counts.kind ≢ kind.Short → counts.kind ≡ kind.Long) },
    ghost lens: { (offsets.len ≡ offsets.count * size_of offsets.kind) × (counts.len ≡ counts.count * size_of counts.kind) },
    ghost near: { (offsets.first < 2 ^ 33) × (counts.first < 2 ^ 33) },
}

/// Returns how many tiles cover a side.
pub(crate) fn tiles_along(side: u32, tile_side: u32) -> u32
    requires side { 0 < side }
    requires tile { 0 < tile_side }
    ensures count { result ≡ tiles_along side tile_side }
    ensures some { 0 < result }
{
    (side - 1) / tile_side + 1
}

impl Level {
    ghost use Rattle.tiff_dir.specs.Described.{grid_of, layout_of};
    ghost use Rattle.tiff_dir.specs.Level.{across, pixel_size, plain_row, plain_size};

    /// Returns how many tiles stand side by side.
    pub fn tiles_across(&self) -> u32
        ensures count { result ≡ across (grid_of self.now) }
        ensures some { 0 < result }
    {
        tiles_along(self.width, self.tile_width)
    }

    /// Returns how many bytes a pixel has.
    pub fn pixel_size(&self) -> usize
        ensures size { result ≡ pixel_size (layout_of self.now) }
        ensures some { 0 < result }
        ensures few { result ≤ 6 }
    {
        usize::from(self.samples) * usize::from(self.bits / 8)
    }

    /// Returns how many bytes a row of an unpacked tile has.
    pub fn plain_row(&self) -> usize
        ensures row { result ≡ plain_row (layout_of self.now) }
        ensures some { 0 < result }
    {
        self.tile_width as usize * self.pixel_size()
    }

    /// Returns how many bytes an unpacked tile has.
    pub fn plain_size(&self) -> usize
        ensures size { result ≡ plain_size (layout_of self.now) }
        ensures few { result ≤ MAX_TILE_BYTES }
    {
        self.tile_length as usize * self.plain_row()
    }
}
