//! The limits of this profile, each once. What is past one is refused. Those of ranges and blocks stand in `extents`.
pub use extents::{BLOCK_SIZE, MAX_RANGE_BYTES};

/// The most directories of a file.
pub const MAX_DIRECTORIES: u32 = 16;
/// The most entries of a directory.
pub const MAX_ENTRIES: u16 = 256;
/// The most tiles of a level.
pub const MAX_TILES: u64 = 65_536;
/// The most bytes of a tile, in the file and when it is unpacked.
pub const MAX_TILE_BYTES: u64 = 1_048_576;
/// The most bytes of a field that georeferences an image.
pub const MAX_GEO_BYTES: u64 = 65_536;
/// The most samples of a window.
pub const MAX_WINDOW_SAMPLES: u64 = 4_194_304;
/// The most bytes that a packet stands for (TIFF 6.0, section 9).
pub const MAX_PACKET_BYTES: usize = 128;
