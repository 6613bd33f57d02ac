//! The sizes in which bytes of a file are asked for and kept.

/// The bytes of a block of a file: a cache keeps whole blocks.
pub const BLOCK_SIZE: u64 = 16_384;
/// The most bytes of a range that is asked for at once, so of a group of tiles.
pub const MAX_RANGE_BYTES: u64 = 1_048_576;
