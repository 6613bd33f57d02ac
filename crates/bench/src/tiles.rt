//! Tiles of 256 by 256 samples, plain and packed.
use std::alloc::{AllocError, Global};

/// The bytes of a row, and of a tile.
pub const ROW: usize = 256;

pub const TILE: usize = 65536;

/// Where packets of 1, 2 and so on to 15 bytes begin behind those of 1, 2 and so on to 16 bytes.
const AGAIN: usize = 136;

/// What a tile is made of.
#[derive(Clone, Copy)]
pub enum Kind {
    /// Bytes without runs, in packets of 128.
    Noise,
    /// Bytes without runs, in packets of 8.
    Copies8,
    /// Bytes without runs, in packets of 1 to 16.
    Copies1To16,
    /// Runs of 32 equal bytes.
    Runs32,
    /// Runs of 4 equal bytes.
    Runs4,
}

impl Kind {
    pub const ALL: [Kind; 5] = [
        Kind::Noise,
        Kind::Copies8,
        Kind::Copies1To16,
        Kind::Runs32,
        Kind::Runs4,
    ];

    pub fn name(self) -> &'static str {
        match self {
            Kind::Noise => "noise",
            Kind::Copies8 => "copies of 8",
            Kind::Copies1To16 => "copies of 1 to 16",
            Kind::Runs32 => "runs of 32",
            Kind::Runs4 => "runs of 4",
        }
    }

    /// The sample at a place of the tile.
    fn sample(self, place: usize) -> u8 {
        match self {
            Kind::Noise | Kind::Copies8 | Kind::Copies1To16 => noise(place),
            Kind::Runs32 => noise(place / 32),
            Kind::Runs4 => noise(place / 4),
        }
    }

    /// The head of the packet that begins at a place, if one does.
    fn head(self, place: usize) -> Option<u8> {
        match self {
            Kind::Noise => (place % 128 == 0).then_some(127),
            Kind::Copies8 => (place % 8 == 0).then_some(7),
            Kind::Copies1To16 => short_head(place % ROW),
            Kind::Runs32 => (place % 32 == 0).then_some(225),
            Kind::Runs4 => (place % 4 == 0).then_some(253),
        }
    }

    /// Whether its packets copy bytes.
    fn copies(self) -> bool {
        !matches!(self, Kind::Runs32 | Kind::Runs4)
    }
}

/// The head of the packet of 1 to 16 bytes that begins at a place of a row, if one does.
fn short_head(place: usize) -> Option<u8> {
    let place = if place < AGAIN { place } else { place - AGAIN };
    let mut start = 0usize;
    for head in 0..16u8 {
        if start == place {
            return Some(head);
        }
        start = start.wrapping_add(usize::from(head) + 1);
    }
    None
}

/// A byte that depends on all bits of its place.
fn noise(place: usize) -> u8 {
    (place as u64)
        .wrapping_mul(0x9e37_79b9_7f4a_7c15)
        .to_be_bytes()[0]
}

/// The samples of a tile.
pub fn plain(alloc: Global, kind: Kind) -> Result<Vec<u8>, AllocError> {
    let mut tile = Vec::with_capacity(alloc, TILE)?;
    for place in 0..TILE {
        tile.push(kind.sample(place))?;
    }
    Ok(tile)
}

/// The packets of a tile.
pub fn packed(alloc: Global, kind: Kind) -> Result<Vec<u8>, AllocError> {
    let mut bytes = Vec::new(alloc);
    for place in 0..TILE {
        let head = kind.head(place);
        if let Some(head) = head {
            bytes.push(head)?;
        }
        if head.is_some() || kind.copies() {
            bytes.push(kind.sample(place))?;
        }
    }
    Ok(bytes)
}
