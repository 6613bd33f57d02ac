//! Where a walk stands, and what it has read of the directory that it is in.
use crate::{Compression, Level, Order, Place};

/// What the entries of a directory say of its level: all but the bits of a sample.
#[derive(Clone, Copy)]
pub struct Draft {
    pub width: u32,
    pub length: u32,
    pub tile_width: u32,
    pub tile_length: u32,
    pub samples: u16,
    pub compression: Compression,
    pub offsets: Place,
    pub counts: Place,
}

/// A level whose values outside the entries are still to be read: its directory, and the offset of the next one.
#[derive(Clone, Copy)]
pub struct Pending {
    pub order: Order,
    pub index: u32,
    pub next: u32,
    pub draft: Draft,
}

/// What the walk needs next.
#[derive(Clone, Copy)]
pub enum Stage {
    Header,
    /// The number of entries of the directory.
    ValueCount {
        order: Order,
        index: u32,
        at: u32,
    },
    /// The entries, and the offset of the next directory.
    Table {
        order: Order,
        index: u32,
        at: u32,
        entries: u16,
    },
    /// The three values of BitsPerSample. Those of SampleFormat follow, if they stand outside the entry, too.
    Bits {
        pending: Pending,
        first: u32,
        formats: Option<u32>,
    },
    /// The three values of SampleFormat. Those of BitsPerSample are all `bits`, or outside the profile.
    Formats {
        pending: Pending,
        first: u32,
        bits: Option<u16>,
    },
    Ended {
        order: Order,
        index: u32,
    },
}

/// What a range of bytes leads to: where the walk goes on, and the level that ended with it, if one did.
#[derive(Clone, Copy)]
pub struct WalkStep {
    pub stage: Stage,
    pub level: Option<Level>,
}
