//! Connections that are read to their end.

/// How many milliseconds a connection whose answers are written waits for its peer to close.
pub const DRAIN: u64 = 2_000;

/// A connection whose answers are written, and the moment at which it is closed, whatever still comes on it.
#[derive(Clone, Copy)]
pub struct Drain {
    pub ends: u64,
    pub number: u64,
}
