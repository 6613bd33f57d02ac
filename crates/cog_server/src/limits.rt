//! Limits of a connection.

/// The most bytes that are dropped after the last message.
pub const DROP_LIMIT: usize = 65536;

/// The most bytes of the origin whose pages may read answers, for which `HEAD_ROOM` is made.
pub const ORIGIN_LIMIT: usize = 255;

/// The most bytes of the head of an answer.
pub const HEAD_ROOM: usize = 800;
