//! A span of bytes.
ghost use Rattle.std.specs.Prelude.{◌≤◌};

/// Bytes of a file: positions count from 0, both ends belong to the span, and it is not empty.
#[derive(Clone, Copy, Debug, PartialEq, Eq)]
pub struct Span {
    pub first: u64,
    pub last: u64,
    ghost ascending: { first ≤ last },
}
