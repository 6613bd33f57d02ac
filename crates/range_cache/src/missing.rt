//! What a cache lacks of a range.
ghost use Rattle.std.specs.Prelude.{◌≤◌};

/// Bytes of a file that a cache lacks. They are whole blocks, the last one up to the end of the file. Both ends belong
/// to them.
#[derive(Clone, Copy, Debug, PartialEq, Eq)]
pub struct Missing {
    /// The position of the first byte, from 0.
    pub first: u64,
    /// The position of the last byte.
    pub last: u64,
    ghost ascending: { first ≤ last },
}
