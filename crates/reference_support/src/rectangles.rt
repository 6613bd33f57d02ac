//! Rectangles of levels.
ghost use Rattle.std.specs.Prelude.{◌<◌, ◌^◌, ◌+◌};

/// A rectangle of a level: columns from `left` and rows from `top`, in the pixels of the level.
#[derive(Clone, Copy, Debug, PartialEq, Eq)]
pub struct Rectangle {
    pub level: usize,
    pub left: u128,
    pub top: u128,
    pub width: u128,
    pub height: u128,
    ghost columns: { left + width < 2 ^ 100 },
    ghost rows: { top + height < 2 ^ 100 },
}
