//! Queries.
/// In which level a window is read, and in whose pixels its numbers are given.
#[derive(Clone, Copy, Debug, PartialEq, Eq)]
pub enum Pick {
    /// The level with this number. The window's numbers are in its pixels.
    Level(u32),
    /// The smallest level in which the window has at least this number of columns, before it is rounded outwards. It is
    /// level 0 if there is none such. The window's numbers are in the pixels of level 0.
    Columns(u32),
}

/// What is asked of a file.
#[derive(Clone, Copy, Debug, PartialEq, Eq)]
pub enum Query {
    /// The samples of `w` columns from `x` on and `h` rows from `y` on, in pixels. `pick` says of which level.
    Window {
        x: u32,
        y: u32,
        w: u32,
        h: u32,
        pick: Pick,
    },
    /// The sizes of the levels, and what georeferences the image.
    Info,
}
