//! Windows of levels, and their tiles and samples.
use tiff_dir::{Pick, Query};

mod image;
mod keys;
mod packets;
mod pairs;
mod plan;
mod rectangles;
mod unpacked;
mod values;

/// Makes a query of a window of level `n`.
fn of_level(x: u32, y: u32, w: u32, h: u32, n: u32) -> Query {
    Query::Window {
        x,
        y,
        w,
        h,
        pick: Pick::Level(n),
    }
}
