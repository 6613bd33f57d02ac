//! Tests of fetching over transports in memory.
use tiff_dir::{Pick, Query};

mod example;
mod exchanges;
mod fates;
mod fetched;
mod kept;
mod memory;
mod replaced;
mod tries;

/// Makes a query of a window of level 0.
const fn window(x: u32, y: u32, w: u32, h: u32) -> Query {
    let pick = Pick::Level(0);
    Query::Window { x, y, w, h, pick }
}

/// The window of the last tile of f2.
const LAST_TILE: Query = Query::Window {
    x: 240,
    y: 240,
    w: 16,
    h: 16,
    pick: Pick::Level(0),
};
