//! Finds the tiles of a window, and puts the window's samples together from their bytes. Keeps unpacked tiles.
#![tactic(auto)]

mod arrays;
mod asked;
mod block;
mod bytes;
mod canvas;
mod decoding;
mod laws;
mod paint;
mod plan;
mod rows;
mod samples;
mod swap;
mod tile_cache;
mod window_builder;

pub use arrays::Arrays;
pub use asked::{Rectangle, rect};
/// A window of a level, by its shorter name.
pub use asked::Rectangle as Rect;
pub use bytes::{Bytes, Part, Slice};
pub use canvas::Canvas;
pub use laws::{law_all_are_painted, law_tiles_cover};
pub use plan::{Group, groups};
pub use swap::swap_pairs;
/// Why there are no groups: a tile of the window has a fault, or an allocation failed.
pub use tiff_dir::WalkError as PlanError;
pub use tile_cache::TileCache;
pub use window_builder::WindowBuilder;
