//! Describes a file and its place on the ground: in words for people, and in JSON for programs. It projects nothing and guesses nothing:
//! what the file doesn't say is absent.
#![tactic(auto)]

mod covering;
mod description;
mod facts;
mod no_data;
mod placement;
mod words;
mod world;

pub use covering::{Bounds, NoPixels, law_snap_is, level_sides, window_covering};
pub use description::{Description, Form};
pub use facts::{CoordinateSystem, LevelFacts, RasterType};
pub use no_data::{count_masks, no_data_text};
pub use placement::{Corners, Placement, law_halves_are};
pub use world::{WorldFile, law_half_is, world_file};
