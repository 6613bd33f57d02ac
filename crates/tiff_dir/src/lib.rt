//! Reads the directories of a tiled TIFF file by single byte ranges.
#![tactic(auto)]

mod fault;
pub mod field_values;
mod geo;
mod laws;
mod level;
mod level_steps;
pub mod limits;
mod next;
mod order;
mod profile;
mod query;
mod rule;
mod shape;
mod stage;
mod steps;
mod table;
pub mod tags;
mod tiles;
mod values;
mod walk;

pub use extents::{Memory, Span};
pub use fault::{FileFault, WalkError};
pub use geo::GeoPlaces;
pub use laws::{
    law_field_values_are, law_levels_are_described, law_one_text, law_one_window,
    law_profile_limits_are, law_some_window, law_tags_are, law_what_comes,
};
pub use level::{Codec, Compression, Kind, Level, Place};
pub use order::Order;
pub use query::{Pick, Query};
pub use tiles::tile_of;
pub use walk::Walk;
