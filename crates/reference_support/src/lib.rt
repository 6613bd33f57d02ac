//! A plain program that reads a whole file in memory by the definitions alone, and a walk over the directories of such a file. Tests
//! compare the product with the plain program, and nothing else stands on it.
#![tactic(auto)]

mod asked;
mod course;
mod directories;
mod fields;
mod info;
mod levels;
mod numbers;
mod packets;
mod query;
mod ranges;
mod rectangles;
mod samples;
mod unpacked;

pub use asked::asked_rectangle;
pub use course::{Course, Next, take_next, walk_over};
pub use directories::{directory, entry_count, has_directory};
pub use fields::{Entry, field, field_value, has_all_tags, place, value};
pub use info::{level_sides, values};
pub use levels::{Grid, Level, is_level, level_directory, level_of, segment};
pub use numbers::{number, order_of};
pub use packets::unpack;
pub use query::{is_outside, is_refused, is_too_large, window_tiles};
pub use ranges::{Extent, all_directories, cost, needs, needs_of_directories};
pub use rectangles::Rectangle;
pub use unpacked::{level_samples, sample};
