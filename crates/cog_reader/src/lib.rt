//! Answers one query after another of one file, range by range. Each range is given whole, or taken from a cache of the
//! file's blocks.
#![tactic(auto)]

mod ahead;
mod early;
mod fields;
mod file;
mod going;
mod held;
mod info;
mod kept_arrays;
mod laws;
mod outcome;
mod reader;
mod state;

pub use ahead::MAX_BLOCKS;
pub use early::early_spans;
pub use file::read_file;
pub use going::fill;
pub use laws::{
    law_end_is_wanted, law_lengths_are_known, law_looks_at_one_range, law_most_blocks_are,
    law_nothing_comes,
};
pub use outcome::{Info, Outcome, Window};
pub use reader::Reader;
/// The bytes of a range, in one piece or in several.
pub use tile_plan::{Bytes, Slice};
