//! Keeps blocks of one file in a bounded cache.
#![tactic(auto)]

mod blocks;
mod cache;
mod laws;
mod missing;

pub use cache::{Cache, CacheError, MAX_CAPACITY, MIN_CAPACITY};
pub use laws::{
    law_capacities_are, law_missing_is_exact, law_parts_bring_blocks, law_pieces_bring_blocks,
    law_stored_are_held, law_stored_stay, law_stores_are_counted,
};
pub use missing::Missing;
