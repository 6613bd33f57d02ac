//! Spans of a file's bytes, the blocks that a file is kept in, and the error of an allocation that fails. It knows no file format
//! and no protocol.
#![tactic(auto)]

mod limits;
mod memory;
mod span;

pub use limits::{BLOCK_SIZE, MAX_RANGE_BYTES};
pub use memory::Memory;
pub use span::Span;
