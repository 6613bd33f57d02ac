//! Reads the values of a TIFF file's fields from those of its bytes that are known already.
#![tactic(auto)]

mod bytes;
mod directories;
mod entry;
mod numbers;
mod sum;
mod value;

pub use bytes::{KnownBytes, WholeFile};
pub use directories::known_directories;
pub use sum::known_sum;
pub use value::known_value;
