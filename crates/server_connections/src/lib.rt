//! Many connections of one server, by their numbers: each as if it were alone, and no more than there is room for.
#![tactic(auto)]

mod candidate;
mod table;
mod timed;
mod yielding;

pub use table::Connections;
pub use timed::Timed;
