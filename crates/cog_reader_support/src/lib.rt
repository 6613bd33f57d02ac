//! Support for tests of readers and clients: the test files by name, outcomes as values of constants, and the plain program beside the
//! product.
#![tactic(auto)]

mod facts;
mod files;
mod plain;
mod wanted;
mod windows;

pub use facts::{FACTS_OF_F3, Facts, NO_FACTS, Value, is_told};
pub use files::{Fixture, change};
pub use plain::Plain;
pub use wanted::{Numbers, Want, is_wanted, of_level, window};
pub use windows::{CHANGED, WINDOWS, WindowRow};
