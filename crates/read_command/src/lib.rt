//! Reads what `cogread` is asked for, over any source of answers, and makes the text that is written of it.
#![tactic(auto)]

mod error;
mod part;
mod reading;
mod text;

pub use error::ReadError;
pub use part::{Area, Given, NotGiven, Part};
pub use reading::{Asked, Exchanges};
pub use text::Text;
