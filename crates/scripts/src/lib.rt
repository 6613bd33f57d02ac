//! Reads scripts, which list the events of a world line by line, and writes the text of its log.
//!
//! The forms of the lines are in `docs/SCRIPTS.md`.
#![tactic(auto)]

mod line;
mod log;
mod log_text_lines;
mod number;
mod source;
mod verb;

pub use line::{ScriptError, script};
pub use log::log_text;
pub use source::{LoadError, Loaded, Source};
