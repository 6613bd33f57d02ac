//! Aids of tests of the programs: a runtime that keeps what is printed, and what a command line prints, with its exit status.
#![tactic(auto)]

mod capture;
mod telling;

pub use capture::Capture;
pub use telling::{Told, tell, tell_line, tell_on, without_times, words_of};
