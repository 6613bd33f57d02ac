//! Tests of `http_range`'s public calls, and worked rows of its definitions.
#![tactic(auto)]

pub mod rows;
#[cfg(test)]
mod tests;
