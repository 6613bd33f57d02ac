//! Tests that cross crates: scripts and their logs, and windows compared with the plain program.
#![tactic(auto)]

#[cfg(test)]
mod tests;
