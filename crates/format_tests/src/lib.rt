//! Tests of the calls that make samples of tiles: worked values, random packets beside the plain program, and kept tiles.
#![tactic(auto)]

#[cfg(test)]
mod tests;
