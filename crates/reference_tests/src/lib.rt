//! Tests of the walk over a file's directories beside the plain program: on the fixtures, cut and changed.
#![tactic(auto)]

#[cfg(test)]
mod tests;
