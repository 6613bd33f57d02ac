//! Tests of `cog_client` at random. Answers are cut, lost, repeated, late or changed. Reports are compared with the plain program.
#![tactic(auto)]

#[cfg(test)]
mod tests;
