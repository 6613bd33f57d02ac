//! Tests of `cog_reader`: queries that are answered range by range, beside worked rows and the plain program.
#![tactic(auto)]

#[cfg(test)]
mod tests;
