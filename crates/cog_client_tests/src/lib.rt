//! Tests of `cog_client`: requests, answers and reports, call by call, over answers written out as texts.
#![tactic(auto)]

#[cfg(test)]
mod tests;
