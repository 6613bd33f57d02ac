//! Tests of `cog_server`'s public calls: publications with their refusals, answers to worked requests, and streams with their endings and
//! failures.
#![tactic(auto)]

#[cfg(test)]
mod tests;
