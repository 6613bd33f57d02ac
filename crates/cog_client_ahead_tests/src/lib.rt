//! Tests of `cog_client`: requests that look ahead, and early requests.
#![tactic(auto)]

#[cfg(test)]
mod tests;
