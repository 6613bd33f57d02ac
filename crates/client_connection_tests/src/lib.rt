//! Tests of a client's end of its connections, in memory.
#![tactic(auto)]

#[cfg(test)]
mod tests;
