//! Tests of a client's exchanges over its connections, and of its checks, with a server in memory.
#![tactic(auto)]

#[cfg(test)]
mod tests;
