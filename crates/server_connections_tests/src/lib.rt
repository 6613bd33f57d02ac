//! Tests of connections through their public calls: one, and many of one server.
#![tactic(auto)]

#[cfg(test)]
mod tests;
