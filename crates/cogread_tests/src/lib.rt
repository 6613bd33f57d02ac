//! Tests of what `cogread` prints over a server in memory: windows, Info, descriptions, faults, and lines about its exchanges.
#![tactic(auto)]

#[cfg(test)]
mod tests;
