//! Tests of `fetch` and `fetch_pieces` over the transports in memory: answers that are lost and cut, and refused memory.
#![tactic(auto)]

#[cfg(test)]
mod tests;
