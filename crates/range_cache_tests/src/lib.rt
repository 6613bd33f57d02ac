//! Tests of the block cache's calls: worked values, and a random run beside the rules as a plain list.
#![tactic(auto)]

#[cfg(test)]
mod tests;
