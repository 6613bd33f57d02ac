//! Tests of `cog_client` over many answers: kept blocks, large files, refused memory.
#![tactic(auto)]

#[cfg(test)]
mod tests;
