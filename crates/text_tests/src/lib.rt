//! Tests of the texts of reports, byte by byte: windows as P5 and P6, Info, and sentences of faults and reasons.
#![tactic(auto)]

#[cfg(test)]
mod tests;
