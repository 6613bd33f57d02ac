//! Tests of files that are served over sockets of one process: the lines that are printed, the log, and files that change.
#![tactic(auto)]

#[cfg(test)]
mod tests;
