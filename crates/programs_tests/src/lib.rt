//! Tests of what the command prints, and of its exit status. This crate and the crates of tests beside it show each line of a fault with
//! its status, help, and the lines of the programs.
//!
//! | Line | Status | Shown in |
//! |---|---|---|
//! | help, on standard output | 0 | `line_forms` |
//! | `cogtools: not a program: WORD`, `cogtools: a word isn't text` | 2 | `worlds`, `faults` |
//! | faults of the form of a line | 2 | `line_forms` |
//! | `PROGRAM: not a number: WORD` | 2 | `serves`, `read_faults`, `worlds` |
//! | `cogserve: not a file: WORD` | 2 | `serves` |
//! | `cogserve: can't read PATH`, `cogserve: refused K NAME`, `cogserve: can't listen` | 1 | `serves`; 5 of the refusals in `faults` |
//! | `cogserve: can't accept` | 1 | `server_files_tests` |
//! | why it ends, with a log (`--log`) | 1 | `serves`; the lines of the log in `server_files_tests` |
//! | `cogread: refused K`, `cogread: can't read URL: ..` | 2 | `read_faults` |
//! | each exchange, and why there is no window (`--verbose`) | | `cogread_tests` |
//! | how far the exchanges have come (`--progress`) | | `cogread_tests` |
//! | what a file is, in words and in JSON (`describe`) | 0 | `cogread_tests` |
//! | `cogread: fault K`, and with a tag | 3 | `faults`, `cogread_tests` |
//! | `cogread: no report` | 4 | `read_faults` |
//! | `line L: not an event`, `line L: can't read`, `cogworld: can't read PATH` | 2, 1, 1 | `worlds` |
//! | `PROGRAM: can't write`, `cogread: can't write PATH` | 1 | `worlds`, `cogread_tests`; `output` |
//! | `PROGRAM: out of memory` | 1 | `faults` |
#![tactic(auto)]

#[cfg(test)]
mod tests;
