//! Reads and writes the parts of heads of HTTP/1.1 (RFC 9110, RFC 9112): ETags, numbers, names, lists and field lines.
//! It reads and writes no whole request and no whole answer.
//!
//! Only `line` allocates memory.
#![tactic(auto)]

pub mod bytes;
pub mod conditional;
pub mod digits;
pub mod fields;
pub mod laws;
pub mod limits;
pub mod line;
mod members;
pub mod names;
pub mod numeral;
pub mod request_fields;
pub mod tag;
pub mod targets;
