//! Tests of a client that looks ahead.
mod ahead;
mod early;
