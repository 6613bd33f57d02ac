//! Tests of a client over many answers.
mod kept;
mod large;
mod memory;
