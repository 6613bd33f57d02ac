//! Tests of the public calls.
mod keys;
mod places;
mod rectangles;
mod worlds;
