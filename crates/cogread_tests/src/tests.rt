//! Tests of `cogread` over a server in memory.
mod describes;
mod reads;
mod rectangles;
mod told;
