//! Tests of a client over answers at random.
mod changed;
mod lying;
mod revisions;
mod runs;
