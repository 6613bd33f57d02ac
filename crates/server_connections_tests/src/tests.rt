//! Tests of connections.
mod additions;
mod driving;
mod memory;
mod orders;
mod random;
mod single;
mod yielding;
