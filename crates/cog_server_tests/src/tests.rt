//! Tests of the server's calls.
mod answers;
mod conditions;
mod failures;
mod heads;
mod memory;
mod publications;
mod refusals;
mod streams;
