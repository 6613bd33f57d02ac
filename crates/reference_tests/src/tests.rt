//! The plain program on worked values, and walks beside it.
mod beside;
mod bytes;
mod changes;
mod faults;
mod fronts;
mod known;
mod queries;
mod values;
