//! Exports the client's core for C, a function for each call. `include/delgunsai.h` says what each takes and returns.
#![tactic(auto)]

mod answers;
mod client_pointer;
mod driving;
mod failure;
mod handle;
mod held;
mod laying;
mod making;
mod moving;
mod pairs;
mod parts;
mod queries;
mod reports;
mod requests;
mod said;
