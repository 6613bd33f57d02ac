//! The sockets of a server of many connections, on one thread. It decides which connection is served next, which one gets a slot, and
//! which one is closed. The crate `server_connections` makes the answers.
#![tactic(auto)]

mod answer_log;
mod connection_socket;
mod drain;
mod events;
mod laws;
mod moments;
mod open_connections;
mod refusal;
mod serving;
mod turn;

pub use answer_log::{AnswerLog, LoggedAnswer, NoLog};
pub use laws::law_runs_go_on;
pub use refusal::AcceptError;
pub use serving::{Limits, Serving};
