//! Fetches a client's report: sends its requests, and gives it what comes of the answers. Answers come whole over a
//! transport, or in pieces from a source.
#![tactic(auto)]

mod exchange;
mod fetching;
mod laws;
mod taking;

pub use fetching::{fetch, fetch_pieces};
pub use laws::law_answer_limit_is;
pub use taking::{ANSWER_LIMIT, PIECE_ROOM};
