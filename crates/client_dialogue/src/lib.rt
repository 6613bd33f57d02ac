//! The exchanges of a client over its connections, without a socket.
//!
//! A driver moves bytes and does what `Dialogue::go_on` says: it connects, writes what is `waiting`, and hands on what it reads.
//! Everything else stands here: which request is sent and when, which answer the client takes for it, and when a connection ends
//! (RFC 9112, sections 9.3 to 9.6).
#![tactic(auto)]

mod check;
mod dialogue;
mod laws;
mod step;
mod useful;

pub use check::{Check, CheckProgress, CheckStep};
pub use dialogue::Dialogue;
pub use laws::law_histories_are_true;
pub use step::{Exchanged, Loss, Progress, Step};
