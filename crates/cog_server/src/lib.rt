//! Serves files by single byte ranges (RFC 9110, sections 9, 13, 14 and 15), for one epoch.
//!
//! `Server::new` and `file` allocate nothing. Lengths and positions are in bytes.
#![tactic(auto)]

mod additions;
mod cases;
mod catalogue;
mod connection;
mod error;
mod inlet;
mod laws;
mod limits;
mod outgoing;
mod pending_input;
mod placed;
mod prepared;
mod published;
mod scripted;
mod serve;
mod served;
mod server;
mod service;
mod stream;

pub use additions::Additions;
pub use connection::Connection;
pub use error::PublishError;
pub use inlet::{Failed, Inlet, Outlet};
pub use laws::{
    law_first_answers_begin, law_heads_have_room, law_runs_are_answered, law_server_limits_are,
};
pub use limits::{DROP_LIMIT, HEAD_ROOM, ORIGIN_LIMIT};
pub use scripted::{AfterBytes, AfterPieces, ScriptedInlet, ScriptedOutlet};
pub use served::{Ended, ServeError, Served};
pub use server::{Answer, Server};
pub use service::Service;
pub use stream::Stream;
