//! A client's end of its connections, one after another, without a socket: requests go out, and answers come in.
//!
//! It is the mirror of the server's `Connection`. A driver moves the bytes: it writes what is `waiting`, and hands what it
//! reads to `came`. All rules of an exchange stand here: which answer belongs to which request, where an answer ends,
//! when a connection goes on after it, and what is sent once more (RFC 9112, sections 9.3 to 9.6).
#![tactic(auto)]

mod connection;
mod laws;
mod parts;

pub use connection::ClientConnection;
pub use laws::law_answers_are_in_order;
pub use parts::{Part, Taken, Turn};
