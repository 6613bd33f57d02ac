//! Transports in memory, for tests and for programs without a network. They answer from a server's core, or from one whose file is
//! replaced. Answers may come in pieces, and a script may lose and cut them.
#![tactic(auto)]

mod in_memory;
mod in_pieces;
mod laws;
mod replaced;
mod scripted;

pub use in_memory::{InMemory, server_of_one};
pub use in_pieces::InPieces;
pub use laws::law_servers_in_memory_serve;
pub use replaced::Replaced;
pub use scripted::{Fate, Scripted};
