//! Sockets under a client. Requests go to a server that is named by its address, and answers come as they arrive. There is one connection
//! for each request, or one that is kept from answer to answer.
#![tactic(auto)]

mod socket;
mod stream;
mod whole_answers;

pub use socket::Socket;
