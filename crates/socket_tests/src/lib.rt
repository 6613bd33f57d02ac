//! Tests over sockets of one process: a client and a server, a kept connection, and requests that are sent early.
#![tactic(auto)]

#[cfg(test)]
mod tests;
