//! Tests of a client and a server over sockets of one process.
mod early;
mod kept;
mod loopback;
mod peer;
