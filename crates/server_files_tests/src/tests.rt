//! Tests of files that are served over sockets of one process.
mod elsewhere;
mod large;
mod lines;
mod logs;
mod sockets;
mod stated;
