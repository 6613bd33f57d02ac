//! Connections that bring what a table says, and the steps that follow.
mod checks;
mod driver;
mod kept_connections;
mod new_connections;
mod pieces;
mod rows;
