//! Runs the programs `cogserve`, `cogread` and `cogworld`, as one command whose first word names one of them.
#![tactic(auto)]

mod bounds;
mod clients;
mod cogread;
mod cogserve;
mod cogworld;
mod command;
mod disk;
mod exit;
mod headers;
mod local;
mod negative;
mod number;
mod origin;
mod output;
mod quick;
mod stored;
mod unread;
mod world_file;

pub use cogworld::write_log;
pub use command::run;
pub use disk::Disk;
pub use exit::Exit;
