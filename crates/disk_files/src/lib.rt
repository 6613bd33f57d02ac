//! Reads files of the disk for a server, and sees when they have to be read again. Replaces a file by a new one as a whole.
#![tactic(auto)]

mod reading;
mod stamp;
mod watched;
mod writing;

pub use reading::{FileError, read_file};
pub use watched::{WatchError, Watched};
pub use writing::replace_file;
