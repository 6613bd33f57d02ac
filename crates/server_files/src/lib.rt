//! Files of the disk, published and served over many connections at once. Here are the lines that `cogserve` prints, and those of its
//! log.
#![tactic(auto)]

mod access_log;
mod clock;
mod error;
mod lines;
mod publishing;
mod rounds;
mod times;

pub use access_log::AccessLog;
pub use error::{NotPublished, ServeFilesError};
pub use publishing::publish_all;
pub use rounds::{listen, serve_connections};
