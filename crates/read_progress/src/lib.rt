//! Notes what each exchange with a server brought, and prints it on standard error.
#![tactic(auto)]

mod clock;
mod line;
mod network;
mod noted;
mod printing;
mod sentences;

pub use network::NotedNet;
pub use noted::{Came, Noted, Progress};
pub use printing::{Printing, Verbosity};
pub use sentences::{RefusalSentence, WhySentence, is_lasting};
