//! Support for tests of the client: answers written out as texts, a client in steps, each with what is expected of it, and large files.
#![tactic(auto)]

mod answers;
mod large;
mod new_client;
mod session;
mod steps;

pub use answers::{Answer, NEW, NOT_FOUND, NotDone, OLD, Publication, published};
pub use large::{cog, revisions_of_f5};
pub use new_client::{ASKS_END, ASKS_FRONT, END, F2_REPLACED, F2_TWICE, Revisions};
pub use session::{AHEAD, Session, WAYS, client_of_a, hand, otherwise, otherwise_by};
pub use steps::{FIRST, Kind, Positions, Said, Step};
