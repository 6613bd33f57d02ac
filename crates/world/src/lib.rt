//! Runs a schedule of publications, server restarts, clients, queries, requests and answers, and logs what each event did. Any answer may
//! be lost, cut, repeated or reordered on the way.
#![tactic(auto)]

mod answers;
mod calls;
mod event;
mod exchange;
mod handing;
mod server;
mod world;

pub use cog_client::{
    Client, ClientError, Current, Delivered, Ignored, Info, Outcome, Report, Unknown, Window,
};
pub use cog_server::{Answer, PublishError};
pub use event::{AnsweredCheck, AnsweredRequest, Effect, Entry, Event, Log};
pub use handing::Handing;
pub use world::{run, run_cut, run_with};
