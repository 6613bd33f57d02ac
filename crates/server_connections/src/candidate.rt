//! Connections that may be closed for a new one.

use cog_server::Server;

/// The connections among which one is sought.
#[derive(Drop)]
pub enum Candidate<'a> {
    /// One whose last answer is written.
    Draining,
    /// One where no message has begun, and no answer is unfinished.
    Idle,
    /// One that has made no progress for `patience` at moment `now`. If bytes wait on it, its socket was tried at that moment.
    Stuck {
        now: u64,
        patience: u64,
    },
    /// One on which bytes wait, and whose socket is to be tried at moment `now`: it was tried half of `patience` ago. It is to be tried
    /// also before it is stuck.
    Untried {
        now: u64,
        patience: u64,
    },
    /// One on which bytes wait.
    Waiting,
    /// Any one.
    Any,
    /// One that keeps bytes of a file that `server` publishes no more.
    Outdated {
        server: &'a Server,
    },
    /// One that keeps such bytes, and is stuck.
    Overdue {
        server: &'a Server,
        now: u64,
        patience: u64,
    },
}
