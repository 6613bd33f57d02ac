//! The connection that yields its slot to a new one.
ghost use Rattle.std.specs.Prelude.{◌≡◌};
ghost use Rattle.server_connections.specs.Yielding.{Finds, half_of, has_waiting, is_longer, is_stuck, is_untried, passes, since};

use crate::candidate::Candidate;
use crate::timed::Timed;
use lru::LruCache;

/// Returns half of `patience`, rounded up.
pub fn half_of(patience: u64) -> u64
    ensures { result ≡ half_of patience }
{
    patience - patience / 2
}

/// Returns whether bytes wait on the connection.
fn has_waiting(timed: &Timed) -> bool
    ensures { result ≡ has_waiting timed.now }
{
    let (head, body) = timed.connection.waiting();
    !head.is_empty() || !body.is_empty()
}

/// Returns whether the connection has made no progress for `patience` at moment `now`. Where bytes wait on it, its socket was tried at
/// that moment, too.
fn is_stuck(timed: &Timed, now: u64, patience: u64) -> bool
    ensures { result ≡ is_stuck now patience timed.now }
{
    now.saturating_sub(timed.progress) >= patience && (timed.tried == now || !has_waiting(timed))
}

/// Returns whether bytes wait on the connection, and its socket is to be tried at moment `now`.
fn is_untried(timed: &Timed, now: u64, patience: u64) -> bool
    ensures { result ≡ is_untried now patience timed.now }
{
    let is_late = now.saturating_sub(timed.tried) >= half_of(patience);
    let is_last = now.saturating_sub(timed.progress) >= patience && timed.tried != now;
    (is_late || is_last) && has_waiting(timed)
}

/// Returns whether the connection is one of those that `candidate` names.
fn passes(timed: &Timed, candidate: &Candidate<'_>) -> bool
    ensures { result ≡ passes candidate.now timed.now }
{
    match candidate {
        Candidate::Draining => timed.connection.is_draining(),
        Candidate::Idle => timed.connection.is_idle(),
        Candidate::Stuck { now, patience } => is_stuck(timed, *now, *patience),
        Candidate::Untried { now, patience } => is_untried(timed, *now, *patience),
        Candidate::Waiting => has_waiting(timed),
        Candidate::Any => true,
        Candidate::Outdated { server } => timed.connection.is_outdated(server),
        Candidate::Overdue {
            server,
            now,
            patience,
        } => is_stuck(timed, *now, *patience) && timed.connection.is_outdated(server),
    }
}

/// Returns the moment from which the wait of the connection counts: its last try, where its socket is to be tried, or its last progress.
fn since(timed: &Timed, candidate: &Candidate<'_>) -> u64
    ensures { result ≡ since candidate.now timed.now }
{
    match candidate {
        Candidate::Untried {
            now: _,
            patience: _,
        }
        | Candidate::Waiting => timed.tried,
        Candidate::Draining
        | Candidate::Idle
        | Candidate::Stuck {
            now: _,
            patience: _,
        }
        | Candidate::Any
        | Candidate::Outdated { server: _ }
        | Candidate::Overdue {
            server: _,
            now: _,
            patience: _,
        } => timed.progress,
    }
}

/// Returns whether `moment` is longer ago than that of `found`, the number and the moment of another connection.
fn is_longer(found: Option<(u64, u64)>, moment: u64) -> bool
    ensures { result ≡ is_longer found moment }
{
    match found {
        Some((_number, other)) => moment < other,
        None => true,
    }
}

/// Returns the number of the candidate that has waited longest, with the moment since which it has.
pub fn longest(table: &LruCache<u64, Timed>, candidate: &Candidate<'_>) -> Option<(u64, u64)>
    ensures { Finds candidate.now table.now.entries result }
{
    let mut found: Option<(u64, u64)> = None;
    for entry in table.iter() {
        let (number, timed) = entry;
        let moment = since(timed, candidate);
        if passes(timed, candidate) && is_longer(found, moment) {
            found = Some((*number, moment));
        }
    }
    found
}
