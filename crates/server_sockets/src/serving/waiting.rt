//! How long a server's sockets wait.
ghost use Rattle.std.specs.Prelude.{◌≡◌, ◌≢◌, ◌+◌, ◌-◌, ◌*◌, ◌<◌, ◌≤◌, ◌⊎◌, [], IfSome, IsSomeAnd, None, OnErr, OnOk, false, slice_get, true};
ghost use Rattle.std.specs.Duration.{as_nanos};
ghost use Rattle.server_sockets.specs.Closings.{BeginsWith};
ghost use Rattle.server_sockets.specs.Slots.{IsLookedAt, IsNoted, IsWaitedFor, KeepsBacklog, KeepsFreeing, NobodyComes, NoneChanges, accepted_of, drains_of, frees_of, limits_of, ready_of, slot_count, TriesBy, TriesIn, WakesBy, WakesIn};

use crate::events::note;
use crate::moments::earlier;
use crate::serving::Serving;
use std::io;
use std::time::Duration;

/// How many milliseconds pass until a connection that couldn't be accepted is tried again.
const RETRY: u64 = 1_000;

impl Serving {
    /// Waits until a connection is ready, one is in the listen backlog, or a moment comes at which something is due. Notes what the system
    /// reports.
    #[tactic(auto, using(crate::proofs::SlotLemmas::nobody_yet))]
    pub fn wait(&mut self, now: u64) -> io::Result<()>
        ensures noted { OnOk result (IsNoted self.old self.new) }
        ensures nobody { NobodyComes self.old self.new }
        ensures same { NoneChanges self.old self.new }
        // After an error of the system the same is known of the listen backlog as before.
        ensures unheard { OnErr result (KeepsBacklog self.old self.new) }
        // Who is queued for a turn stays queued, who drains goes on, and of replaced files the same is known.
        ensures queue { BeginsWith (ready_of self.new) (ready_of self.old) }
        ensures drains { drains_of self.new ≡ drains_of self.old }
        ensures freeing { KeepsFreeing self.old self.new }
    {
        let timeout = self.timeout(now);
        self.poll.poll(&mut self.events, timeout)?;
        if note(&self.events, &mut self.open_connections, &mut self.ready) {
            self.accept_pending = true;
        }
        Ok(())
    }

    /// Returns the moment at which a connection in the listen backlog is tried again, if one waits. That is the moment at which an open
    /// connection may be closed for it, or at which a socket is to be tried. Where no descriptor was left, it is a second from `now` at the
    /// latest. Where the system barred it, it is a second from `now`.
    fn looks_at(&self, now: u64) -> Option<u64>
        ensures starved { (self.now.out_of_descriptors ≡ true) ⊎ (self.now.is_barred ≡ true) → self.now.accept_pending ≡ true
            → accepted_of self.now < (limits_of self.now).connections → IsSomeAnd result (λ moment. moment ≤ now + 1000) }
        ensures slot { self.now.is_barred ≡ false → self.now.accept_pending ≡ true
            → accepted_of self.now < (limits_of self.now).connections → slot_count self.now ≢ 1 → WakesBy self.now result }
        ensures tries { self.now.is_barred ≡ false → self.now.accept_pending ≡ true
            → accepted_of self.now < (limits_of self.now).connections → slot_count self.now ≢ 1 → TriesBy self.now result }
        ensures idle { self.now.accept_pending ≡ false → result ≡ None }
        ensures only { IfSome result (IsLookedAt now self.now) }
    {
        if !self.is_awaited() {
            return None;
        }
        if self.is_barred {
            return Some(now.saturating_add(RETRY));
        }
        let patience = self.limits.patience;
        let slot = earlier(
            self.open_connections.wakes_at(patience),
            self.open_connections.tries_at(patience),
        );
        let again = if self.out_of_descriptors {
            Some(now.saturating_add(RETRY))
        } else {
            None
        };
        earlier(slot, again)
    }

    /// Returns how long to wait from moment `now` on. It is until a drain ends, a connection has kept bytes of a replaced file for the
    /// patience, or one in the listen backlog is tried again. Returns `None` where the wait has no limit.
    pub(crate) fn timeout(&self, now: u64) -> Option<Duration>
        ensures ready { self.now.ready.items ≢ [] → IsSomeAnd result (λ wait. as_nanos wait ≡ 0) }
        ensures drain { IfSome (slice_get self.now.drains.items 0) (λ drain.
            IsSomeAnd result (λ wait. as_nanos wait ≤ (drain.ends - now) * 1000000)) }
        ensures starved { (self.now.out_of_descriptors ≡ true) ⊎ (self.now.is_barred ≡ true) → self.now.accept_pending ≡ true
            → accepted_of self.now < (limits_of self.now).connections → IsSomeAnd result (λ wait. as_nanos wait ≤ 1000 * 1000000) }
        ensures slot { self.now.ready.items ≡ [] → self.now.is_barred ≡ false → self.now.accept_pending ≡ true
            → accepted_of self.now < (limits_of self.now).connections → slot_count self.now ≢ 1 → WakesIn now self.now result }
        ensures tries { self.now.ready.items ≡ [] → self.now.is_barred ≡ false → self.now.accept_pending ≡ true
            → accepted_of self.now < (limits_of self.now).connections → slot_count self.now ≢ 1 → TriesIn now self.now result }
        // No connection keeps bytes of a replaced file unseen.
        ensures frees { IfSome (frees_of self.now) (λ moment. IsSomeAnd result (λ wait. as_nanos wait ≤ (moment - now) * 1000000)) }
        // Where no connection is ready, none is in the backlog, and none keeps bytes of a replaced file, the wait ends with the first
        // drain. Without a drain it has no limit.
        ensures idle { self.now.ready.items ≡ [] → self.now.drains.items ≡ [] → self.now.accept_pending ≡ false
            → frees_of self.now ≡ None → result ≡ None }
        ensures just { self.now.ready.items ≡ [] → self.now.accept_pending ≡ false → frees_of self.now ≡ None
            → IfSome (slice_get self.now.drains.items 0) (λ drain.
            IsSomeAnd result (λ wait. as_nanos wait ≡ (drain.ends - now) * 1000000)) }
        // The wait ends for no other reason.
        ensures only { self.now.ready.items ≡ [] → IfSome result (IsWaitedFor now self.now) }
    {
        if !self.ready.is_empty() {
            return Some(Duration::ZERO);
        }
        let drain = self.drains.front().map(|drain| drain.ends);
        let looks_at = earlier(self.frees_at, self.looks_at(now));
        let moment = earlier(drain, looks_at)?;
        Some(Duration::from_millis(moment.saturating_sub(now)))
    }
}
