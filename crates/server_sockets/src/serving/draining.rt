//! Connections whose last answer is written. Each is closed once its drain has ended.
ghost use Rattle.std.specs.Prelude.{◌≡◌, ◌<◌, ◌≤◌, ◌++◌, ◌∷◌, [], IfSome, IsOk, IsSomeAnd, None, OnOk, drop, false, slice_get, true};
ghost use Rattle.server_connections.specs.Table.{OthersStay, timed_at};
ghost use Rattle.server_sockets.specs.Closings.{BeginsWith, ChangesOnly, DrainsOnly, HasDrained};
ghost use Rattle.server_sockets.specs.Draining.{drain_of};
ghost use Rattle.server_sockets.specs.Slots.{KeepsBacklog, KeepsFreeing, NobodyComes, NoneChanges, drains_of, ready_of, slots_of};

use crate::drain::{DRAIN, Drain};
use crate::serving::Serving;
use http_range::Memory;

impl Serving {
    /// Starts at moment `now` the drain of connection `number`, and queues it for its next turn, if its socket `is_shut` for writing.
    /// Closes it otherwise. Where memory is short, the caller closes it.
    pub(crate) fn start_drain(&mut self, number: u64, is_shut: bool, now: u64) -> Result<(), Memory>
        ensures others { OthersStay number (slots_of self.old) (slots_of self.new) }
        ensures nobody { NobodyComes self.old self.new }
        ensures same { NoneChanges self.old self.new }
        ensures drains { is_shut ≡ true → OnOk result ((self.new.drains.items ≡ self.old.drains.items ++ drain_of now number ∷ [])
            × (self.new.ready.items ≡ self.old.ready.items ++ number ∷ []) × (slots_of self.new ≡ slots_of self.old)) }
        ensures closed { is_shut ≡ false → IsOk result × (timed_at number (slots_of self.new) ≡ None) }
        ensures queue { BeginsWith (ready_of self.new) (ready_of self.old) }
        ensures drains_only { DrainsOnly (λ k. k ≡ number) (drains_of self.old) (drains_of self.new) }
        ensures backlog { KeepsBacklog self.old self.new }
        ensures freeing { KeepsFreeing self.old self.new }
    {
        if is_shut {
            let ends = now.saturating_add(DRAIN);
            self.drains.push_back(Drain { ends, number })?;
            self.make_ready(number)?;
        } else {
            self.open_connections.close(number);
        }
        Ok(())
    }

    /// Closes the connections whose drain has ended by moment `now`.
    #[tactic(auto, using(crate::proofs::SlotLemmas::nobody_yet, crate::proofs::SlotLemmas::same_on))]
    pub(crate) fn end_drains(&mut self, now: u64)
        ensures nobody { NobodyComes self.old self.new }
        ensures same { NoneChanges self.old self.new }
        // The first drain that is left hasn't ended yet.
        ensures over { IfSome (slice_get self.new.drains.items 0) (λ drain. now < drain.ends) }
        ensures closes { ChangesOnly (HasDrained now (drains_of self.old)) (slots_of self.old) (slots_of self.new) }
        ensures backlog { KeepsBacklog self.old self.new }
        ensures freeing { KeepsFreeing self.old self.new }
    {
        for _ in 0..self.drains.len() {
            if !self.end_drain(now) {
                break;
            }
        }
    }

    /// Closes the connection whose drain ends first, if it has ended by moment `now`. Returns whether it had.
    fn end_drain(&mut self, now: u64) -> bool
        ensures nobody { NobodyComes self.old self.new }
        ensures same { NoneChanges self.old self.new }
        ensures early { result ≡ false → (self.new ≡ self.old)
            × IfSome (slice_get self.old.drains.items 0) (λ drain. now < drain.ends) }
        ensures over { result ≡ true → IsSomeAnd (slice_get self.old.drains.items 0) (λ drain. (drain.ends ≤ now)
            × (timed_at drain.number (slots_of self.new) ≡ None)) }
        ensures gone { result ≡ true → self.new.drains.items ≡ drop 1 self.old.drains.items }
        ensures closes { ChangesOnly (HasDrained now (drains_of self.old)) (slots_of self.old) (slots_of self.new) }
        ensures backlog { KeepsBacklog self.old self.new }
        ensures freeing { KeepsFreeing self.old self.new }
    {
        match self.drains.front().copied() {
            Some(drain) if drain.ends <= now => {
                self.drains.pop_front();
                self.open_connections.close(drain.number);
                true
            }
            _ => false,
        }
    }
}
