//! Connections that keep bytes of a replaced file. One without progress for the patience loses its slot, whether another one waits or not.
ghost use Rattle.std.specs.Prelude.{◌≡◌, ◌+◌, ◌<◌, ◌↔◌, IsTrue, None, Some, false, length, nat_eq, true};
ghost use Rattle.std.specs.Map.{remove_entry};
ghost use Rattle.server_connections.specs.Yielding.{FreesAt, IsFirstOverdue};
ghost use Rattle.server_sockets.specs.Closings.{ChangesOnly, IsOverdueAt};
ghost use Rattle.server_sockets.specs.Slots.{KeepsBacklog, KeepsFreeing, MayKeepOld, NobodyComes, NoneChanges, accepted_of, frees_of, limits_of, publications_of, slots_of};

use crate::serving::Serving;
use cog_server::Server;

impl Serving {
    /// Returns whether a connection may keep bytes of a replaced file: one did before, or something was published since.
    pub(crate) fn may_keep_old(&self, server: &Server) -> bool
        ensures may { IsTrue result ↔ MayKeepOld server.now.count self.now }
        ensures none { result ≡ false → (frees_of self.now ≡ None) × (publications_of self.now ≡ server.now.count) }
    {
        self.frees_at.is_some() || self.publications != server.count()
    }

    /// Returns whether sockets are tried: a connection may wait in the listen backlog, or `may_keep_old` is set.
    pub(crate) fn is_due(&self, may_keep_old: bool) -> bool
        ensures awaited { self.now.accept_pending ≡ true → accepted_of self.now < (limits_of self.now).connections → result ≡ true }
        ensures old { may_keep_old ≡ true → result ≡ true }
    {
        may_keep_old || self.is_awaited()
    }

    /// Closes the connections that keep bytes of a replaced file, have made no progress for the patience at moment `now`, and whose sockets
    /// take none. Notes when the next one will have made none.
    #[tactic(auto, using(crate::proofs::SlotLemmas::nobody_yet, crate::proofs::SlotLemmas::same_on))]
    pub(crate) fn free_old_files(&mut self, server: &Server, now: u64)
        ensures nobody { NobodyComes self.old self.new }
        ensures same { NoneChanges self.old self.new }
        ensures drains { self.new.drains ≡ self.old.drains }
        ensures freed { IsFirstOverdue server.now.catalogue now (limits_of self.old).patience (slots_of self.new) None }
        ensures next { FreesAt server.now.catalogue (limits_of self.old).patience (slots_of self.new) (frees_of self.new) }
        ensures closes { ChangesOnly (IsOverdueAt server.now.catalogue now (limits_of self.old).patience (slots_of self.old))
            (slots_of self.old) (slots_of self.new) }
        ensures backlog { KeepsBacklog self.old self.new }
        ensures publications { publications_of self.new ≡ server.now.count }
    {
        loop {
            if !self.free_one(server, now) {
                break;
            }
        }
        self.publications = server.count();
        self.frees_at = self.open_connections.frees_at(server, self.limits.patience);
    }

    /// Closes the connection that has kept bytes of a replaced file without progress for the longest time, if it is the patience at moment
    /// `now`, and its socket takes none. Returns whether there was one.
    fn free_one(&mut self, server: &Server, now: u64) -> bool
        ensures nobody { NobodyComes self.old self.new }
        ensures same { NoneChanges self.old self.new }
        ensures drains { self.new.drains ≡ self.old.drains }
        ensures limits { limits_of self.new ≡ limits_of self.old }
        ensures taken { result ≡ true → length (slots_of self.new) + 1 ≡ length (slots_of self.old) }
        ensures no { result ≡ false → (self.new ≡ self.old)
            × IsFirstOverdue server.now.catalogue now (limits_of self.old).patience (slots_of self.old) None }
        ensures closes { ChangesOnly (IsOverdueAt server.now.catalogue now (limits_of self.old).patience (slots_of self.old))
            (slots_of self.old) (slots_of self.new) }
        ensures backlog { KeepsBacklog self.old self.new }
        ensures freeing { KeepsFreeing self.old self.new }
    {
        match self
            .open_connections
            .overdue(server, now, self.limits.patience)
        {
            Some(number) => {
                self.open_connections.close(number);
                true
            }
            None => false,
        }
    }
}
