//! Sockets that are tried while another connection waits for a slot. A system may call a socket writable late, so that its progress isn't
//! seen.
ghost use Rattle.std.specs.Prelude.{◌≡◌};
ghost use Rattle.cog_server.specs.Additions.{ServiceState};
ghost use Rattle.server_sockets.specs.Closings.{TriesAlone};
ghost use Rattle.server_sockets.specs.Going.{AllWentOn};
ghost use Rattle.server_sockets.specs.Slots.{KeepsBacklog, KeepsFreeing, NobodyComes, limits_of, slots_of};
ghost use Rattle.server_sockets.specs.Turns.{TriesOne};

use crate::serving::Serving;

impl Serving {
    /// Tries at moment `now` the socket that was tried the longest ago, of those that are to be tried.
    #[tactic(auto, using(crate::proofs::SlotLemmas::trying))]
    pub(crate) fn try_socket(&mut self, now: u64)
        ensures nobody { NobodyComes self.old self.new }
        // Nothing is answered, by whatever service.
        ensures went { (service : ServiceState) → AllWentOn service now (slots_of self.old) (slots_of self.new) }
        ensures tried { TriesOne now (limits_of self.old).patience (slots_of self.old) (slots_of self.new) }
        // No other connection changes, and no other begins to drain.
        ensures alone { TriesAlone now self.old self.new }
        ensures backlog { KeepsBacklog self.old self.new }
        ensures freeing { KeepsFreeing self.old self.new }
    {
        let Some(number) = self.open_connections.untried(now, self.limits.patience) else {
            return;
        };
        let turn = self.open_connections.try_socket(number, now);
        if self.after(number, turn, now).is_err() {
            self.open_connections.close(number);
        }
    }
}
