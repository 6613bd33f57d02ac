//! The connections that have a slot, with their sockets.
ghost use Rattle.std.specs.Prelude.{◌≡◌, ◌≢◌, ◌⊎◌, ◌↔◌, ◌+◌, ◌<◌, ◌≤◌, ◌^◌, ℕ, [], IfOk, IfSome, IsSome, IsSomeAnd, IsTrue, None, OnErr, OnOk, Some, false, length, nat_eq, true};
ghost use Rattle.std.specs.Map.{remove_entry};
ghost use Rattle.std.specs.NonZero.{non_zero_usize_get};
ghost use Rattle.cog_server.specs.Additions.{ServiceState};
ghost use Rattle.cog_server.specs.Service.{service_of};
ghost use Rattle.server_connections.specs.Table.{Changes, OthersStay, timed_after_write, timed_at};
ghost use Rattle.server_connections.specs.declared.timed.Timed.{Timed};
ghost use Rattle.server_connections.specs.Yielding.{FreesAt, IsFirstOverdue, IsUntried, MayYield, TriesAt, WakesAt, Yields, is_overdue};
ghost use Rattle.server_sockets.specs.Going.{AllWentOn};
ghost use Rattle.server_sockets.specs.Turns.{FailsRightly, HasEndedAt, HasFailed, HasStartedAt, HaveSockets, IsDrainedAt, IsOpenAt, IsTriedAt, KeepsSlots, RestsAt};
ghost use Rattle.server_sockets.specs.declared.turn.Turn.TheVariants.{Ended, GoesOn, Waits};

use crate::answer_log::{AnswerLog, ConnectionLog, UnansweredInput};
use crate::connection_socket::ConnectionSocket;
use crate::turn::{Turn, drain_turn, serve_turn, try_turn};
use cog_server::{Server, Service};
use http_range::Memory;
use mio::net::TcpStream;
use mio::{Interest, Poll, Token};
use server_connections::Connections;
use std::alloc::Global;
use std::collections::HashMap;
use std::io;
use std::net::{Shutdown, SocketAddr};
use std::num::NonZeroUsize;

/// The socket of a connection, and what the server knows of its turns.
#[derive(Drop)]
struct Peer {
    socket: ConnectionSocket,
    /// Whether all answers are written, so that what still comes is dropped.
    is_draining: bool,
    /// Whether the connection is queued for its next turn.
    is_ready: bool,
    /// The bytes that came and aren't answered yet, kept for the log.
    unanswered: UnansweredInput,
}

/// Returns whether there is a slot for one more connection.
fn has_slot(connections: &Connections) -> bool
    ensures slot { IsTrue result ↔ (length connections.now.table.entries < connections.now.table.cap) }
    ensures bound { length connections.now.table.entries ≤ connections.now.table.cap }
{
    connections.count() < connections.table.cap().get()
}

/// The connections that have a slot, with their sockets, and how many connections have ended.
#[derive(Drop)]
pub struct OpenConnections {
    alloc: Global,
    pub connections: Connections,
    peers: HashMap<u64, Peer>,
    ended: u32,
    ghost paired: { HaveSockets (λ p. p.socket.number) peers connections.table.entries },
}

impl OpenConnections {
    ghost use Rattle.server_sockets.specs.Draining.{DrainsAt, IsFresh, IsReadyAt};

    /// Makes it without a connection, and with `slots` slots.
    pub fn new(alloc: Global, slots: NonZeroUsize) -> Result<Self, Memory>
        ensures none { IfOk result (λ o. o.connections.table.entries ≡ []) }
        ensures slots { IfOk result (λ o. o.connections.table.cap ≡ non_zero_usize_get slots) }
        ensures ended { IfOk result (λ o. o.ended ≡ 0) }
    {
        Ok(OpenConnections {
            alloc,
            connections: Connections::new(alloc, slots)?,
            peers: HashMap::new(alloc),
            ended: 0,
        })
    }

    /// Returns how many connections have ended.
    pub fn ended(&self) -> u32
        ensures { result ≡ self.now.ended }
    {
        self.ended
    }

    /// Returns whether there is no connection.
    pub fn is_empty(&self) -> bool
        ensures { IsTrue result ↔ (self.now.connections.table.entries ≡ []) }
    {
        self.connections.count() == 0
    }

    /// Returns whether there is a slot for one more connection.
    pub fn has_slot(&self) -> bool
        ensures slot { IsTrue result ↔ (length self.now.connections.table.entries < self.now.connections.table.cap) }
        ensures bound { length self.now.connections.table.entries ≤ self.now.connections.table.cap }
    {
        has_slot(&self.connections)
    }

    /// Returns the number of the connection that is closed for a new one at moment `now`, or `None`. A connection without progress for
    /// `patience` milliseconds may be closed. The only slot is never taken.
    pub fn yields(&self, now: u64, patience: u64) -> Option<u64>
        ensures one { self.now.connections.table.cap ≡ 1 → result ≡ None }
        ensures many { self.now.connections.table.cap ≢ 1 → Yields now patience self.now.connections.table.entries result }
        ensures found { IfSome result (λ k. IsSomeAnd (timed_at k self.now.connections.table.entries) (MayYield now patience)) }
    {
        self.connections.yields(now, patience)
    }

    /// Returns the moment at which the next connection will have made no progress for `patience` milliseconds. Returns `None` where
    /// there is one slot, since it is never taken.
    pub fn wakes_at(&self, patience: u64) -> Option<u64>
        ensures one { self.now.connections.table.cap ≡ 1 → result ≡ None }
        ensures many { self.now.connections.table.cap ≢ 1 → WakesAt patience self.now.connections.table.entries result }
    {
        if self.connections.table.cap().get() == 1 {
            None
        } else {
            self.connections.wakes_at(patience)
        }
    }

    /// Returns the number of a connection whose socket is to be tried at moment `now`, or `None` where none is.
    pub fn untried(&self, now: u64, patience: u64) -> Option<u64>
        ensures { IsUntried now patience self.now.connections.table.entries result }
    {
        self.connections.untried(now, patience)
    }

    /// Returns the first moment at which half of `patience` will have passed since a socket was tried for which bytes wait. Returns `None`
    /// where there is one slot.
    pub fn tries_at(&self, patience: u64) -> Option<u64>
        ensures one { self.now.connections.table.cap ≡ 1 → result ≡ None }
        ensures many { self.now.connections.table.cap ≢ 1 → TriesAt patience self.now.connections.table.entries result }
    {
        if self.connections.table.cap().get() == 1 {
            None
        } else {
            self.connections.tries_at(patience)
        }
    }

    /// Returns the number of the connection that loses its slot at moment `now`, whether another one waits or not, or `None`.
    pub fn overdue(&self, server: &Server, now: u64, patience: u64) -> Option<u64>
        ensures overdue { IsFirstOverdue server.now.catalogue now patience self.now.connections.table.entries result }
        ensures found { IfSome result (λ k. IsSomeAnd (timed_at k self.now.connections.table.entries)
            (λ p. is_overdue server.now.catalogue now patience p ≡ true)) }
    {
        self.connections.overdue(server, now, patience)
    }

    /// Returns the first moment at which a connection that keeps bytes of a replaced file will have made no progress for `patience`
    /// milliseconds.
    pub fn frees_at(&self, server: &Server, patience: u64) -> Option<u64>
        ensures { FreesAt server.now.catalogue patience self.now.connections.table.entries result }
    {
        self.connections.frees_at(server, patience)
    }

    /// Adds the connection of `newcomer`, a socket with the address of its client, which starts at moment `now`. Where the system or memory
    /// has no room for it, it ends at once.
    pub fn add(&mut self, poll: &Poll, newcomer: (TcpStream, SocketAddr), now: u64)
        ensures others { OthersStay self.old.connections.next self.old.connections.table.entries self.new.connections.table.entries }
        ensures kept { (k : ℕ) (p : Timed) → timed_at k self.old.connections.table.entries ≡ Some p
            → timed_at k self.new.connections.table.entries ≡ Some p }
        ensures next { self.new.connections.next ≤ self.old.connections.next + 1 }
        ensures ended { self.old.ended ≤ self.new.ended }
        ensures cap { self.new.connections.table.cap ≡ self.old.connections.table.cap }
        ensures more { length self.new.connections.table.entries ≤ length self.old.connections.table.entries + 1 }
        ensures added { HasStartedAt self.old.connections.next now self.new.connections.table.entries
            ⊎ ((self.old.ended + 1 < 2 ^ 32 → self.new.ended ≡ self.old.ended + 1)
            × ((k : ℕ) → timed_at k self.new.connections.table.entries ≡ timed_at k self.old.connections.table.entries)) }
        // It is of this client, doesn't drain, and its first turn isn't queued yet.
        ensures fresh { IsFresh newcomer.1 self.old.connections.next self.new
            ⊎ ((k : ℕ) → timed_at k self.new.connections.table.entries ≡ timed_at k self.old.connections.table.entries) }
    {
        if self.try_add(poll, newcomer, now).is_err() {
            self.ended = self.ended.saturating_add(1);
        }
    }

    /// Adds the connection of `newcomer`, which starts at moment `now`. Where that fails, no slot is taken.
    fn try_add(
        &mut self,
        poll: &Poll,
        newcomer: (TcpStream, SocketAddr),
        now: u64,
    ) -> io::Result<()>
        ensures ended { self.new.ended ≡ self.old.ended }
        ensures added { OnOk result (HasStartedAt self.old.connections.next now self.new.connections.table.entries) }
        ensures fresh { OnOk result (IsFresh newcomer.1 self.old.connections.next self.new) }
        ensures err { OnErr result ((k : ℕ)
            → timed_at k self.new.connections.table.entries ≡ timed_at k self.old.connections.table.entries) }
        ensures others { OthersStay self.old.connections.next self.old.connections.table.entries self.new.connections.table.entries }
        ensures kept { (k : ℕ) (p : Timed) → timed_at k self.old.connections.table.entries ≡ Some p
            → timed_at k self.new.connections.table.entries ≡ Some p }
        ensures next { self.new.connections.next ≤ self.old.connections.next + 1 }
        ensures cap { self.new.connections.table.cap ≡ self.old.connections.table.cap }
        ensures more { length self.new.connections.table.entries ≤ length self.old.connections.table.entries + 1 }
    {
        if !has_slot(&self.connections) {
            return Err(io::Error::from(io::ErrorKind::Other));
        }
        let (mut stream, client) = newcomer;
        stream.set_nodelay(true)?;
        let Ok(number) = self.connections.accept(now) else {
            return Err(io::Error::from(io::ErrorKind::OutOfMemory));
        };
        let added = poll.registry().register(
            &mut stream,
            Token(number as usize),
            Interest::READABLE | Interest::WRITABLE,
        );
        let peer = Peer {
            socket: ConnectionSocket {
                number,
                stream,
                client,
            },
            is_draining: false,
            is_ready: false,
            unanswered: UnansweredInput::new(self.alloc),
        };
        if added.is_err() || self.peers.insert(number, peer).is_err() {
            self.connections.close(number);
            return Err(io::Error::from(io::ErrorKind::OutOfMemory));
        }
        Ok(())
    }

    /// Closes connection `number`, and frees its slot and its socket.
    pub fn close(&mut self, number: u64)
        ensures ended { self.old.ended ≤ self.new.ended }
        ensures others { OthersStay number self.old.connections.table.entries self.new.connections.table.entries }
        ensures gone { timed_at number self.new.connections.table.entries ≡ None }
        ensures cap { self.new.connections.table.cap ≡ self.old.connections.table.cap }
        ensures fewer { length self.new.connections.table.entries ≤ length self.old.connections.table.entries }
        ensures entries { self.new.connections.table.entries ≡ remove_entry (nat_eq number) self.old.connections.table.entries }
        ensures next { self.new.connections.next ≡ self.old.connections.next }
        ensures once { self.new.ended ≤ self.old.ended + 1 }
        ensures drained { DrainsAt number self.old → self.new.ended ≡ self.old.ended }
        ensures counted { IsSome (timed_at number self.old.connections.table.entries) → ¬ DrainsAt number self.old
            → self.old.ended + 1 < 2 ^ 32 → self.new.ended ≡ self.old.ended + 1 }
        ensures none { timed_at number self.old.connections.table.entries ≡ None → self.new.ended ≡ self.old.ended }
        ensures marked { (k : ℕ) → IsReadyAt k self.new → IsReadyAt k self.old }
    {
        if let Some(peer) = self.peers.remove(&number)
            && !peer.is_draining
        {
            self.ended = self.ended.saturating_add(1);
        }
        self.connections.close(number);
    }

    /// Ends connection `number`, whose last answer is written, and shuts its socket down for writing. Returns whether that succeeded.
    /// Returns `false` where the connection had ended before, or isn't there.
    pub fn drain(&mut self, number: u64) -> bool
        ensures kept { self.new.connections ≡ self.old.connections }
        ensures there { result ≡ true → IsSome (timed_at number self.old.connections.table.entries) }
        ensures ended { self.old.ended ≤ self.new.ended }
        ensures once { self.new.ended ≤ self.old.ended + 1 }
        ensures counted { result ≡ true → self.old.ended + 1 < 2 ^ 32 → self.new.ended ≡ self.old.ended + 1 }
        ensures drains { result ≡ true → DrainsAt number self.new }
    {
        match self.peers.get_mut(&number) {
            Some(peer) if !peer.is_draining => {
                peer.is_draining = true;
                self.ended = self.ended.saturating_add(1);
                peer.socket.stream.shutdown(Shutdown::Write).is_ok()
            }
            _ => false,
        }
    }

    /// Marks connection `number` as ready for its turn. Returns whether there is such a connection that wasn't marked before.
    pub fn note_ready(&mut self, number: u64) -> bool
        ensures kept { self.new.connections ≡ self.old.connections }
        ensures ended { self.new.ended ≡ self.old.ended }
        ensures once { IsReadyAt number self.old → result ≡ false }
        ensures noted { result ≡ false → (timed_at number self.old.connections.table.entries ≡ None) ⊎ IsReadyAt number self.old }
        ensures ready { IsReadyAt number self.new ⊎ (timed_at number self.new.connections.table.entries ≡ None) }
        ensures others { (k : ℕ) → IsReadyAt k self.new → (k ≡ number) ⊎ IsReadyAt k self.old }
    {
        match self.peers.get_mut(&number) {
            Some(peer) if !peer.is_ready => {
                peer.is_ready = true;
                true
            }
            _ => false,
        }
    }

    /// Tries at moment `now` to write to the socket of connection `number`.
    #[tactic(auto, using(crate::proofs::GoingLemmas::all_still, crate::proofs::GoingLemmas::none_tried))]
    pub fn try_socket(&mut self, number: u64, now: u64) -> Turn
        ensures kept { KeepsSlots number self.old.connections self.new.connections }
        ensures went { (service : ServiceState) → AllWentOn service now self.old.connections.table.entries
            self.new.connections.table.entries }
        ensures tried { IsTriedAt now number self.new.connections.table.entries }
        ensures counted { self.new.ended ≡ self.old.ended }
        ensures ended { result ≡ Ended → HasEndedAt number self.new.connections.table.entries }
        // One whose socket took bytes neither waits nor fails.
        ensures blocked { (result ≡ Waits) ⊎ HasFailed result
            → Changes number (timed_after_write 0 now) self.old.connections.table.entries self.new.connections.table.entries }
        ensures failed { FailsRightly result }
    {
        match self.peers.get(&number) {
            Some(peer) => try_turn(&mut self.connections, &peer.socket, now),
            None => Turn::Waits,
        }
    }

    /// Gives connection `number` its turn at moment `now`. Answers are logged in `log`.
    #[tactic(auto, using(crate::proofs::GoingLemmas::all_still))]
    pub fn turn<A: AnswerLog>(
        &mut self,
        number: u64,
        service: &Service<'_>,
        buffer: &mut [u8],
        now: u64,
        log: &mut A,
    ) -> Turn
        requires { 0 < length buffer.old }
        ensures kept { KeepsSlots number self.old.connections self.new.connections }
        ensures went { AllWentOn (service_of service.now) now self.old.connections.table.entries self.new.connections.table.entries }
        ensures ended { result ≡ Ended → HasEndedAt number self.new.connections.table.entries
            ⊎ (DrainsAt number self.old × IsDrainedAt number self.new.connections.table.entries) }
        // One that has ended, or is read to its end, neither goes on nor waits.
        ensures goes_on { result ≡ GoesOn → (IsOpenAt number self.old.connections.table.entries
            × IsOpenAt number self.new.connections.table.entries)
            ⊎ (DrainsAt number self.old × ¬ IsDrainedAt number self.old.connections.table.entries) }
        ensures waits { result ≡ Waits → IsOpenAt number self.new.connections.table.entries
            ⊎ ((DrainsAt number self.old × ¬ IsDrainedAt number self.new.connections.table.entries)
            ⊎ (timed_at number self.new.connections.table.entries ≡ None)) }
        // One that waits and doesn't drain can't go on: it was tried to write what waits, or no whole message is left to be answered.
        ensures rests { result ≡ Waits → RestsAt now number self.new.connections.table.entries
            ⊎ ((DrainsAt number self.old × ¬ IsDrainedAt number self.new.connections.table.entries)
            ⊎ (timed_at number self.new.connections.table.entries ≡ None)) }
        // One fails only by an error of another kind than that its socket would block, or that a signal came.
        ensures failed { FailsRightly result }
        ensures drains { DrainsAt number self.old → DrainsAt number self.new }
        ensures counted { self.new.ended ≡ self.old.ended }
        ensures taken { ¬ IsReadyAt number self.new }
    {
        let Some(peer) = self.peers.get_mut(&number) else {
            return Turn::Waits;
        };
        peer.is_ready = false;
        let socket = &peer.socket;
        if peer.is_draining {
            return drain_turn(&mut self.connections, socket, buffer);
        }
        let unanswered = &mut peer.unanswered;
        let mut log = ConnectionLog { unanswered, log };
        serve_turn(
            &mut self.connections,
            socket,
            service,
            buffer,
            now,
            &mut log,
        )
    }
}
