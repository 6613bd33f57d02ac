//! The sockets of a server: which connection gets a slot, which one is served next, and how long to wait.
ghost use Rattle.std.specs.Prelude.{◌≡◌, ◌≢◌, ◌+◌, ◌-◌, ◌*◌, ◌<◌, ◌≤◌, ◌^◌, ◌⊎◌, ◌↔◌, ◌++◌, ◌∷◌, [], IfErr, IfOk, IfSome, IsOk, IsTrue, None, Ok, OnErr, OnOk, Some, false, length, slice_get, true};
ghost use Rattle.std.specs.IoError.{error_kind};
ghost use Rattle.std.specs.NonZero.{non_zero_usize_get};
ghost use Rattle.std.specs.declared.io.ErrorKind.{ErrorKind};
ghost use Rattle.std.specs.declared.io.ErrorKind.TheVariants.{WouldBlock};
ghost use Rattle.cog_server.specs.Service.{service_of};
ghost use Rattle.server_connections.specs.Table.{OthersStay, timed_at};
ghost use Rattle.server_connections.specs.Yielding.{FreesAt, IsFirstOverdue};
ghost use Rattle.mio.specs.Events.{capacity};
ghost use Rattle.server_sockets.specs.Draining.{IsReadyAt, drain_of};
ghost use Rattle.server_sockets.specs.Going.{AllWentOn};
ghost use Rattle.server_sockets.specs.Refusals.{HasNoRoom, IsBarred, IsLasting, IsOfAsking, IsPassing};
ghost use Rattle.server_sockets.specs.Turns.{FailsRightly, GivesSlot, HasStartedAt};
ghost use Rattle.server_sockets.specs.declared.refusal.AcceptError.TheVariants.{Accept};
ghost use Rattle.server_sockets.specs.declared.turn.Turn.TheVariants.{Ended, Failed, GoesOn, Waits};

mod draining;
mod freeing;
mod trying;
mod waiting;

use crate::answer_log::AnswerLog;
use crate::drain::Drain;
use crate::events::LISTENER;
use crate::open_connections::OpenConnections;
use crate::refusal::{AcceptError, Refusal, refusal_of};
use crate::turn::Turn;
use cog_server::Service;
use http_range::{MESSAGE_LIMIT, Memory};
use mio::net::{TcpListener, TcpStream};
use mio::{Events, Interest, Poll};
use std::collections::VecDeque;
use std::io::ErrorKind;
use std::net::{Net, SocketAddr};
use std::num::NonZeroUsize;
use std::{io, net};

/// The most events of one wait.
const EVENTS: usize = 65_536;

/// How many connections a server accepts, and how long one keeps its slot.
#[derive(Clone, Copy, Debug, PartialEq, Eq)]
pub struct Limits {
    /// How many connections are accepted in all.
    pub connections: u32,
    /// How many connections are open at once: the number of slots.
    pub at_once: NonZeroUsize,
    /// How many milliseconds a connection without progress keeps its slot while another one waits for it.
    pub patience: u64,
}

/// The sockets of a server. All moments are milliseconds of one clock.
#[derive(Drop)]
pub struct Serving {
    poll: Poll,
    events: Events,
    listener: TcpListener,
    limits: Limits,
    open_connections: OpenConnections,
    /// The numbers of the connections that are ready for their turn.
    ready: VecDeque<u64>,
    /// The drains, in the order in which they end.
    drains: VecDeque<Drain>,
    buffer: Vec<u8>,
    /// Whether a connection may wait in the listen backlog.
    accept_pending: bool,
    /// Whether the system had no room for a connection, since one was last accepted or none waited.
    out_of_descriptors: bool,
    /// Whether the system barred a connection, since one was last accepted or none waited.
    is_barred: bool,
    accepted: u32,
    /// The first moment at which a connection that keeps a replaced file's bytes is to be closed, as it was last looked for.
    frees_at: Option<u64>,
    /// How many publications there were then.
    publications: u32,
    ghost room: { 0 < length buffer.items },
}

impl Serving {
    ghost use Rattle.server_sockets.specs.Closings.{BeginsWith, ClosesOnly, DrainsOnly, TriesAfterTurns};
    ghost use Rattle.server_sockets.specs.Slots.{AcceptsNoMore, AllStart, HasNoSlot, IsServedAt, KeepsAll, KeepsBacklog, KeepsBusy, KeepsFreeing, KeepsTurns, MayKeepOld, NoneChanges, NobodyComes, NobodyYields, Rests, StayOrStart, accepted_of, drains_of, ended_of, frees_of, limits_of, next_of, publications_of, ready_of, slots_of, slot_count};

    /// Starts to listen with `listener`, without a connection.
    pub fn new<R: Net + AllocGlobal>(
        rt: &R,
        listener: net::TcpListener,
        limits: Limits,
    ) -> io::Result<Self>
        ensures none { IfOk result (λ s. (accepted_of s ≡ 0) × (ended_of s ≡ 0) × (slots_of s ≡ [])) }
        ensures rests { IfOk result Rests }
        ensures limits { IfOk result (λ s. limits_of s ≡ limits) }
        ensures room { IfOk result (λ s. slot_count s ≡ non_zero_usize_get limits.at_once) }
        // One wait may report each connection, and the listener.
        ensures events { non_zero_usize_get limits.at_once < 65536
            → IfOk result (λ s. capacity s.events ≡ non_zero_usize_get limits.at_once + 1) }
    {
        let most = limits.at_once.get().saturating_add(1).min(EVENTS);
        listener.set_nonblocking(true)?;
        let mut listener = TcpListener::from_std(listener);
        let poll = Poll::new(rt)?;
        poll.registry()
            .register(&mut listener, LISTENER, Interest::READABLE)?;
        let alloc = rt.alloc();
        let Ok(open_connections) = OpenConnections::new(alloc, limits.at_once) else {
            return Err(io::Error::from(ErrorKind::OutOfMemory));
        };
        Ok(Serving {
            poll,
            events: Events::with_capacity(alloc, most)?,
            listener,
            limits,
            open_connections,
            ready: VecDeque::new(alloc),
            drains: VecDeque::new(alloc),
            buffer: vec![in alloc; 0u8; MESSAGE_LIMIT]?,
            accept_pending: true,
            out_of_descriptors: false,
            is_barred: false,
            accepted: 0,
            frees_at: None,
            publications: 0,
        })
    }

    /// Returns how many connections have ended. One ends once all its answers are written, or where it fails or is closed for another one.
    pub fn ended(&self) -> u32
        ensures { result ≡ ended_of self.now }
    {
        self.open_connections.ended()
    }

    /// Returns whether all connections were accepted, and each is closed.
    pub fn is_over(&self) -> bool
        ensures { IsTrue result ↔ ((limits_of self.now).connections ≤ accepted_of self.now) × (slots_of self.now ≡ []) }
    {
        self.accepted >= self.limits.connections && self.open_connections.is_empty()
    }

    /// Accepts the connections in the listen backlog that get a slot at moment `now`, and returns how many. In all, no more are accepted
    /// than the limits allow. Fails where no connection can be accepted any more.
    #[tactic(auto, using(crate::proofs::SlotLemmas::accepting))]
    pub fn accept(&mut self, now: u64) -> Result<u32, AcceptError>
        ensures counted { IfOk result (λ count. accepted_of self.new ≡ accepted_of self.old + count) }
        ensures few { accepted_of self.old ≤ (limits_of self.old).connections
            → accepted_of self.new ≤ (limits_of self.old).connections }
        ensures limits { limits_of self.new ≡ limits_of self.old }
        ensures room { slot_count self.new ≡ slot_count self.old }
        ensures ended { ended_of self.old ≤ ended_of self.new }
        ensures last { IfErr result IsLasting }
        // It ends only where no other connection is accepted, and there is a reason.
        ensures heard { OnOk result (AcceptsNoMore now self.new) }

        // Nothing changes where the backlog is empty, nor once all connections were accepted.
        ensures quiet { self.old.accept_pending ≡ false → self.new ≡ self.old }
        ensures full { (limits_of self.old).connections ≤ accepted_of self.old → self.new ≡ self.old }
        // Nothing changes where there is no slot for another connection.
        ensures waits { HasNoSlot now self.old → self.new ≡ self.old }

        // No connection loses its slot, but one that may lose it.
        ensures busy { KeepsBusy now self.old self.new }
        // Where a slot is free, none loses its slot, unless the system had no room before.
        ensures spared { self.old.out_of_descriptors ≡ false → length (slots_of self.old) < slot_count self.old
            → KeepsAll self.old self.new }
        // Each connection that has a slot is as it was, or starts at this moment.
        ensures newcomers { StayOrStart now self.old self.new }
        ensures numbers { next_of self.new ≤ next_of self.old + (accepted_of self.new - accepted_of self.old) }
        // Who is queued for a turn stays queued, who drains goes on, and of replaced files the same is known.
        ensures due { KeepsTurns self.old self.new }
    {
        let before = self.accepted;
        loop {
            if !self.accept_next(now)? {
                break;
            }
        }
        Ok(self.accepted.saturating_sub(before))
    }

    /// Gives each connection that is ready its turn at moment `now`, and closes those whose drain ends. Each answer is logged in `log`.
    /// Closes those, too, that keep a replaced file's bytes without progress for the patience. Before a connection loses its slot, and
    /// while another one may wait, sockets are tried.
    #[tactic(auto, using(crate::proofs::SlotLemmas::taking_turns))]
    pub fn turns<A: AnswerLog>(&mut self, service: &Service<'_>, now: u64, log: &mut A)
        ensures nobody { NobodyComes self.old self.new }
        // Each connection that has a slot had it, and went on from there by events of its own. Each answer is by this service.
        ensures went { AllWentOn (service_of service.now) now (slots_of self.old) (slots_of self.new) }
        // The first drain that is left hasn't ended yet.
        ensures over { IfSome (slice_get self.new.drains.items 0) (λ drain. now < drain.ends) }
        // Where a connection may wait in the listen backlog, one socket is tried of those that are to be tried after these turns: the one
        // that was tried the longest ago.
        ensures tried { self.old.accept_pending ≡ true → accepted_of self.old < (limits_of self.old).connections
            → TriesAfterTurns (service_of service.now) now self.old self.new }
        // So it is where a connection may keep bytes of a replaced file.
        ensures tried_old { MayKeepOld service.now.server.now.count self.old
            → TriesAfterTurns (service_of service.now) now self.old self.new }
        // No connection is left that keeps bytes of a replaced file, has made no progress for the patience, and whose socket was tried at
        // this moment and took none.
        ensures freed { MayKeepOld service.now.server.now.count self.old
            → IsFirstOverdue (service_of service.now).catalogue now (limits_of self.old).patience (slots_of self.new) None }
        // Each connection is as it was, unless it was queued, its drain has ended, its socket was tried, or it is overdue.
        ensures closes { ClosesOnly (service_of service.now) now self.old self.new }
        // Of connections in the listen backlog the same is known as before.
        ensures backlog { KeepsBacklog self.old self.new }
        // It is noted when a connection that keeps bytes of a replaced file will have made no progress for the patience, if one does.
        ensures next { MayKeepOld service.now.server.now.count self.old
            → FreesAt (service_of service.now).catalogue (limits_of self.old).patience (slots_of self.new) (frees_of self.new) }
        ensures none_keeps { frees_of self.old ≡ None → publications_of self.old ≡ service.now.server.now.count
            → frees_of self.new ≡ None }
        ensures publications { publications_of self.new ≡ service.now.server.now.count }
    {
        let may_keep_old = self.may_keep_old(service.server);
        let is_due = self.is_due(may_keep_old);
        for _ in 0..self.ready.len() {
            if let Some(number) = self.ready.pop_front() {
                self.turn(number, service, now, log);
            }
        }
        if is_due {
            self.try_socket(now);
        }
        self.end_drains(now);
        if may_keep_old {
            self.free_old_files(service.server, now);
        }
    }

    /// Returns whether a connection is to be accepted, and one may wait in the listen backlog.
    fn is_awaited(&self) -> bool
        ensures awaited { IsTrue result ↔ (self.now.accept_pending ≡ true) × (accepted_of self.now < (limits_of self.now).connections) }
        ensures counts { IsTrue result → accepted_of self.now + 1 < 2 ^ 32 }
    {
        self.accept_pending && self.accepted < self.limits.connections
    }

    /// Accepts the next connection, if one waits and gets a slot. Returns whether to try another one.
    #[tactic(auto, using(crate::proofs::SlotLemmas::accepting_one))]
    fn accept_next(&mut self, now: u64) -> Result<bool, AcceptError>
        ensures more { accepted_of self.old ≤ accepted_of self.new }
        ensures few { accepted_of self.old ≤ (limits_of self.old).connections
            → accepted_of self.new ≤ (limits_of self.old).connections }
        ensures limits { limits_of self.new ≡ limits_of self.old }
        ensures room { slot_count self.new ≡ slot_count self.old }
        ensures ended { ended_of self.old ≤ ended_of self.new }
        ensures last { IfErr result IsLasting }
        ensures quiet { self.old.accept_pending ≡ false → self.new ≡ self.old }
        ensures full { (limits_of self.old).connections ≤ accepted_of self.old → self.new ≡ self.old }
        ensures waits { HasNoSlot now self.old → self.new ≡ self.old }
        ensures busy { KeepsBusy now self.old self.new }
        ensures spared { self.old.out_of_descriptors ≡ false → length (slots_of self.old) < slot_count self.old
            → KeepsAll self.old self.new }
        ensures fed { IfOk result (λ again. again ≡ true → self.old.out_of_descriptors ≡ false → self.new.out_of_descriptors ≡ false) }
        ensures slots { length (slots_of self.new) ≤ length (slots_of self.old) + (accepted_of self.new - accepted_of self.old) }
        ensures newcomers { StayOrStart now self.old self.new }
        ensures numbers { next_of self.new ≤ next_of self.old + (accepted_of self.new - accepted_of self.old) }
        ensures due { KeepsTurns self.old self.new }
        ensures asks { IfOk result (λ again. again ≡ true → self.old.out_of_descriptors ≡ false
            → slot_count self.new ≤ length (slots_of self.new) → self.new.accept_pending ≡ false) }
        // Where no other one is to be tried, there is a reason. Else one was accepted, or a slot was freed for one.
        ensures heard { IfOk result (λ again. again ≡ false → AcceptsNoMore now self.new) }
        ensures tries { IfOk result (λ again. again ≡ true → length (slots_of self.new)
            < length (slots_of self.old) + 2 * (accepted_of self.new - accepted_of self.old)) }
    {
        if !self.is_awaited() || !self.has_slot(now) {
            return Ok(false);
        }
        match self.listener.accept() {
            Ok(newcomer) => {
                self.welcome(newcomer, now)?;
                Ok(true)
            }
            Err(error) => self.may_try_again(error, now),
        }
    }

    /// Returns whether there is a slot for another connection. Where none is free, an open connection may be closed for it.
    fn has_slot(&mut self, now: u64) -> bool
        ensures free { length (slots_of self.old) < slot_count self.old → (result ≡ true) × (self.new ≡ self.old) }
        ensures made { result ≡ true → length (slots_of self.new) < slot_count self.new }
        ensures one { slot_count self.old ≤ length (slots_of self.old) → result ≡ true
            → GivesSlot now (limits_of self.old).patience (slots_of self.old) (slots_of self.new) }
        ensures no { result ≡ false → (self.new ≡ self.old) × HasNoSlot now self.old }
        ensures waits { HasNoSlot now self.old → result ≡ false }
        ensures starved { self.new.out_of_descriptors ≡ self.old.out_of_descriptors }
        ensures same { NoneChanges self.old self.new }
        ensures fewer { length (slots_of self.new) ≤ length (slots_of self.old) }
        ensures nobody { NobodyComes self.old self.new }
        ensures busy { KeepsBusy now self.old self.new }
        ensures next { next_of self.new ≡ next_of self.old }
        ensures due { KeepsTurns self.old self.new }
    {
        self.open_connections.has_slot() || self.free_slot(now)
    }

    /// Closes the connection that yields its slot at moment `now`, and returns whether there was one.
    fn free_slot(&mut self, now: u64) -> bool
        requires { (slot_count self.old ≤ length (slots_of self.old)) ⊎ (self.old.out_of_descriptors ≡ true) }
        ensures one { slot_count self.old ≡ 1 → result ≡ false }
        ensures no { result ≡ false → (self.new ≡ self.old) × NobodyYields now self.old }
        ensures waits { NobodyYields now self.old → result ≡ false }
        ensures taken { result ≡ true → length (slots_of self.new) + 1 ≡ length (slots_of self.old) }
        ensures starved { self.new.out_of_descriptors ≡ self.old.out_of_descriptors }
        ensures same { NoneChanges self.old self.new }
        ensures fewer { length (slots_of self.new) ≤ length (slots_of self.old) }
        ensures yes { result ≡ true → GivesSlot now self.old.limits.patience (slots_of self.old)
            (slots_of self.new) }
        ensures nobody { NobodyComes self.old self.new }
        ensures busy { KeepsBusy now self.old self.new }
        ensures next { next_of self.new ≡ next_of self.old }
        ensures due { KeepsTurns self.old self.new }
    {
        match self.open_connections.yields(now, self.limits.patience) {
            Some(number) => {
                self.open_connections.close(number);
                true
            }
            None => false,
        }
    }

    /// Asks the system whether a connection waits in the listen backlog. Until the next wait reports one, none is closed for it.
    fn ask(&mut self) -> Result<(), AcceptError>
        ensures err { IfErr result IsOfAsking }
        ensures asked { self.new.accept_pending ≡ false }
        ensures kept { self.new.open_connections ≡ self.old.open_connections }
        ensures starved { self.new.out_of_descriptors ≡ self.old.out_of_descriptors }
        ensures barred { self.new.is_barred ≡ self.old.is_barred }
        ensures nobody { NobodyComes self.old self.new }
        ensures due { KeepsTurns self.old self.new }
    {
        self.accept_pending = false;
        let registry = self.poll.registry();
        registry
            .reregister(&mut self.listener, LISTENER, Interest::READABLE)
            .map_err(AcceptError::Ask)
    }

    /// Adds the connection of `newcomer`, which was accepted at moment `now`: its socket, and the address of its client.
    fn welcome(&mut self, newcomer: (TcpStream, SocketAddr), now: u64) -> Result<(), AcceptError>
        requires { length (slots_of self.old) < slot_count self.old }
        ensures others { OthersStay (next_of self.old) (slots_of self.old)
            (slots_of self.new) }
        ensures accepted { accepted_of self.old + 1 < 2 ^ 32 → accepted_of self.new ≡ accepted_of self.old + 1 }
        ensures limits { limits_of self.new ≡ limits_of self.old }
        ensures room { slot_count self.new ≡ slot_count self.old }
        ensures ended { ended_of self.old ≤ ended_of self.new }
        ensures asks { slot_count self.new ≤ length (slots_of self.new) → self.new.accept_pending ≡ false }
        ensures busy { KeepsBusy now self.old self.new }
        ensures next { next_of self.new ≤ next_of self.old + 1 }
        ensures err { IfErr result IsOfAsking }
        ensures fed { (self.new.out_of_descriptors ≡ false) × (self.new.is_barred ≡ false) }
        ensures kept { KeepsAll self.old self.new }
        ensures more { length (slots_of self.new) ≤ length (slots_of self.old) + 1 }
        ensures newcomer { AllStart now self.old self.new }
        ensures welcomed { HasStartedAt (next_of self.old) now (slots_of self.new)
            ⊎ (ended_of self.old + 1 < 2 ^ 32 → ended_of self.new ≡ ended_of self.old + 1) }
        ensures due { KeepsTurns self.old self.new }
    {
        self.accepted = self.accepted.saturating_add(1);
        self.is_barred = false;
        self.open_connections.add(&self.poll, newcomer, now);
        if self.out_of_descriptors || !self.open_connections.has_slot() {
            self.out_of_descriptors = false;
            self.ask()?;
        }
        Ok(())
    }

    /// Handles the `error` of an accept at moment `now`, and returns whether to try again at once. That is so where the system had no room,
    /// and an open connection was closed to make some. Otherwise lack of room, or a bar, is noted, or that none waits. One that the system
    /// bars is tried again after the turns of the others.
    fn may_try_again(&mut self, error: io::Error, now: u64) -> Result<bool, AcceptError>
        ensures again { IfOk result (λ again. again ≡ true → HasNoRoom error
            × GivesSlot now self.old.limits.patience (slots_of self.old) (slots_of self.new)) }
        ensures kept { IfOk result (λ again. again ≡ false
            → self.new.open_connections.connections ≡ self.old.open_connections.connections) }
        // No connection is closed when the system has no room for the first time.
        ensures first { IfOk result (λ again. again ≡ true → self.old.out_of_descriptors ≡ true) }
        ensures same { NoneChanges self.old self.new }
        ensures fewer { length (slots_of self.new) ≤ length (slots_of self.old) }
        ensures taken { IfOk result (λ again. again ≡ true → length (slots_of self.new) + 1 ≡ length (slots_of self.old)) }
        ensures passing { OnOk result (IsPassing error) }
        // Where none waits, none is noted as waiting, as lacking room, or as barred.
        ensures none_waits { error_kind error ≡ WouldBlock → (result ≡ Ok false)
            × (self.new.accept_pending ≡ false) × (self.new.out_of_descriptors ≡ false) × (self.new.is_barred ≡ false) }
        ensures starved { HasNoRoom error → error_kind error ≢ WouldBlock → OnOk result (self.new.out_of_descriptors ≡ true) }
        ensures barred { IsBarred error → OnOk result (self.new.is_barred ≡ true) }
        // One that isn't tried again at once is reported by the next wait, or tried again within a second.
        ensures heard { IfOk result (λ again. again ≡ false → (self.new.accept_pending ≡ false)
            ⊎ ((self.new.out_of_descriptors ≡ true) ⊎ (self.new.is_barred ≡ true))) }
        ensures err { OnErr result (self.new.open_connections.connections ≡ self.old.open_connections.connections) }
        // An error that passes isn't reported. Where the system can't be asked after it, that is reported, and none is noted as waiting.
        ensures last { IfErr result (λ reported. (IsOfAsking reported × (self.new.accept_pending ≡ false))
            ⊎ ((reported ≡ Accept error) × ¬ IsPassing error)) }
        ensures nobody { NobodyComes self.old self.new }
        ensures busy { KeepsBusy now self.old self.new }
        ensures next { next_of self.new ≡ next_of self.old }
        ensures due { KeepsTurns self.old self.new }
    {
        if error.kind() == ErrorKind::WouldBlock {
            self.accept_pending = false;
            self.out_of_descriptors = false;
            self.is_barred = false;
            return Ok(false);
        }
        match error.raw_os_error().map_or(Refusal::Last, refusal_of) {
            Refusal::Lost if error.kind() == ErrorKind::PermissionDenied => {
                self.is_barred = true;
                Ok(false)
            }
            Refusal::Lost => {
                self.ask()?;
                Ok(false)
            }
            Refusal::NoRoom if self.out_of_descriptors => Ok(self.free_slot(now)),
            Refusal::NoRoom => {
                self.out_of_descriptors = true;
                self.ask()?;
                Ok(false)
            }
            Refusal::Last => Err(AcceptError::Accept(error)),
        }
    }

    /// Gives connection `number` its turn at moment `now`, and closes it where memory is short.
    #[tactic(auto, using(crate::proofs::SlotLemmas::nobody_yet, crate::proofs::SlotLemmas::went_still))]
    fn turn<A: AnswerLog>(&mut self, number: u64, service: &Service<'_>, now: u64, log: &mut A)
        ensures others { OthersStay number (slots_of self.old) (slots_of self.new) }
        ensures nobody { NobodyComes self.old self.new }
        ensures went { AllWentOn (service_of service.now) now (slots_of self.old) (slots_of self.new) }
        // Afterwards it can't go on, is queued for another turn, drains, or has no slot.
        ensures served { IsServedAt now number self.new }
        ensures queue { BeginsWith (ready_of self.new) (ready_of self.old) }
        ensures drains_only { DrainsOnly (λ k. k ≡ number) (drains_of self.old) (drains_of self.new) }
        ensures backlog { KeepsBacklog self.old self.new }
        ensures freeing { KeepsFreeing self.old self.new }
    {
        let buffer = &mut self.buffer;
        let turn = self
            .open_connections
            .turn(number, service, buffer, now, log);
        if self.after(number, turn, now).is_err() {
            self.open_connections.close(number);
        }
    }

    /// Does at moment `now` what the outcome `turn` of a connection's turn asks for. Queues the connection again, starts its drain once all
    /// answers are written, or closes it. Where memory is short, the caller closes it.
    fn after(&mut self, number: u64, turn: Turn, now: u64) -> Result<(), Memory>
        // No connection is closed because its socket would block, or because a signal came.
        requires { FailsRightly turn }
        ensures others { OthersStay number (slots_of self.old) (slots_of self.new) }
        ensures nobody { NobodyComes self.old self.new }
        ensures same { NoneChanges self.old self.new }
        ensures waits { turn ≡ Waits → IsOk result × (self.new ≡ self.old) }
        ensures goes_on { turn ≡ GoesOn → OnOk result ((self.new.ready.items ≡ self.old.ready.items ++ number ∷ [])
            × (slots_of self.new ≡ slots_of self.old)) }
        ensures ended { turn ≡ Ended → OnOk result ((self.new.ready.items ≡ self.old.ready.items ++ number ∷ [])
            ⊎ (timed_at number (slots_of self.new) ≡ None)) }
        ensures drains { turn ≡ Ended → OnOk result ((self.new.drains.items ≡ self.old.drains.items ++ drain_of now number ∷ [])
            ⊎ (timed_at number (slots_of self.new) ≡ None)) }
        ensures failed { (kind : ErrorKind) → turn ≡ Failed kind → timed_at number (slots_of self.new) ≡ None }
        ensures queue { BeginsWith (ready_of self.new) (ready_of self.old) }
        ensures drains_only { DrainsOnly (λ k. k ≡ number) (drains_of self.old) (drains_of self.new) }
        ensures backlog { KeepsBacklog self.old self.new }
        ensures freeing { KeepsFreeing self.old self.new }
    {
        match turn {
            Turn::Waits => {}
            Turn::GoesOn => self.make_ready(number)?,
            Turn::Ended => {
                let is_shut = self.open_connections.drain(number);
                self.start_drain(number, is_shut, now)?;
            }
            Turn::Failed(_) => self.open_connections.close(number),
        }
        Ok(())
    }

    /// Queues connection `number` for its next turn. It keeps its slot.
    fn make_ready(&mut self, number: u64) -> Result<(), Memory>
        ensures others { OthersStay number (slots_of self.old) (slots_of self.new) }
        ensures nobody { NobodyComes self.old self.new }
        ensures same { NoneChanges self.old self.new }
        ensures ready { OnOk result (self.new.ready.items ≡ self.old.ready.items ++ number ∷ []) }
        ensures noted { IsReadyAt number self.new.open_connections ⊎ (timed_at number (slots_of self.new) ≡ None) }
        ensures kept { slots_of self.new ≡ slots_of self.old }
        ensures drains { self.new.drains ≡ self.old.drains }
        ensures queue { BeginsWith (ready_of self.new) (ready_of self.old) }
        ensures backlog { KeepsBacklog self.old self.new }
        ensures freeing { KeepsFreeing self.old self.new }
    {
        self.open_connections.note_ready(number);
        self.ready.push_back(number)?;
        Ok(())
    }
}
