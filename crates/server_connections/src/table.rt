//! Many connections, by their numbers.
ghost use Rattle.std.specs.Prelude.{◌≡◌, ◌≢◌, ◌+◌, ◌<◌, ◌≤◌, [], true, false, Some, None, IfOk, IfSome, IsSomeAnd, OnOk, OnErr, is_some, length, nat_eq, option_copied};
ghost use Rattle.std.specs.Map.{remove_entry};
ghost use Rattle.std.specs.NonZero.{non_zero_usize_get};
ghost use Rattle.cog_server.specs.Service.{service_of};
ghost use Rattle.cog_server.specs.Status.{Rests, start, room_of, after_bytes, after_end, is_closing};
ghost use Rattle.server_connections.specs.Table.{AreFalling, Becomes, Changes, GoesOnAt, OthersStay, falling_once, timed_after_write, timed_at};
ghost use Rattle.server_connections.specs.Yielding.{FreesAt, IsFirstOutdated, IsFirstOverdue, IsUntried, MayYield, TriesAt, WakesAt, Yields, is_overdue};

use crate::candidate::Candidate;
use crate::timed::Timed;
use crate::yielding::{half_of, longest};
use cog_server::{Connection, Server, Service};
use http_range::Memory;
use lru::LruCache;
use std::alloc::Global;
use std::num::NonZeroUsize;

/// The connections. No number is given twice, so an event that comes late for a connection that is gone finds none.
#[derive(Drop)]
pub struct Connections {
    alloc: Global,
    pub table: LruCache<u64, Timed>,
    pub next: u64,
    ghost fresh: { AreFalling next table.entries } by { falling_once next table.entries },
}

impl Connections {
    /// Makes an empty table for at most `limit` connections.
    pub fn new(alloc: Global, limit: NonZeroUsize) -> Result<Self, Memory>
        ensures none { IfOk result (λ c. c.table.entries ≡ []) }
        ensures limit { IfOk result (λ c. c.table.cap ≡ non_zero_usize_get limit) }

        // The first number is 0.
        ensures first { IfOk result (λ c. c.next ≡ 0) }
    {
        let table = LruCache::sparse(alloc, limit)?;
        Ok(Connections {
            alloc,
            table,
            next: 0,
        })
    }

    /// Returns how many connections there are.
    pub fn count(&self) -> usize
        ensures count { result ≡ length self.now.table.entries }
        ensures bound { result ≤ self.now.table.cap }
    {
        self.table.len()
    }

    /// Returns whether there are as many connections as there may be.
    pub fn is_full(&self) -> bool
        ensures full { result ≡ true → length self.now.table.entries ≡ self.now.table.cap }
        ensures room { result ≡ false → length self.now.table.entries < self.now.table.cap }
    {
        self.count() == self.table.cap().get()
    }

    /// Returns connection `number`, or `None` where there is none of this number.
    pub fn get(&self, number: u64) -> Option<&Timed>
        ensures { option_copied result ≡ timed_at number self.now.table.entries }
    {
        self.table.peek(&number)
    }

    /// Takes the bytes that came on connection `number`, and returns whether there is such a connection. Bytes alone are no progress.
    pub fn came(&mut self, number: u64, bytes: &[u8]) -> Result<bool, Memory>
        requires { IfSome (timed_at number self.old.table.entries) (λ p. length bytes.now ≤ room_of p.connection) }
        ensures there { IfOk result (λ there. there ≡ is_some (timed_at number self.old.table.entries)) }
        ensures ok { OnOk result (Changes number (λ p. record p { connection = after_bytes bytes.now p.connection })
            self.old.table.entries self.new.table.entries) }
        ensures err { OnErr result (Changes number (λ p. p) self.old.table.entries self.new.table.entries) }
        // An error comes only on a connection that is there and keeps the bytes.
        ensures wants { OnErr result (IsSomeAnd (timed_at number self.old.table.entries) (λ p. is_closing p.connection ≡ false)) }
        ensures cap { self.new.table.cap ≡ self.old.table.cap }
        ensures next { self.new.next ≡ self.old.next }
    {
        let Some(timed) = self.table.peek_mut(&number) else {
            return Ok(false);
        };
        timed.came(bytes)?;
        Ok(true)
    }

    /// Notes that nothing more comes on connection `number`.
    pub fn came_to_end(&mut self, number: u64)
        ensures table { Changes number (λ p. record p { connection = after_end p.connection })
            self.old.table.entries self.new.table.entries }
        ensures cap { self.new.table.cap ≡ self.old.table.cap }
        ensures next { self.new.next ≡ self.old.next }
    {
        let Some(timed) = self.table.peek_mut(&number) else {
            return;
        };
        timed.came_to_end();
    }

    /// Notes that it was tried at moment `now` to write to the socket of connection `number`, and that `n` bytes of those that wait on it
    /// are written.
    pub fn wrote(&mut self, number: u64, n: usize, now: u64)
        requires { IfSome (timed_at number self.old.table.entries) (λ p. n ≤ length p.connection.waiting) }
        ensures table { Changes number (timed_after_write n now) self.old.table.entries self.new.table.entries }
        ensures cap { self.new.table.cap ≡ self.old.table.cap }
        ensures next { self.new.next ≡ self.old.next }
    {
        let Some(timed) = self.table.peek_mut(&number) else {
            return;
        };
        timed.wrote(n, now);
    }

    /// Answers the next message of connection `number` at moment `now`, and returns the status code. Returns `None` where no message is
    /// answered.
    pub fn go_on(
        &mut self,
        number: u64,
        service: &Service<'_>,
        now: u64,
    ) -> Result<Option<u16>, Memory>
        ensures ok { IfOk result (GoesOnAt (service_of service.now) number now (timed_at number self.old.table.entries)
            self.old.table.entries self.new.table.entries) }
        ensures err { OnErr result (Changes number (λ p. p) self.old.table.entries self.new.table.entries) }
        // An error comes only on a connection that is there and has a message to be answered.
        ensures wants { OnErr result (IsSomeAnd (timed_at number self.old.table.entries) (λ p. ¬ Rests p.connection)) }
        ensures cap { self.new.table.cap ≡ self.old.table.cap }
        ensures next { self.new.next ≡ self.old.next }
    {
        let Some(timed) = self.table.peek_mut(&number) else {
            return Ok(None);
        };
        let status = timed.go_on(service, now)?;
        Ok(status)
    }

    /// Removes connection `number`.
    pub fn close(&mut self, number: u64)
        ensures gone { timed_at number self.new.table.entries ≡ None }
        ensures others { OthersStay number self.old.table.entries self.new.table.entries }
        ensures entries { self.new.table.entries ≡ remove_entry (nat_eq number) self.old.table.entries }
        ensures fewer { length self.new.table.entries ≤ length self.old.table.entries }
        ensures cap { self.new.table.cap ≡ self.old.table.cap }
        ensures next { self.new.next ≡ self.old.next }
    {
        self.table.pop(&number);
    }

    /// Adds a connection at moment `now`, and returns its number. Fails also where all 2^64 - 1 numbers are given.
    pub fn accept(&mut self, now: u64) -> Result<u64, Memory>
        requires { length self.old.table.entries < self.old.table.cap }
        ensures number { IfOk result (λ number. number ≡ self.old.next) }
        ensures unused { IfOk result (λ number. timed_at number self.old.table.entries ≡ None) }
        ensures table { IfOk result (λ number. Becomes number (Some (record { connection = start; progress = now; tried = now }))
            self.old.table.entries self.new.table.entries) }
        ensures next { OnOk result (self.new.next ≡ self.old.next + 1) }
        ensures grows { OnOk result (length self.new.table.entries ≡ length self.old.table.entries + 1) }
        ensures kept { OnErr result (self.new.next ≡ self.old.next) }
        ensures cap { self.new.table.cap ≡ self.old.table.cap }
        ensures err { OnErr result (self.new.table.entries ≡ self.old.table.entries) }
    {
        if self.next == u64::MAX {
            return Err(Memory);
        }
        let number = self.next;
        let connection = Connection::new(self.alloc);
        let timed = Timed {
            connection,
            progress: now,
            tried: now,
        };
        self.table.push(number, timed)?;
        self.next = number + 1;
        Ok(number)
    }

    /// Returns the number of the connection that yields its slot at moment `now`, or `None` where each keeps its own. One that drains
    /// yields first, then one that is idle, then one without progress for `patience` milliseconds. A connection drains once its last
    /// answer is written. It is idle where no message has begun and no answer is unfinished. One on which bytes wait yields only where its
    /// socket was tried at moment `now`, and took none. In a table of one, the slot is never taken.
    pub fn yields(&self, now: u64, patience: u64) -> Option<u64>
        ensures one { self.now.table.cap ≡ 1 → result ≡ None }
        ensures many { self.now.table.cap ≢ 1 → Yields now patience self.now.table.entries result }
        ensures found { IfSome result (λ k. IsSomeAnd (timed_at k self.now.table.entries) (MayYield now patience)) }
    {
        if self.table.cap().get() == 1 {
            return None;
        }
        if let Some((number, _moment)) = longest(&self.table, &Candidate::Draining) {
            return Some(number);
        }
        if let Some((number, _moment)) = longest(&self.table, &Candidate::Idle) {
            return Some(number);
        }
        match longest(&self.table, &Candidate::Stuck { now, patience }) {
            Some((number, _moment)) => Some(number),
            None => None,
        }
    }

    /// Returns the number of a connection whose socket is to be tried at moment `now`, or `None` where none is. Bytes wait on it. It was
    /// last tried half of `patience` ago, or has made no progress for `patience` milliseconds. Of several it is the one tried longest ago.
    pub fn untried(&self, now: u64, patience: u64) -> Option<u64>
        ensures { IsUntried now patience self.now.table.entries result }
    {
        let (number, _moment) = longest(&self.table, &Candidate::Untried { now, patience })?;
        Some(number)
    }

    /// Returns the first moment at which half of `patience` will have passed since a socket was tried for which bytes wait.
    pub fn tries_at(&self, patience: u64) -> Option<u64>
        ensures { TriesAt patience self.now.table.entries result }
    {
        let (_number, moment) = longest(&self.table, &Candidate::Waiting)?;
        moment.checked_add(half_of(patience))
    }

    /// Returns the first moment at which a connection will have made no progress for `patience` milliseconds.
    pub fn wakes_at(&self, patience: u64) -> Option<u64>
        ensures { WakesAt patience self.now.table.entries result }
    {
        let (_number, moment) = longest(&self.table, &Candidate::Any)?;
        moment.checked_add(patience)
    }

    /// Returns the number of the connection that loses its slot at moment `now`, whether another one waits or not, or `None`. It keeps
    /// bytes of a file that `server` publishes no more, and has made no progress for `patience` milliseconds. Its socket was tried at
    /// moment `now`, and took none. Of several it is the one without progress for the longest time.
    pub fn overdue(&self, server: &Server, now: u64, patience: u64) -> Option<u64>
        ensures overdue { IsFirstOverdue server.now.catalogue now patience self.now.table.entries result }
        ensures found { IfSome result (λ k. IsSomeAnd (timed_at k self.now.table.entries)
            (λ p. is_overdue server.now.catalogue now patience p ≡ true)) }
    {
        let candidate = Candidate::Overdue {
            server,
            now,
            patience,
        };
        let (number, _moment) = longest(&self.table, &candidate)?;
        Some(number)
    }

    /// Returns the first moment at which a connection that keeps bytes of a replaced file will have made no progress for `patience`
    /// milliseconds. `server` publishes such a file no more.
    pub fn frees_at(&self, server: &Server, patience: u64) -> Option<u64>
        ensures { FreesAt server.now.catalogue patience self.now.table.entries result }
    {
        let (_number, moment) = self.first_outdated(server)?;
        moment.checked_add(patience)
    }

    /// Returns the connection without progress for the longest time, of those that keep bytes of a file that `server` publishes no more.
    /// The result is its number, and the moment of its last progress.
    fn first_outdated(&self, server: &Server) -> Option<(u64, u64)>
        ensures { IsFirstOutdated server.now.catalogue self.now.table.entries result }
    {
        longest(&self.table, &Candidate::Outdated { server })
    }
}
