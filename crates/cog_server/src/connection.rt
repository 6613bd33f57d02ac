//! The server's end of one connection, without a socket: bytes in, answers out.
ghost use Rattle.std.specs.Prelude.{◌≡◌, ◌≤◌, ◌<◌, ◌==◌, ◌||◌, ◌++◌, true, IfOk, IsOk, OnOk, OnErr, length};
ghost use Rattle.http_fields.specs.declared.limits.TheConstants.{ANSWERS_LIMIT, MESSAGE_LIMIT};

use crate::catalogue::has_tag;
use crate::limits::DROP_LIMIT;
use crate::outgoing::Outgoing;
use crate::pending_input::PendingInput;
use crate::served::Ended;
use crate::server::Server;
use crate::service::Service;
use http_range::{ANSWERS_LIMIT, MESSAGE_LIMIT, Memory};
use std::alloc::Global;
use std::marker::Model;

/// Returns whether no answer follows.
fn closes(closed: bool, answers: usize) -> bool
    ensures { result ≡ (closed || answers == ANSWERS_LIMIT) }
{
    closed || answers == ANSWERS_LIMIT
}

/// The server's end of one connection. It sends one answer at a time, and keeps what came after the message until it
/// can be answered. After the message with the last answer, what comes is dropped.
pub struct Connection {
    held: PendingInput,
    outgoing: Outgoing,
    closed: bool,
    answers: usize,
    over: bool,
    dropped: usize,
}

// Written out, the drop is one call in each place where a connection is dropped. Derived, each place would be proved
// field by field.
impl Drop for Connection {
    fn drop(self) {
        let Connection {
            held: _,
            outgoing: _,
            closed: _,
            answers: _,
            over: _,
            dropped: _,
        } = self;
    }
}

impl Model for Connection {
    ghost use Rattle.std.specs.Prelude.{◌≡◌, ◌≤◌, []};
    ghost use Rattle.http_fields.specs.declared.limits.TheConstants.{ANSWERS_LIMIT};
    ghost use Rattle.cog_server.specs.declared.limits.TheConstants.{DROP_LIMIT};
    ghost use Rattle.cog_server.specs.Status.{Status};
    ghost use Rattle.cog_server.specs.Outgoing.{HoldsNone, waiting_of};

    ghost Value = { Status };

    ghost view = { λ c. record {
      held = c.held.bytes.items;
      waiting = waiting_of c.outgoing;
      is_closed = c.closed;
      answers = c.answers;
      is_over = c.over;
      dropped = c.dropped;
      tag = c.outgoing.tag;
    } };

    // Where no answer waits, no bytes of a file are held.
    ghost invariant = { λ c. (c.answers ≤ ANSWERS_LIMIT) × (c.dropped ≤ DROP_LIMIT)
        × (waiting_of c.outgoing ≡ [] → HoldsNone c.outgoing) };
}

impl Connection {
    ghost use Rattle.cog_server.specs.Service.{service_of};
    ghost use Rattle.cog_server.specs.Status.{start, room_of, GoesOn, GoesOnBy, Rests, EndsBy, is_closing, after_bytes, after_end, after_write, is_drained, is_draining, is_idle, is_outdated};

    /// Makes a connection on which nothing came.
    ///
    /// ```
    /// let mut connection = Connection::new(rt.alloc());
    /// connection.came(b"GET /a.tif HTTP/1.1\r\nHost: localhost\r\n\r\n")?;
    /// connection.go_on(&server)?;
    /// let (head, body) = connection.waiting();
    /// ```
    pub fn new(alloc: Global) -> Self
        ensures { result ≡ start }
    {
        Connection {
            held: PendingInput::new(alloc),
            outgoing: Outgoing::new(alloc),
            closed: false,
            answers: 0,
            over: false,
            dropped: 0,
        }
    }

    /// Returns how many bytes may come next, at most 8,192. Where it is 0, nothing is to be read.
    pub fn room(&self) -> usize
        ensures is { result ≡ room_of self.now }
        ensures small { result ≤ MESSAGE_LIMIT }
    {
        if self.over {
            0
        } else if closes(self.closed, self.answers) {
            MESSAGE_LIMIT.min(DROP_LIMIT - self.dropped)
        } else {
            MESSAGE_LIMIT - self.held.bytes.len()
        }
    }

    /// Takes bytes that came, at most `room` of them. Fails with `Memory` alone, and then changes nothing. It never
    /// fails after the last message.
    pub fn came(&mut self, bytes: &[u8]) -> Result<(), Memory>
        requires { length bytes.now ≤ room_of self.old }
        ensures ok { OnOk result (self.new ≡ after_bytes bytes.now self.old) }
        ensures err { OnErr result (self.new ≡ self.old) }
        ensures behind { is_closing self.old ≡ true → IsOk result }
    {
        if closes(self.closed, self.answers) {
            self.dropped += bytes.len();
        } else {
            self.held.add(bytes)?;
        }
        Ok(())
    }

    /// Notes that nothing more comes.
    pub fn came_to_end(&mut self)
        ensures { self.new ≡ after_end self.old }
    {
        self.over = true;
    }

    /// Answers the next message by the files of `server` at this moment, and returns the status code. Returns `None`
    /// where no message is whole, an answer isn't written yet, or no answer follows. Fails with `Memory` alone, and
    /// only where a message is to be answered. Then nothing changes.
    pub fn go_on(&mut self, server: &Server) -> Result<Option<u16>, Memory>
        ensures ok { IfOk result (GoesOn server.now.catalogue self.old self.new) }
        ensures err { OnErr result (self.new ≡ self.old) }
        ensures rests { Rests self.old → IsOk result }
    {
        self.go_on_by(&Service::plain(server))
    }

    /// Answers the next message as `go_on` does, by the files and additions of a service.
    pub fn go_on_by(&mut self, service: &Service<'_>) -> Result<Option<u16>, Memory>
        ensures ok { IfOk result (GoesOnBy (service_of service.now) self.old self.new) }
        ensures err { OnErr result (self.new ≡ self.old) }
        ensures rests { Rests self.old → IsOk result }
    {
        if closes(self.closed, self.answers) || self.outgoing.is_waiting() {
            return Ok(None);
        }
        let Some(n) = self.held.whole() else {
            return Ok(None);
        };
        let status = self
            .outgoing
            .answer(service, self.answers, &self.held.bytes[..n])?;
        self.answers += 1;
        self.closed = self.outgoing.close;
        self.held.skip(n);
        if closes(self.closed, self.answers) {
            self.dropped = self.held.bytes.len();
            self.held.skip(self.dropped);
        }
        Ok(Some(status))
    }

    /// Returns whether bytes of a file are kept for an answer that isn't written yet, and `server` publishes that file
    /// no more.
    pub fn is_outdated(&self, server: &Server) -> bool
        ensures { result ≡ is_outdated server.now.catalogue self.now }
    {
        match &self.outgoing.tag {
            Some(tag) => !has_tag(server.files(), tag),
            None => false,
        }
    }

    /// Returns the bytes that wait to be written, of a head and of a body. They stay, whatever is published meanwhile.
    pub fn waiting(&self) -> (&[u8], &[u8])
        ensures { result.0.now ++ result.1.now ≡ self.now.waiting }
    {
        self.outgoing.parts()
    }

    /// Notes that the first `n` bytes that waited are written.
    pub fn wrote(&mut self, n: usize)
        requires { n ≤ length self.old.waiting }
        ensures { self.new ≡ after_write n self.old }
    {
        self.outgoing.wrote(n);
    }

    /// Returns how many answers were given.
    pub fn answers(&self) -> usize
        ensures { result ≡ self.now.answers }
    {
        self.answers
    }

    /// Returns how the answers ended, once all of them are written. Returns `None` before.
    pub fn ended(&self) -> Option<Ended>
        ensures { EndsBy self.now result }
    {
        if self.outgoing.is_waiting() {
            return None;
        }
        if self.closed {
            return Some(Ended::Closed);
        }
        if self.answers == ANSWERS_LIMIT {
            return Some(Ended::Limit);
        }
        if self.over && self.held.is_unfinished() {
            return Some(Ended::EndOfInput);
        }
        None
    }

    /// Returns whether no message has begun and no answer is unfinished. Then nothing is lost where the connection is
    /// closed.
    pub fn is_idle(&self) -> bool
        ensures { result ≡ is_idle self.now }
    {
        self.held.bytes.is_empty() && !self.outgoing.is_waiting()
    }

    /// Returns whether the last answer is written. Then only the end of the client's bytes is awaited.
    pub fn is_draining(&self) -> bool
        ensures { result ≡ is_draining self.now }
    {
        closes(self.closed, self.answers) && !self.outgoing.is_waiting()
    }

    /// Returns whether nothing more may come: the input is at its end, or 65,536 bytes after the last message were
    /// dropped.
    pub fn is_drained(&self) -> bool
        ensures { result ≡ is_drained self.now }
    {
        self.over || (closes(self.closed, self.answers) && self.dropped >= DROP_LIMIT)
    }
}
