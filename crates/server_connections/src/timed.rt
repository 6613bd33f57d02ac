//! A connection, and when it made progress.
ghost use Rattle.std.specs.Prelude.{◌≡◌, ◌≤◌, ◌==◌, false, if◌then◌else◌, IfOk, OnOk, OnErr, is_some, length};
ghost use Rattle.cog_server.specs.Service.{service_of};
ghost use Rattle.cog_server.specs.Status.{GoesOnBy, Rests, after_bytes, after_end, after_write, is_closing, room_of};

use cog_server::{Connection, Service};
use http_range::Memory;

/// A connection, and the moments at which it made progress and at which its socket was tried.
#[derive(Drop)]
pub struct Timed {
    pub connection: Connection,
    /// The moment of its last progress: it was accepted, a message was answered, or a byte of an answer taken.
    pub progress: u64,
    /// The moment at which it was last tried to write to its socket, or at which it was accepted.
    pub tried: u64,
}

impl Timed {
    /// Takes the bytes that came.
    pub fn came(&mut self, bytes: &[u8]) -> Result<(), Memory>
        requires { length bytes.now ≤ room_of self.old.connection }
        ensures ok { OnOk result (self.new ≡ record self.old { connection = after_bytes bytes.now self.old.connection }) }
        ensures err { OnErr result (self.new ≡ self.old) }
        ensures wants { OnErr result (is_closing self.old.connection ≡ false) }
    {
        self.connection.came(bytes)
    }

    /// Notes that nothing more comes.
    pub fn came_to_end(&mut self)
        ensures { self.new ≡ record self.old { connection = after_end self.old.connection } }
    {
        self.connection.came_to_end();
    }

    /// Answers the next message, which is progress at moment `now`, and returns the status code. Returns `None` where no message is
    /// answered.
    pub fn go_on(&mut self, service: &Service<'_>, now: u64) -> Result<Option<u16>, Memory>
        ensures ok { IfOk result (GoesOnBy (service_of service.now) self.old.connection self.new.connection) }
        ensures progress { IfOk result (λ status. self.new.progress ≡ (if is_some status then now else self.old.progress)) }
        ensures tried { self.new.tried ≡ self.old.tried }
        ensures err { OnErr result (self.new ≡ self.old) }
        ensures wants { OnErr result (¬ Rests self.old.connection) }
    {
        let status = self.connection.go_on_by(service)?;
        if status.is_some() {
            self.progress = now;
        }
        Ok(status)
    }

    /// Notes that it was tried at moment `now` to write to the socket, and that `n` bytes are written. That is progress unless `n` is 0.
    pub fn wrote(&mut self, n: usize, now: u64)
        requires { n ≤ length self.old.connection.waiting }
        ensures connection { self.new.connection ≡ after_write n self.old.connection }
        ensures progress { self.new.progress ≡ (if n == 0 then self.old.progress else now) }
        ensures tried { self.new.tried ≡ now }
    {
        self.connection.wrote(n);
        self.tried = now;
        if n > 0 {
            self.progress = now;
        }
    }
}
