//! A check whether the file is still the one that a client reads, over a connection of its own.
ghost use Rattle.std.specs.Prelude.{◌≡◌, ◌≤◌, [], false, IfOk, OnErr, OnOk, length, take};
ghost use Rattle.client_connection.specs.Status.{after_gone, after_open, after_write, over};
ghost use Rattle.cog_client.specs.Check.{check_of};
ghost use Rattle.client_dialogue.specs.Checking.{AdvancesCheck, ChecksBy, GetsOthersFor, IsCheckOf};
ghost use Rattle.client_dialogue.specs.Useful.{IsStatusOf};

use crate::dialogue::status_of;
use client_connection::ClientConnection;
use cog_client::{Client, Current};
use extents::Memory;
use std::alloc::Global;
use std::marker::Model;

/// What the driver of a check is to do next.
#[derive(Clone, Copy, Debug, PartialEq, Eq)]
pub enum CheckStep {
    /// Make a connection, and call `connected`.
    Connect,
    /// Write what is `waiting`, and call `wrote`.
    Write,
    /// Read bytes, and hand them on.
    Read,
    /// Go on with the bytes that are left.
    More,
    /// The check is over, and says this.
    Checked(Current),
}

/// How many bytes were taken, and what is to be done next.
#[derive(Clone, Copy, Debug)]
pub struct CheckProgress {
    /// The number of bytes, from the first on.
    pub count: usize,
    /// What is to be done next.
    pub step: CheckStep,
}

/// A check on a connection of its own. Its answer has no body (RFC 9110, section 9.3.2), and ends with its head.
#[derive(Drop)]
pub struct Check {
    connection: ClientConnection,
}

impl Model for Check {
    ghost use Rattle.client_connection.specs.Status.{Status};

    ghost Value = { Status };

    ghost view = { λ c. c.connection };
}

impl Check {
    /// Begins the check of a client, or returns `None` where the client has no revision. `Memory` is the only error.
    pub fn new(alloc: Global, client: &Client) -> Result<Option<Check>, Memory>
        ensures { IfOk result (IsCheckOf (check_of client.now)) }
    {
        let Some(text) = client.check()? else {
            return Ok(None);
        };
        let mut connection = ClientConnection::new(alloc);
        connection.ask(&text)?;
        Ok(Some(Check { connection }))
    }

    /// Returns whether a connection is there.
    pub fn is_open(&self) -> bool
        ensures { result ≡ self.now.is_open }
    {
        self.connection.is_open()
    }

    /// Returns the bytes that are to be written.
    pub fn waiting(&self) -> &[u8]
        ensures { result.now ≡ self.now.waits }
    {
        self.connection.waiting()
    }

    /// Returns the status code of the answer, or 0 where no whole head came.
    pub fn status(&self) -> u16
        ensures { IsStatusOf self.now.head result }
    {
        status_of(self.connection.head())
    }

    /// Notes that the first `count` bytes that waited were written.
    pub fn wrote(&mut self, count: usize)
        requires { count ≤ length self.old.waits }
        ensures { self.new ≡ after_write count self.old }
    {
        self.connection.wrote(count);
    }

    /// Notes that a new connection is there. Without memory it is given up.
    pub fn connected(&mut self) -> Result<(), Memory>
        requires { self.old.is_open ≡ false }
        ensures ok { OnOk result (self.new ≡ after_open self.old) }
        ensures err { OnErr result (self.new ≡ over []) }
    {
        Ok(self.connection.opened()?)
    }

    /// Notes that the connection is gone, or couldn't be made.
    pub fn gone(&mut self)
        ensures { self.new ≡ after_gone self.old }
    {
        self.connection.gone();
    }

    /// Takes bytes that came, as many as are of one part, and returns how many, and what is to be done next. Bytes that stand there before
    /// the check has a connection are of another one, and are dropped. Fails without memory: the check is over then.
    pub fn go_on(&mut self, client: &Client, bytes: &[u8]) -> Result<CheckProgress, Memory>
        ensures few { IfOk result (λ progress. progress.count ≤ length bytes.now) }
        ensures drops { IfOk result (λ progress. GetsOthersFor progress.step → progress.count ≡ length bytes.now) }
        ensures does { IfOk result (λ progress. ChecksBy client.now progress.step (take progress.count bytes.now) self.old self.new) }
        ensures advances { IfOk result (λ progress. AdvancesCheck self.old progress.count progress.step) }
        ensures err { OnErr result (self.new ≡ over []) }
    {
        let is_over = !self.connection.is_asked() || self.connection.left().is_some();
        if !is_over && !self.connection.is_open() {
            return Ok(CheckProgress {
                count: bytes.len(),
                step: CheckStep::Connect,
            });
        }
        let step = if is_over {
            CheckStep::Checked(client.current(self.connection.head()))
        } else if !self.connection.waiting().is_empty() {
            CheckStep::Write
        } else if bytes.is_empty() {
            CheckStep::Read
        } else {
            let taken = self.connection.came(bytes)?;
            return Ok(CheckProgress {
                count: taken.count,
                step: CheckStep::More,
            });
        };
        Ok(CheckProgress { count: 0, step })
    }
}
