//! The exchanges of a client, one after another.
ghost use Rattle.std.specs.Prelude.{◌≡◌, ◌≢◌, ◌<◌, ◌≤◌, ◌⊎◌, [], false, true, IfOk, OnErr, OnOk, length, take};
ghost use Rattle.client_connection.specs.Status.{after_open, after_write, is_again, over};
ghost use Rattle.client_dialogue.specs.Goes.{Advances, BeginsAnew, BeginsOn, Fails, GetsOthers, Goes, HasStatusOf, IsOut, KeepsPlan, KeepsUsed, KeepsWaits, MakesNone, ReadsUseful, Says, TellsStatus, rounds_of};
ghost use Rattle.client_dialogue.specs.declared.step.Step.TheVariants.{More};

mod answering;
mod asking;

use crate::step::{Loss, Progress, Step};
pub(crate) use answering::status_of;
use client_connection::ClientConnection;
use cog_client::Client;
use extents::Memory;
use std::alloc::Global;
use std::marker::Model;

/// The most requests that are sent early.
const MOST_EARLY: u32 = 8;

/// After how many losses in a row, of connections on which requests were sent early, none is sent early any more.
const MOST_LOSSES: u8 = 3;

/// The exchanges of one client, over one connection after another.
#[derive(Drop)]
pub struct Dialogue {
    connection: ClientConnection,
    /// Whether an exchange is under way.
    asked: bool,
    /// How many more exchanges may be begun.
    exchanges: u32,
    /// Whether it is still to be seen that the connection is silent before the request is written.
    looks: bool,
    /// Whether the request was sent early.
    is_early: bool,
    /// Whether other requests were sent with it.
    is_shared: bool,
    /// How many bytes of the body are still read.
    useful: u64,
    /// How many requests may be sent early.
    depth: u32,
    /// How many connections were lost in a row on which requests were sent early.
    losses: u8,
}

impl Model for Dialogue {
    ghost use Rattle.client_dialogue.specs.History.{Talk};

    ghost Value = { Talk };

    ghost view = { λ d. record {
      status = d.connection;
      asked = d.asked;
      exchanges = d.exchanges;
      looks = d.looks;
      early = d.is_early;
      useful = d.useful;
    } };
}

impl Dialogue {
    /// Makes one without a connection, for a client whose connections may be kept. Up to `depth` requests are sent early, and at most 8.
    pub fn new(alloc: Global, depth: u32) -> Self
        ensures { result ≡ record { status = over []; asked = false; exchanges = 0; looks = false; early = false; useful = 0 } }
    {
        Dialogue {
            connection: ClientConnection::new(alloc),
            asked: false,
            exchanges: 0,
            looks: false,
            is_early: false,
            is_shared: false,
            useful: 0,
            depth: depth.min(MOST_EARLY),
            losses: 0,
        }
    }

    /// Begins a query, for which at most `exchanges` exchanges are made. An exchange that is under way is dropped with its connection.
    pub fn begin(&mut self, exchanges: u32)
        ensures begins { BeginsAnew exchanges self.old self.new }
        ensures allows { self.new.exchanges ≡ exchanges }
        ensures idle { self.new.asked ≡ false }
        ensures kept { self.old.asked ≡ false → self.new.status ≡ self.old.status }
    {
        self.exchanges = exchanges;
        if self.asked {
            self.give_up();
        }
    }

    /// Ends the connection, where no exchange is under way.
    pub fn end(&mut self)
        requires { self.old.asked ≡ false }
        ensures begins { BeginsAnew self.old.exchanges self.old self.new }
        ensures over { self.new ≡ record self.old { status = over [] } }
    {
        self.connection.end();
    }

    /// Returns whether an exchange is under way.
    pub fn is_asked(&self) -> bool
        ensures { result ≡ self.now.asked }
    {
        self.asked
    }

    /// Returns whether a connection is there.
    pub fn is_open(&self) -> bool
        ensures { result ≡ self.now.status.is_open }
    {
        self.connection.is_open()
    }

    /// Returns the bytes that are to be written.
    pub fn waiting(&self) -> &[u8]
        ensures { result.now ≡ self.now.status.waits }
    {
        self.connection.waiting()
    }

    /// Notes that the first `count` bytes that waited were written.
    pub fn wrote(&mut self, client: &Client, count: usize)
        requires busy { self.old.asked ≡ true }
        requires opens { self.old.status.is_open ≡ true }
        requires within { count ≤ length self.old.status.waits }
        ensures goes { Goes MakesNone [] self.old client.now self.new client.now }
        ensures wrote { self.new ≡ record self.old { status = after_write count self.old.status } }
    {
        self.connection.wrote(count);
    }

    /// Notes that the connection is silent: the request may be written.
    pub fn silent(&mut self)
        ensures { self.new ≡ record self.old { looks = false } }
    {
        self.looks = false;
    }

    /// Notes that a new connection is there. Nothing changes where one was. Without memory it is given up, and the exchange is over.
    pub fn connected(&mut self, client: &Client) -> Result<(), Memory>
        requires { self.old.asked ≡ true }
        ensures ok { OnOk result (Goes MakesNone [] self.old client.now self.new client.now) }
        ensures opens { OnOk result (self.new.status.is_open ≡ true) }
        ensures opened { OnOk result (self.old.status.is_open ≡ false
            → self.new ≡ record self.old { status = after_open self.old.status; looks = true; early = false }) }
        ensures same { self.old.status.is_open ≡ true → OnOk result (self.new ≡ self.old) }
        ensures err { OnErr result (Goes Fails [] self.old client.now self.new client.now) }
    {
        if self.connection.is_open() {
            return Ok(());
        }
        self.looks = true;
        self.is_early = false;
        self.is_shared = false;
        if self.connection.opened().is_err() {
            self.asked = false;
            return Err(Memory);
        }
        Ok(())
    }

    /// Takes bytes that came, as many as are of one part, and returns how many, and what is to be done next. Bytes that nothing asked for
    /// end the connection, and are dropped with it. Bytes that stand there before there is a connection are of another one, and are
    /// dropped.
    ///
    /// Fails without memory. The history goes on then by at most one round in which memory ran out. What of its answer was taken stays.
    pub fn go_on(&mut self, client: &mut Client, bytes: &[u8]) -> Result<Progress, Memory>
        ensures few { IfOk result (λ progress. progress.count ≤ length bytes.now) }
        ensures drops { IfOk result (λ progress. GetsOthers progress.step → progress.count ≡ length bytes.now) }
        ensures goes { IfOk result (λ progress.
            Goes (rounds_of progress.step) (take progress.count bytes.now) self.old client.old self.new client.new) }
        ensures says { IfOk result (λ progress. Says progress.step self.new client.new) }
        ensures keeps { IfOk result (λ progress. KeepsUsed self.old.status progress.step self.new.status) }
        ensures waits { OnOk result (KeepsWaits self.old.status self.new.status) }
        ensures advances { IfOk result (λ progress. Advances self.old progress.count progress.step) }
        ensures begins { OnOk result (BeginsOn self.old self.new) }
        ensures plan { OnOk result (KeepsPlan self.old self.new) }
        ensures useful { IsOut self.old
            → IfOk result (λ progress. ReadsUseful self.old client.old bytes.now progress.count progress.step self.new) }
        ensures status { 0 < length self.old.status.out
            → IfOk result (λ progress. TellsStatus self.old.status.head (take progress.count bytes.now) progress.step) }
        ensures err { OnErr result (Goes Fails [] self.old client.old self.new client.new) }
    {
        if !self.asked {
            let step = self.ask(client)?;
            return Ok(Progress { count: 0, step });
        }
        if !self.connection.is_open() {
            return Ok(Progress {
                count: bytes.len(),
                step: Step::Connect,
            });
        }
        if self.is_read() {
            let step = self.finish(client)?;
            return Ok(Progress { count: 0, step });
        }
        if self.looks {
            return self.look(client, bytes);
        }
        if !self.connection.waiting().is_empty() {
            return Ok(Progress {
                count: 0,
                step: Step::Write,
            });
        }
        if bytes.is_empty() {
            return Ok(Progress {
                count: 0,
                step: Step::Read,
            });
        }
        self.take(client, bytes)
    }

    /// Notes that the connection is gone, and how. A request is sent once more where its connection was kept and nothing came of the
    /// answer, but not where it is late and was the first one that was out. Else the exchange is over.
    ///
    /// Fails without memory, as `go_on` does.
    pub fn gone(&mut self, client: &mut Client, how: Loss) -> Result<Step, Memory>
        requires { self.old.asked ≡ true }
        ensures goes { IfOk result (λ step. Goes (rounds_of step) [] self.old client.old self.new client.new) }
        ensures says { IfOk result (λ step. Says step self.new client.new) }
        ensures over { self.new.status.is_open ≡ false }
        ensures status { IfOk result (HasStatusOf self.old.status.head) }
        ensures again { IfOk result (λ step. step ≡ More → is_again self.old.status ≡ true) }
        ensures kept { (¬ (how ≡ Loss.Late)) ⊎ (self.old.early ≡ true) → is_again self.old.status ≡ true → result ≡ Ok More }
        ensures late { how ≡ Loss.Late → self.old.early ≡ false → IfOk result (λ step. step ≢ More) }
        ensures err { OnErr result (Goes Fails [] self.old client.old self.new client.new) }
    {
        self.count_loss(how);
        if how == Loss::Late && !self.is_early {
            return self.let_go(client);
        }
        self.lose(client)
    }

    /// Counts a connection that was lost while requests were out that were sent early.
    fn count_loss(&mut self, how: Loss)
        ensures { self.new ≡ self.old }
    {
        if !self.is_shared {
            return;
        }
        self.losses = self.losses.saturating_add(1);
        if how == Loss::Late || self.losses >= MOST_LOSSES {
            self.depth = 0;
        }
    }
}
