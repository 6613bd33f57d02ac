//! Requests are sent.
ghost use Rattle.std.specs.Prelude.{◌≡◌, ◌-◌, ◌<◌, ◌⊎◌, [], false, true, Some, IfOk, OnErr, OnOk};
ghost use Rattle.client_connection.specs.Status.{over};
ghost use Rattle.cog_client.specs.Client.{ClientState};
ghost use Rattle.cog_client.specs.Keeps.{RequestsKeeping};
ghost use Rattle.client_dialogue.specs.declared.step.Step.TheVariants.{More};
ghost use Rattle.client_dialogue.specs.Inside.{after_put};
ghost use Rattle.client_dialogue.specs.Goes.{BeginsOn, Fails, GetsOthers, Goes, IsEarlyFor, KeepsPlan, KeepsWaits, Says, Stays, rounds_of};

use crate::dialogue::Dialogue;
use crate::step::Step;
use client_connection::Turn;
use cog_client::{Client, law_answers_begin_anywhere};
use extents::Memory;

impl Dialogue {
    /// Asks the client for its next request.
    pub(super) fn ask(&mut self, client: &mut Client) -> Result<Step, Memory>
        requires { self.old.asked ≡ false }
        ensures other { IfOk result (λ step. ¬ GetsOthers step) }
        ensures which { IfOk result (λ step. (step ≡ More) ⊎ (step ≡ Step.Over)) }
        ensures goes { IfOk result (λ step. Goes (rounds_of step) [] self.old client.old self.new client.new) }
        ensures says { IfOk result (λ step. Says step self.new client.new) }
        ensures waits { OnOk result (KeepsWaits self.old.status self.new.status) }
        ensures begins { OnOk result (BeginsOn self.old self.new) }
        ensures err { OnErr result (Goes Fails [] self.old client.old self.new client.new) }
    {
        if self.exchanges == 0 {
            return Ok(Step::Over);
        }
        match client.request()? {
            None => Ok(Step::Over),
            Some(text) => self.send(client, &text),
        }
    }

    /// Sends the request `text`, for which the client was asked.
    fn send(&mut self, client: &Client, text: &[u8]) -> Result<Step, Memory>
        requires idle { self.old.asked ≡ false }
        requires some { 0 < self.old.exchanges }
        ensures ok { OnOk result ((before : ClientState) → RequestsKeeping before (Some text.now) client.now
            → Goes Stays [] self.old before self.new client.now) }
        ensures says { IfOk result (λ step. (step ≡ More) × (self.new.asked ≡ true)) }
        ensures waits { OnOk result (KeepsWaits self.old.status self.new.status) }
        ensures begins { OnOk result (BeginsOn self.old self.new) }
        ensures err { OnErr result ((before : ClientState) → RequestsKeeping before (Some text.now) client.now
            → Goes Fails [] self.old before self.new client.now) }
    {
        law_answers_begin_anywhere();
        self.put(text)?;
        self.send_early(client)?;
        Ok(Step::More)
    }

    /// Puts the request `text` on the connection that is kept, or on a new one.
    fn put(&mut self, text: &[u8]) -> Result<(), Memory>
        requires idle { self.old.asked ≡ false }
        requires some { 0 < self.old.exchanges }
        ensures ok { OnOk result (self.new ≡ after_put text.now self.old) }
        ensures err { OnErr result (self.new
            ≡ record self.old { status = over []; asked = false; exchanges = self.old.exchanges - 1 }) }
    {
        self.exchanges -= 1;
        let turn = self.connection.ask(text)?;
        self.asked = true;
        self.looks = turn == Turn::Sends;
        self.is_early = turn == Turn::Sent;
        self.is_shared = self.is_early;
        Ok(())
    }

    /// Sends those of the client's next requests early that weren't sent so far.
    fn send_early(&mut self, client: &Client) -> Result<(), Memory>
        requires { self.old.asked ≡ true }
        ensures ok { OnOk result (Goes Stays [] self.old client.now self.new client.now) }
        ensures asked { OnOk result (self.new.asked ≡ true) }
        ensures waits { OnOk result (KeepsWaits self.old.status self.new.status) }
        ensures plan { OnOk result (KeepsPlan self.old self.new) }
        ensures err { OnErr result (Goes Fails [] self.old client.now self.new client.now) }
    {
        let Ok(requests) = client.early_requests(self.depth.min(self.exchanges)) else {
            return Ok(());
        };
        for request in self.connection.unsent(&requests) {
            self.add_early(client, request)?;
        }
        Ok(())
    }

    /// Sends the request `text` early, where a connection is there.
    fn add_early(&mut self, client: &Client, text: &[u8]) -> Result<(), Memory>
        requires busy { self.old.asked ≡ true }
        requires own { IsEarlyFor client.now text.now }
        ensures ok { OnOk result (Goes Stays [] self.old client.now self.new client.now) }
        ensures asked { OnOk result (self.new.asked ≡ true) }
        ensures waits { OnOk result (KeepsWaits self.old.status self.new.status) }
        ensures plan { OnOk result (KeepsPlan self.old self.new) }
        ensures err { OnErr result (Goes Fails [] self.old client.now self.new client.now) }
    {
        if !self.connection.is_open() {
            return Ok(());
        }
        self.is_shared = true;
        if self.connection.send_early(text).is_err() {
            self.asked = false;
            return Err(Memory);
        }
        Ok(())
    }
}
