//! Answers are taken.
ghost use Rattle.std.specs.Prelude.{◌≡◌, ◌≢◌, ◌-◌, ◌<◌, ◌≤◌, ◌⊎◌, [], false, true, None, Some, IfOk, IfSome, IsSome, OnErr, OnOk, length, max, min, take};
ghost use Rattle.cog_client.specs.Client.{asked_of, tag_of};
ghost use Rattle.client_connection.specs.Status.{is_again};
ghost use Rattle.client_dialogue.specs.Useful.{IsStatusOf, IsUseful};
ghost use Rattle.client_dialogue.specs.declared.step.Step.TheVariants.{More};
ghost use Rattle.client_dialogue.specs.Goes.{Fails, GetsOthers, Goes, HasStatusOf, IsUsed, IsWanted, KeepsPlan, KeepsUsed, KeepsWaits, Says, TellsStatus, rounds_of};
ghost use Rattle.client_dialogue.specs.Inside.{Concludes, Feeds, FindsUseful, Halts, HasGoneOn, IsConcluded, IsFedBy, IsHaltedBy, given_up};

use crate::dialogue::Dialogue;
use crate::step::{Exchanged, Progress, Step};
use crate::useful::useful_length;
use client_connection::{Part, law_answers_are_in_order};
use cog_client::{Client, Delivered};
use extents::Memory;
use http_range::read_frame;

/// Returns whether an answer was used: it brought blocks, or the client reads another revision from now on.
fn is_used(delivered: Delivered) -> bool
    ensures yes { result ≡ true → IsUsed delivered }
    ensures no { result ≡ false → ¬ IsUsed delivered }
{
    match delivered {
        Delivered::Took(blocks) => blocks > 0,
        Delivered::Restarted => true,
        Delivered::Ignored(_) => false,
    }
}

/// Returns the status code of a head, or 0 where it isn't whole.
pub(crate) fn status_of(head: &[u8]) -> u16
    ensures { IsStatusOf head.now result }
{
    match read_frame(head) {
        Ok(frame) => frame.status,
        Err(_) => 0,
    }
}

impl Dialogue {
    /// Takes what came before the request was written.
    pub(super) fn look(&mut self, client: &mut Client, bytes: &[u8]) -> Result<Progress, Memory>
        requires busy { self.old.asked ≡ true }
        requires opens { self.old.status.is_open ≡ true }
        requires looks { self.old.looks ≡ true }
        ensures few { IfOk result (λ progress. progress.count ≤ length bytes.now) }
        ensures drops { IfOk result (λ progress. GetsOthers progress.step → progress.count ≡ length bytes.now) }
        ensures goes { IfOk result (λ progress.
            Goes (rounds_of progress.step) (take progress.count bytes.now) self.old client.old self.new client.new) }
        ensures says { IfOk result (λ progress. Says progress.step self.new client.new) }
        ensures waits { OnOk result (KeepsWaits self.old.status self.new.status) }
        ensures status { 0 < length self.old.status.out
            → IfOk result (λ progress. TellsStatus self.old.status.head (take progress.count bytes.now) progress.step) }
        ensures some { IfOk result (λ progress. (progress.step ≡ Step.Look) ⊎ (0 < progress.count)) }
        ensures plan { OnOk result (KeepsPlan self.old self.new) }
        ensures err { OnErr result (Goes Fails [] self.old client.old self.new client.new) }
    {
        if bytes.is_empty() {
            return Ok(Progress {
                count: 0,
                step: Step::Look,
            });
        }
        let step = self.lose(client)?;
        Ok(Progress {
            count: bytes.len(),
            step,
        })
    }

    /// Takes bytes of the answer.
    pub(super) fn take(&mut self, client: &mut Client, bytes: &[u8]) -> Result<Progress, Memory>
        requires busy { self.old.asked ≡ true }
        requires opens { self.old.status.is_open ≡ true }
        requires more { ¬ (self.old.status.left ≡ Some 0) }
        requires some { 0 < length bytes.now }
        ensures few { IfOk result (λ progress. progress.count ≤ length bytes.now) }
        ensures other { IfOk result (λ progress. ¬ GetsOthers progress.step) }
        ensures goes { IfOk result (λ progress.
            Goes (rounds_of progress.step) (take progress.count bytes.now) self.old client.old self.new client.new) }
        ensures says { IfOk result (λ progress. Says progress.step self.new client.new) }
        ensures waits { OnOk result (KeepsWaits self.old.status self.new.status) }
        ensures status { 0 < length self.old.status.out
            → IfOk result (λ progress. TellsStatus self.old.status.head (take progress.count bytes.now) progress.step) }
        ensures count { IfOk result (λ progress. 0 < progress.count) }
        ensures plan { OnOk result (KeepsPlan self.old self.new) }
        ensures begins { self.old.status.left ≡ None → IfOk result (λ progress. progress.step ≡ More → IsSome self.new.status.left
            → IsUseful self.new.status.head (asked_of client.old) (tag_of client.old) self.new.useful) }
        ensures body { 0 < length self.old.status.out → IfSome self.old.status.left (λ left. IfOk result (λ progress. (progress.step ≡ More)
            × (progress.count ≡ min left (min (max self.old.useful 1) (length bytes.now)))
            × (self.new.useful ≡ self.old.useful - progress.count))) }
        ensures err { OnErr result (Goes Fails [] self.old client.old self.new client.new) }
    {
        law_answers_are_in_order();
        let most = self.most(bytes);
        let Ok(taken) = self.connection.came(&bytes[..most]) else {
            self.asked = false;
            return Err(Memory);
        };
        let step = self.feed_part(client, taken.part, &bytes[..taken.count])?;
        Ok(Progress {
            count: taken.count,
            step,
        })
    }

    /// Feeds what the bytes are that the connection took.
    fn feed_part(&mut self, client: &mut Client, part: Part, bytes: &[u8]) -> Result<Step, Memory>
        ensures other { IfOk result (λ step. ¬ GetsOthers step) }
        ensures status { IfOk result (HasStatusOf self.old.status.head) }
        ensures ok { IfOk result (λ step. IsFedBy part bytes.now step self.old client.old self.new client.new) }
        ensures err { OnErr result (IsHaltedBy part bytes.now self.old client.old self.new client.new) }
    {
        match part {
            Part::Head | Part::Interim | Part::Again => Ok(Step::More),
            Part::Begun => self.begin_body(client),
            Part::Body => self.feed_body(client, bytes),
            Part::Refused | Part::Stray => self.conclude_head(client),
        }
    }

    /// Returns how many of these bytes may be read of the answer that is under way.
    fn most(&self, bytes: &[u8]) -> usize
        ensures some { 0 < length bytes.now → 0 < result }
        ensures few { result ≤ length bytes.now }
        ensures body { IsSome self.now.status.left → result ≡ min (max self.now.useful 1) (length bytes.now) }
    {
        match self.connection.left() {
            None => bytes.len(),
            Some(_) => self.useful.max(1).min(bytes.len() as u64) as usize,
        }
    }

    /// Returns whether all that is read of the answer came.
    pub(super) fn is_read(&self) -> bool
        ensures yes { result ≡ true → IsSome self.now.status.left }
        ensures read { result ≡ true → IfSome self.now.status.left (λ left. (left ≡ 0) ⊎ (self.now.useful ≡ 0)) }
        ensures no { result ≡ false → ¬ (self.now.status.left ≡ Some 0) }
        ensures wanted { result ≡ false → IsWanted self.now }
    {
        match self.connection.left() {
            None => false,
            Some(left) => left == 0 || self.useful == 0,
        }
    }

    /// Feeds the head of an answer, which is whole.
    fn begin_body(&mut self, client: &mut Client) -> Result<Step, Memory>
        ensures ok { IfOk result (λ step. (step ≡ More) × FindsUseful self.old client.old self.new
            × Feeds self.old.status.head client.old client.new) }
        ensures err { OnErr result ((self.new ≡ given_up self.old) × Halts self.old.status.head client.old client.new) }
    {
        let useful = useful_length(self.connection.head(), client.asked(), client.tag());
        self.feed_head(client)?;
        self.useful = useful;
        Ok(Step::More)
    }

    /// Feeds what came of the head.
    fn feed_head(&mut self, client: &mut Client) -> Result<(), Memory>
        ensures ok { OnOk result ((self.new ≡ self.old) × Feeds self.old.status.head client.old client.new) }
        ensures err { OnErr result ((self.new ≡ given_up self.old) × Halts self.old.status.head client.old client.new) }
    {
        if client.feed(self.connection.head()).is_err() {
            self.give_up();
            return Err(Memory);
        }
        Ok(())
    }

    /// Feeds bytes of the body.
    fn feed_body(&mut self, client: &mut Client, bytes: &[u8]) -> Result<Step, Memory>
        ensures ok { IfOk result (λ step. (step ≡ More) × (self.new ≡ record self.old { useful = self.old.useful - length bytes.now })
            × Feeds bytes.now client.old client.new) }
        ensures err { OnErr result ((self.new ≡ given_up self.old) × Halts bytes.now client.old client.new) }
    {
        if client.feed(bytes).is_err() {
            self.give_up();
            return Err(Memory);
        }
        self.useful = self.useful.saturating_sub(bytes.len() as u64);
        Ok(Step::More)
    }

    /// Ends the exchange and its connection.
    pub(super) fn give_up(&mut self)
        ensures { self.new ≡ given_up self.old }
    {
        self.asked = false;
        self.connection.end();
    }

    /// Ends the exchange, whose connection is over, with what came of the head.
    fn conclude_head(&mut self, client: &mut Client) -> Result<Step, Memory>
        ensures other { IfOk result (λ step. ¬ GetsOthers step) }
        ensures ends { IfOk result (λ step. step ≢ More) }
        ensures status { IfOk result (HasStatusOf self.old.status.head) }
        ensures ok { IfOk result (λ step. IsConcluded step self.old client.old self.new client.new) }
        ensures err { OnErr result ((self.new ≡ given_up self.old) × Halts self.old.status.head client.old client.new) }
    {
        let status = status_of(self.connection.head());
        self.feed_head(client)?;
        let exchanged = self.conclude(client, status)?;
        Ok(Step::Exchanged(exchanged))
    }

    /// Ends the client's answer, which has the status code `status`.
    fn conclude(&mut self, client: &mut Client, status: u16) -> Result<Exchanged, Memory>
        ensures status { IfOk result (λ exchanged. exchanged.status ≡ status) }
        ensures ok { IfOk result (λ exchanged.
            (self.new ≡ record self.old { asked = false }) × Concludes [] exchanged.delivered client.old client.new) }
        ensures err { OnErr result ((self.new ≡ given_up self.old) × Halts [] client.old client.new) }
    {
        let Ok(delivered) = client.end() else {
            self.give_up();
            return Err(Memory);
        };
        self.asked = false;
        Ok(Exchanged {
            delivered,
            status,
            alone: !self.is_shared,
        })
    }

    /// Ends an exchange of which as much was read as is to be. The connection goes on after a whole answer that was used.
    pub(super) fn finish(&mut self, client: &mut Client) -> Result<Step, Memory>
        requires busy { self.old.asked ≡ true }
        requires opens { self.old.status.is_open ≡ true }
        requires begun { IsSome self.old.status.left }
        ensures other { IfOk result (λ step. ¬ GetsOthers step) }
        ensures ends { IfOk result (λ step. step ≢ More) }
        ensures goes { IfOk result (λ step. Goes (rounds_of step) [] self.old client.old self.new client.new) }
        ensures says { IfOk result (λ step. Says step self.new client.new) }
        ensures keeps { IfOk result (λ step. KeepsUsed self.old.status step self.new.status) }
        ensures waits { OnOk result (KeepsWaits self.old.status self.new.status) }
        ensures plan { OnOk result (KeepsPlan self.old self.new) }
        ensures status { IfOk result (HasStatusOf self.old.status.head) }
        ensures err { OnErr result (Goes Fails [] self.old client.old self.new client.new) }
    {
        law_answers_are_in_order();
        let status = status_of(self.connection.head());
        let exchanged = self.conclude(client, status)?;
        self.let_go_on(exchanged.delivered);
        Ok(Step::Exchanged(exchanged))
    }

    /// Lets the connection go on after an answer that is whole and was used. Else ends it.
    fn let_go_on(&mut self, delivered: Delivered)
        ensures { HasGoneOn delivered self.old self.new }
    {
        if self.connection.left() == Some(0) && is_used(delivered) {
            self.connection.finish();
            if self.is_early {
                self.losses = 0;
            }
        } else {
            self.connection.end();
        }
    }

    /// Ends the connection, which is gone. The request is sent once more, or the exchange is over.
    pub(super) fn lose(&mut self, client: &mut Client) -> Result<Step, Memory>
        requires { self.old.asked ≡ true }
        ensures goes { IfOk result (λ step. Goes (rounds_of step) [] self.old client.old self.new client.new) }
        ensures says { IfOk result (λ step. Says step self.new client.new) }
        ensures status { IfOk result (HasStatusOf self.old.status.head) }
        ensures err { OnErr result (Goes Fails [] self.old client.old self.new client.new) }
        ensures over { self.new.status.is_open ≡ false }
        ensures again { IfOk result (λ step. step ≡ More → is_again self.old.status ≡ true) }
        ensures kept { is_again self.old.status ≡ true → result ≡ Ok More }
        ensures plan { OnOk result (KeepsPlan self.old self.new) }
    {
        law_answers_are_in_order();
        let begun = self.connection.left().is_some();
        let status = status_of(self.connection.head());
        if self.connection.gone() {
            return Ok(Step::More);
        }
        if !begun {
            return self.conclude_head(client);
        }
        let exchanged = self.conclude(client, status)?;
        Ok(Step::Exchanged(exchanged))
    }

    /// Ends the connection and the exchange.
    pub(super) fn let_go(&mut self, client: &mut Client) -> Result<Step, Memory>
        requires { self.old.asked ≡ true }
        ensures goes { IfOk result (λ step. Goes (rounds_of step) [] self.old client.old self.new client.new) }
        ensures says { IfOk result (λ step. Says step self.new client.new) }
        ensures status { IfOk result (HasStatusOf self.old.status.head) }
        ensures err { OnErr result (Goes Fails [] self.old client.old self.new client.new) }
        ensures over { self.new.status.is_open ≡ false }
        ensures ends { IfOk result (λ step. step ≢ More) }
    {
        law_answers_are_in_order();
        let status = status_of(self.connection.head());
        self.connection.end();
        let exchanged = self.conclude(client, status)?;
        Ok(Step::Exchanged(exchanged))
    }
}
