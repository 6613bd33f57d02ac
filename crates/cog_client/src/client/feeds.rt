//! How the client takes an answer: piece by piece as it arrives, or whole.
ghost use Rattle.std.specs.Prelude.{◌≡◌, ◌≤◌, ◌++◌, ℕ, List, [], IfOk, OnErr, OnOk, Ok, drop, length};
ghost use Rattle.http_range.specs.Announced.{announced, FitsFile};
ghost use Rattle.cog_client.specs.declared.delivered.Delivered.TheVariants.{Ignored as AnIgnored};
ghost use Rattle.cog_client.specs.PartialAnswer.{IsBounded};
ghost use Rattle.cog_client.specs.Client.{ClientState, buffer_of, feed_of};
ghost use Rattle.cog_client.specs.FedClient.{Fed, FedBefore, FedBy};
ghost use Rattle.cog_client.specs.AnswerPhase.{cut_off, nothing_fed, rest_dropped};
ghost use Rattle.cog_client.specs.Keeps.{DeliversKeeping, StopsDelivery};

use crate::case::{Case, case_of_head};
use crate::client::{Client, first_span};
use crate::delivered::{Delivered, Ignored};
use cog_reader::law_lengths_are_known;
use extents::Memory;
use http_range::{Head, Why, law_fronts_are_read, law_heads_grow};
use range_cache::{law_parts_bring_blocks, law_stored_are_held};

#[tactic(auto, unfolding(crate::specs::Client::asked_of, crate::specs::Client::revision_of, crate::specs::Client::blocks_of, crate::specs::Client::report_of, crate::specs::Client::feed_of, crate::specs::Client::buffer_of))]
impl Client {
    /// Begins an answer, and drops an unfinished one. It allocates nothing.
    pub fn begin(&mut self)
        ensures { Fed self.old [] self.new }
    {
        law_heads_grow();
        self.partial_answer.clear();
    }

    /// Takes the next bytes of an answer, and stores the blocks that become whole. Where no answer is unfinished, one
    /// begins here without `begin`. Fails with `Memory` alone, and then the rest of the answer is dropped. What is fed
    /// of it changes nothing, and `end` returns that it was cut. Still its revision may be read, and some of its blocks
    /// may be stored.
    pub fn feed(&mut self, piece: &[u8]) -> Result<(), Memory>
        ensures ok { OnOk result ((s : ClientState) (p : List ℕ) → Fed s p self.old → Fed s (p ++ piece.now) self.new) }
        ensures err { OnErr result ((s : ClientState) (p : List ℕ) → Fed s p self.old → StopsDelivery s (p ++ piece.now) self.new) }
        ensures stops { OnErr result (feed_of self.new ≡ rest_dropped) }
        ensures dropped { feed_of self.old ≡ rest_dropped → OnOk result (self.new ≡ self.old) × OnErr result ⊥ }
        ensures bounded { IsBounded (feed_of self.new) }
        ensures buffer { buffer_of self.new ≤ buffer_of self.old }
    {
        let from = self.feed_head(piece);
        let fed = self.feed_body(&piece[from..]);
        self.partial_answer.is_bounded();
        fed
    }

    /// Ends an answer, goes on as far as the blocks reach, and returns what the answer did. It was ignored and changed
    /// nothing, or some of its blocks were stored, or another revision is read from now on. Fails with `Memory` alone.
    pub fn end(&mut self) -> Result<Delivered, Memory>
        ensures ok { IfOk result (λ what. (s : ClientState) (p : List ℕ) → Fed s p self.old → DeliversKeeping s p what self.new) }
        ensures err { OnErr result ((s : ClientState) (p : List ℕ) → Fed s p self.old → StopsDelivery s p self.new) }
        ensures dropped { feed_of self.old ≡ rest_dropped → result ≡ Ok (AnIgnored cut_off) }
        ensures kept { feed_of self.old ≡ rest_dropped → self.new ≡ record self.old { feed = nothing_fed } }
        ensures ended { feed_of self.new ≡ nothing_fed }
    {
        law_fronts_are_read();
        law_lengths_are_known();
        law_stored_are_held();
        law_parts_bring_blocks();
        let told = self.partial_answer.told();
        self.partial_answer.clear();
        if let Delivered::Ignored(_) = told {
            return Ok(told);
        }
        if self.report.is_none() {
            self.missing()?;
        }
        Ok(told)
    }

    /// Takes a whole answer, or a front of one, goes on as far as the blocks reach, and returns what the answer did. It
    /// was ignored and changed nothing, or some of its blocks were stored, or another revision is read from now on.
    /// Fails with `Memory` alone. Then its revision may be read, and some of its blocks may be stored.
    pub fn deliver(&mut self, answer: &[u8]) -> Result<Delivered, Memory>
        ensures ok { IfOk result (λ what. DeliversKeeping self.old answer.now what self.new) }
        ensures err { OnErr result (StopsDelivery self.old answer.now self.new) }
    {
        self.begin();
        self.feed(answer)?;
        self.end()
    }

    /// Reads on in the head, if it isn't whole. Returns the place in `piece` from which on the bytes belong to the
    /// body.
    fn feed_head(&mut self, piece: &[u8]) -> usize
        ensures within { result ≤ length piece.now }
        ensures before { (s : ClientState) (p : List ℕ) → Fed s p self.old → FedBefore s (p ++ piece.now) (drop result piece.now) self.new }
        ensures dropped { feed_of self.old ≡ rest_dropped → self.new ≡ self.old }
        ensures buffer { buffer_of self.new ≤ buffer_of self.old }
    {
        law_heads_grow();
        match self.partial_answer.look(piece) {
            None => 0,
            Some(found) => {
                let from = found.from;
                self.follow(found.head);
                from
            }
        }
    }

    /// Begins to take the body by the case of its head.
    fn follow(&mut self, head: Head)
        requires fits { FitsFile (announced head) }
        ensures fed { FedBy (announced head) self.old [] self.new }
        ensures buffer { buffer_of self.new ≤ buffer_of self.old }
    {
        let asked = self.asked;
        let case = case_of_head(&self.source, asked, &head);
        match case {
            Case::Ignored(why) => {
                self.partial_answer.pass(why);
                return;
            }
            Case::Adopted => self.adopt(&head, asked),
            Case::Restarted => {
                let first = first_span();
                self.adopt(&head, Some(first));
            }
            Case::Accepted => {}
        }
        let Some(span) = self.asked else {
            unreachable!()
        };
        self.partial_answer.follow(head, case, span);
    }

    /// Takes bytes of the body, if the body is taken.
    fn feed_body(&mut self, bytes: &[u8]) -> Result<(), Memory>
        ensures ok { OnOk result ((s : ClientState) (p : List ℕ) → FedBefore s p bytes.now self.old → Fed s p self.new) }
        ensures err { OnErr result ((s : ClientState) (p : List ℕ) → FedBefore s p bytes.now self.old → StopsDelivery s p self.new) }
        ensures stops { OnErr result (feed_of self.new ≡ rest_dropped) }
        ensures dropped { feed_of self.old ≡ rest_dropped → OnOk result (self.new ≡ self.old) × OnErr result ⊥ }
        ensures buffer { buffer_of self.new ≡ buffer_of self.old }
    {
        law_fronts_are_read();
        law_lengths_are_known();
        law_stored_are_held();
        law_parts_bring_blocks();
        let taken = self.partial_answer.take(&mut self.cache, bytes);
        if taken.is_err() {
            self.partial_answer.pass(Ignored::NotUsed(Why::Cut));
        }
        taken
    }
}
