//! What is kept of an answer between two of its pieces: at most a head, or one block.
ghost use Rattle.std.specs.Prelude.{◌≡◌, IfOk, OnErr, OnOk, length};
ghost use Rattle.http_range.specs.Announced.{announced, FitsFile};
ghost use Rattle.cog_client.specs.PartialAnswer.{IsBounded, IsTold, LooksOn, StartsBody, StopsInBytes, TakesBytes};
ghost use Rattle.cog_client.specs.Client.{IsFew};
ghost use Rattle.cog_client.specs.AnswerPhase.{nothing_fed};
ghost use Rattle.cog_client.specs.AnswerPhase.Feed.{passed};

use crate::answer_phase::AnswerPhase;
use crate::body::{Body, PART_ROOM};
use crate::case::{Case, told_at_end};
use crate::delivered::{Delivered, Ignored};
use crate::head::{HEAD_ROOM, Look, read_on};
use extents::Memory;
use http_range::{Head, HeadReading, Span, law_heads_grow, read_head};
use range_cache::Cache;
use std::alloc::{AllocError, Global};
use std::marker::Model;

/// Makes a buffer of `len` bytes.
fn room(alloc: Global, len: usize) -> Result<Vec<u8>, AllocError>
    ensures { IfOk result (λ room. length room.items ≡ len) }
{
    vec![in alloc; 0u8; len]
}

/// The head of an answer, and the place in the bytes that came at which the body begins.
#[derive(Drop)]
pub struct Found {
    pub head: Head,
    pub from: usize,
}

/// What is kept of an answer, with the buffers for its head and for a block that is cut.
#[derive(Drop)]
pub struct PartialAnswer {
    phase: AnswerPhase,
    head: Vec<u8>,
    part: Vec<u8>,
}

impl Model for PartialAnswer {
    ghost use Rattle.cog_client.specs.PartialAnswer.{feed_in, IsPartialAnswer};
    ghost use Rattle.cog_client.specs.AnswerPhase.{Feed};

    ghost Value = { Feed };

    ghost view = { λ a. feed_in a.phase a.head.items a.part.items };

    ghost invariant = { λ a. IsPartialAnswer a.phase a.head.items a.part.items };
}

impl PartialAnswer {
    /// Makes the buffers. Nothing of an answer is kept. Fails where an allocation fails.
    pub fn new(alloc: Global) -> Result<PartialAnswer, AllocError>
        ensures { IfOk result (λ a. a ≡ nothing_fed) }
    {
        law_heads_grow();
        Ok(PartialAnswer {
            phase: AnswerPhase::Waits(0),
            head: room(alloc, HEAD_ROOM)?,
            part: room(alloc, PART_ROOM)?,
        })
    }

    /// Drops what is kept.
    pub fn clear(&mut self)
        ensures { self.new ≡ nothing_fed }
    {
        law_heads_grow();
        self.phase = AnswerPhase::Waits(0);
    }

    /// Reads on in the head, if it isn't whole. Returns the head once it is whole, and then drops what was kept.
    pub fn look(&mut self, bytes: &[u8]) -> Option<Found>
        ensures { LooksOn self.old bytes.now self.new result }
    {
        law_heads_grow();
        let AnswerPhase::Waits(len) = self.phase else {
            return None;
        };
        match read_on(&mut self.head, len, bytes) {
            Look::Waits(len) => {
                self.phase = AnswerPhase::Waits(len);
                None
            }
            Look::Unused(why) => {
                self.phase = AnswerPhase::Unused(why);
                None
            }
            Look::Found(head, from) => {
                self.phase = AnswerPhase::Waits(0);
                Some(Found { head, from })
            }
        }
    }

    /// Passes over the body, for the reason `why`.
    pub fn pass(&mut self, why: Ignored)
        ensures { self.new ≡ passed why }
    {
        self.phase = AnswerPhase::Passed(why);
    }

    /// Begins to take the body that `head` announces, by this `case`. `span` is asked for.
    pub fn follow(&mut self, head: Head, case: Case, span: Span)
        requires fits { FitsFile (announced head) }
        requires few { IsFew span }
        ensures { StartsBody (announced head) case span self.new }
    {
        let body = Body::new(&head, span);
        self.phase = AnswerPhase::Follows(head, case, body);
    }

    /// Takes the next bytes of the body, if it is taken, and stores the blocks that become whole. Fails with `Memory`
    /// alone.
    pub fn take(&mut self, cache: &mut Cache, bytes: &[u8]) -> Result<(), Memory>
        ensures ok { OnOk result (TakesBytes self.old cache.old bytes.now self.new cache.new) }
        ensures err { OnErr result (StopsInBytes self.old cache.old bytes.now cache.new) }
        ensures capacity { cache.new.capacity ≡ cache.old.capacity }
    {
        match &mut self.phase {
            AnswerPhase::Follows(_, _, body) => body.take(&mut self.part, cache, bytes),
            AnswerPhase::Waits(_) | AnswerPhase::Unused(_) | AnswerPhase::Passed(_) => Ok(()),
        }
    }

    /// Returns what the answer did, if it ends here.
    pub fn told(&self) -> Delivered
        ensures { IsTold self.now result }
    {
        match &self.phase {
            AnswerPhase::Waits(len) => match read_head(&self.head[..*len]) {
                HeadReading::NotUsed(why) => Delivered::Ignored(Ignored::NotUsed(why)),
                HeadReading::Head(_) => unreachable!(),
            },
            AnswerPhase::Unused(why) => Delivered::Ignored(Ignored::NotUsed(*why)),
            AnswerPhase::Passed(why) => Delivered::Ignored(*why),
            AnswerPhase::Follows(head, case, body) => {
                let came = body.next.saturating_sub(head.first);
                told_at_end(*case, head, came, body.count, body.span)
            }
        }
    }

    /// Does nothing: its contract says that no more than a head and a block is kept.
    pub fn is_bounded(&self)
        ensures { IsBounded self.now }
    {
        let _feeding = &self.phase;
    }
}
