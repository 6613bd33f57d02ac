//! The heads of answers, which come in pieces: where one ends, and what it makes of its connection.
ghost use Rattle.std.specs.Prelude.{◌≡◌, ◌<◌, ◌≤◌, ◌++◌, [], true, None, Ok, Err, IfOk, OnErr, length, take};
ghost use Rattle.http_fields.specs.declared.limits.TheConstants.{HEAD_LIMIT};
ghost use Rattle.http_range.specs.declared.reading.Why.TheVariants.{Head};
ghost use Rattle.http_range.specs.Frame.{is_interim, ReadsFrame};
ghost use Rattle.client_connection.specs.Status.{Takes, TakesHead, over};
ghost use Rattle.client_connection.specs.declared.parts.Part.TheVariants.{Stray};

use crate::connection::{ClientConnection, INTERIM_LIMIT, REQUEST_TIMEOUT};
use crate::parts::{Part, Taken};
use http_fields::limits::HEAD_LIMIT;
use http_range::{Frame, Why, law_frames_grow, read_frame};
use std::alloc::AllocError;

impl ClientConnection {
    /// Returns what came of the head, with more of it.
    fn head_with(&self, more: &[u8]) -> Result<Vec<u8>, AllocError>
        ensures { IfOk result (λ head. head.items ≡ self.now.head ++ more.now) }
    {
        let mut head = Vec::from_slice(self.alloc, &self.head)?;
        head.extend_from_slice(more)?;
        Ok(head)
    }

    /// Takes bytes of a head that isn't whole, no more than a head may have.
    fn try_head(&mut self, bytes: &[u8]) -> Result<Taken, AllocError>
        requires opens { self.old.is_open ≡ true }
        requires none { self.old.left ≡ None }
        requires some { 0 < length bytes.now }
        ensures some { IfOk result (λ taken. 0 < taken.count) }
        ensures few { IfOk result (λ taken. taken.count ≤ length bytes.now) }
        ensures takes { IfOk result (λ taken. ¬ (taken.part ≡ Stray)
            × Takes taken.part (take taken.count bytes.now) self.old self.new) }
    {
        law_frames_grow();
        let before = self.head.as_slice().len();
        let more = &bytes[..bytes.len().min(HEAD_LIMIT - before)];
        let head = self.head_with(more)?;
        match read_frame(&head) {
            Ok(frame) => Ok(Taken {
                count: frame.size - before,
                part: self.take_frame(head, frame),
            }),
            Err(why) => Ok(Taken {
                count: more.len(),
                part: self.take_front(head, why),
            }),
        }
    }

    /// Takes bytes of a head that isn't whole. Without memory the connection is given up.
    pub(crate) fn take_head(&mut self, bytes: &[u8]) -> Result<Taken, AllocError>
        requires opens { self.old.is_open ≡ true }
        requires none { self.old.left ≡ None }
        requires some { 0 < length bytes.now }
        ensures some { IfOk result (λ taken. 0 < taken.count) }
        ensures few { IfOk result (λ taken. taken.count ≤ length bytes.now) }
        ensures takes { IfOk result (λ taken. ¬ (taken.part ≡ Stray)
            × Takes taken.part (take taken.count bytes.now) self.old self.new) }
        ensures err { OnErr result (self.new ≡ over []) }
    {
        let taken = self.try_head(bytes);
        if taken.is_err() {
            self.end();
        }
        taken
    }

    /// Takes a front of a head, or what can't become one.
    fn take_front(&mut self, head: Vec<u8>, why: Why) -> Part
        requires opens { self.old.is_open ≡ true }
        requires none { self.old.left ≡ None }
        requires reads { ReadsFrame head.items (Err why) }
        requires short { length head.items ≤ HEAD_LIMIT }
        ensures { ¬ (result ≡ Stray) × TakesHead result head.items self.old self.new }
    {
        law_frames_grow();
        if why == Why::Cut {
            self.head = head;
            return Part::Head;
        }
        self.refuse(head)
    }

    /// Takes a whole head, with what may follow it.
    fn take_frame(&mut self, head: Vec<u8>, frame: Frame) -> Part
        requires opens { self.old.is_open ≡ true }
        requires none { self.old.left ≡ None }
        requires reads { ReadsFrame head.items (Ok frame) }
        requires short { length head.items ≤ HEAD_LIMIT }
        ensures { ¬ (result ≡ Stray) × TakesHead result (take frame.size head.items) self.old self.new }
    {
        let mut head = head;
        law_frames_grow();
        head.truncate(frame.size);
        if frame.is_interim() {
            return self.take_interim(head, frame);
        }
        if self.kept && frame.status == REQUEST_TIMEOUT {
            self.end_for_request();
            return Part::Again;
        }
        self.head = head;
        self.left = Some(frame.length.unwrap_or(0));
        self.closes = frame.closes;
        self.interims = 0;
        Part::Begun
    }

    /// Drops an interim answer, unless it is one too many.
    fn take_interim(&mut self, head: Vec<u8>, frame: Frame) -> Part
        requires opens { self.old.is_open ≡ true }
        requires none { self.old.left ≡ None }
        requires reads { ReadsFrame head.items (Ok frame) }
        requires whole { length head.items ≡ frame.size }
        requires is { is_interim frame ≡ true }
        requires short { length head.items ≤ HEAD_LIMIT }
        ensures { ¬ (result ≡ Stray) × TakesHead result head.items self.old self.new }
    {
        law_frames_grow();
        if self.interims < INTERIM_LIMIT {
            self.head.clear();
            self.interims += 1;
            return Part::Interim;
        }
        self.end();
        self.head = head;
        Part::Refused
    }

    /// Takes what is no head. Where the connection was kept, it can't be the answer.
    fn refuse(&mut self, head: Vec<u8>) -> Part
        requires reads { ReadsFrame head.items (Err Head) }
        requires short { length head.items ≤ HEAD_LIMIT }
        ensures { ¬ (result ≡ Stray) × TakesHead result head.items self.old self.new }
    {
        if self.kept {
            self.end_for_request();
            return Part::Again;
        }
        self.end();
        self.head = head;
        Part::Refused
    }
}
