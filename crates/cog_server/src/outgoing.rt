//! An answer that is being written.
ghost use Rattle.std.specs.Prelude.{◌≡◌, ◌≤◌, ◌<◌, ◌++◌, ◌==◌, [], not, if◌then◌else◌, None, IfOk, OnOk, OnErr, codes, length, drop, option_copied, slice_range};
ghost use Rattle.http_fields.specs.declared.limits.TheConstants.{ANSWERS_LIMIT};
ghost use Rattle.http_fields.specs.Text.{closing, head_with};
ghost use Rattle.http_range.specs.Reply.{fields_of, status_line, status_of};
ghost use Rattle.cog_server.specs.Additions.{origin_fields, preflight_fields};
ghost use Rattle.cog_server.specs.Outgoing.{HoldsNone, IsEmpty, IsOutgoing, body_of, waiting_of};
ghost use Rattle.cog_server.specs.Service.{service_of};
ghost use Rattle.cog_server.specs.Status.{tag_of};

use crate::additions::{Additions, answers_preflight, closes_by, push_head, push_preflight};
use crate::limits::HEAD_ROOM;
use crate::placed::Prepared;
use crate::prepared::{prepare, status};
use crate::service::Service;
use http_range::{Memory, Tag};
use std::alloc::Global;
use std::rc::RcSlice;

/// The head of an answer, the part of the file that is its body, and how many bytes of both are written. The file's
/// bytes stay until they are written. One buffer serves the heads of all answers.
#[derive(Drop)]
pub struct Outgoing {
    pub head: Vec<u8>,
    pub file: Option<RcSlice<u8>>,
    pub first: usize,
    pub end: usize,
    pub sent: usize,
    pub close: bool,
    /// The ETag of the file.
    pub tag: Option<Tag>,
}

impl Outgoing {
    /// Returns one in which nothing waits.
    pub fn new(alloc: Global) -> Self
        ensures waiting { waiting_of result ≡ [] }
        ensures none { HoldsNone result }
    {
        Outgoing {
            head: Vec::new(alloc),
            file: None,
            first: 0,
            end: 0,
            sent: 0,
            close: false,
            tag: None,
        }
    }

    /// Drops the answer, but keeps the buffer of the head.
    fn clear(&mut self)
        ensures empty { IsEmpty self.new }
        ensures waiting { waiting_of self.new ≡ [] }
    {
        self.head.clear();
        self.file = None;
        self.first = 0;
        self.end = 0;
        self.sent = 0;
        self.tag = None;
    }

    /// Puts the head of the answer to a preflight where nothing waits, and returns its status code. Fails with `Memory`
    /// alone. Then the head may have a part of it.
    fn put_preflight(&mut self, additions: Additions<'_>, close: bool) -> Result<u16, Memory>
        requires { IsEmpty self.old }
        ensures status { IfOk result (λ status. status ≡ 204) }
        ensures text { OnOk result (waiting_of self.new ≡ head_with (codes "HTTP/1.1 204 No Content")
            (preflight_fields ++ (origin_fields (option_copied additions.entry.origin) ++ closing close))) }
        ensures close { OnOk result (self.new.close ≡ close) }
        ensures tag { self.new.tag ≡ None }
        ensures file { self.new.file ≡ None }
    {
        push_preflight(&mut self.head, additions, close)?;
        self.close = close;
        Ok(204)
    }

    /// Puts a prepared answer where nothing waits, and returns its status code. Its body stays where it is. Fails with
    /// `Memory` alone. Then the head may have a part of it.
    fn put(
        &mut self,
        prepared: &Prepared<'_>,
        additions: Additions<'_>,
        close: bool,
    ) -> Result<u16, Memory>
        requires { IsEmpty self.old }
        ensures status { IfOk result (λ code. code ≡ status_of prepared.now.reply) }
        ensures text { OnOk result (waiting_of self.new ≡ head_with (status_line prepared.now.reply)
            (fields_of prepared.now.reply ++ (origin_fields (option_copied additions.entry.origin) ++ closing close))
            ++ prepared.now.body.now) }
        ensures close { OnOk result (self.new.close ≡ close) }
        ensures tag { OnOk result (self.new.tag ≡ tag_of prepared.now.reply) }
    {
        let file = match prepared.file {
            Some(file) => Some(file.clone()?),
            None => None,
        };
        push_head(&mut self.head, &prepared.reply, additions, close)?;
        self.file = file;
        self.first = prepared.first;
        self.end = prepared.end;
        self.close = close;
        self.tag = match prepared.tag {
            Some(tag) => Some(tag.copy()),
            None => None,
        };
        Ok(status(&prepared.reply))
    }

    /// Puts the answer of a service to the head at the front of a message, after `count` answers, instead of what was
    /// there. Returns its status code. The body isn't copied, and the head reuses the buffer of the one before. Fails
    /// with `Memory` alone, and then nothing waits. Where nothing waits, no bytes of a file are held.
    pub fn answer(
        &mut self,
        service: &Service<'_>,
        count: usize,
        message: &[u8],
    ) -> Result<u16, Memory>
        requires { count < ANSWERS_LIMIT }
        ensures ok { IfOk result (IsOutgoing (service_of service.now) count message.now self.new) }
        ensures err { OnErr result (waiting_of self.new ≡ []) }
        ensures freed { waiting_of self.new ≡ [] → HoldsNone self.new }
    {
        self.clear();
        self.head.reserve(HEAD_ROOM)?;
        let additions = service.additions;
        let prepared = prepare(service.server.files(), message);
        let close = closes_by(additions, count, prepared.close);
        let status = if answers_preflight(additions, &prepared) {
            self.put_preflight(additions, close)
        } else {
            self.put(&prepared, additions, close)
        };
        if status.is_err() {
            self.clear();
        }
        status
    }

    fn body(&self) -> &[u8]
        ensures { result.now ≡ body_of self.now }
    {
        match &self.file {
            Some(file) => range(file, self.first, self.end),
            None => &[],
        }
    }

    /// Returns what isn't written of the answer: the rest of its head, and of its body.
    pub fn parts(&self) -> (&[u8], &[u8])
        ensures { result.0.now ++ result.1.now ≡ waiting_of self.now }
    {
        let head = &self.head[self.sent.min(self.head.len())..];
        let body = self.body();
        let skipped = self.sent.saturating_sub(self.head.len());
        (head, &body[skipped.min(body.len())..])
    }

    /// Returns whether something isn't written.
    pub fn is_waiting(&self) -> bool
        ensures { result ≡ not (length (waiting_of self.now) == 0) }
    {
        let (head, body) = self.parts();
        !head.is_empty() || !body.is_empty()
    }

    /// Notes that the next `n` bytes are written. After the last one the file's bytes are no longer held.
    pub fn wrote(&mut self, n: usize)
        requires { n ≤ length (waiting_of self.old) }
        ensures waiting { waiting_of self.new ≡ drop n (waiting_of self.old) }
        ensures tag { self.new.tag ≡ (if length (drop n (waiting_of self.old)) == 0 then None else self.old.tag) }
        ensures freed { waiting_of self.new ≡ [] → HoldsNone self.new }
    {
        self.sent += n;
        if !self.is_waiting() {
            self.clear();
        }
    }
}

/// Returns the bytes from place `first` on and before `end`, as far as they are there.
fn range(bytes: &[u8], first: usize, end: usize) -> &[u8]
    ensures { result.now ≡ slice_range bytes.now first end }
{
    let rest = &bytes[first.min(bytes.len())..];
    &rest[..end.saturating_sub(first).min(rest.len())]
}
