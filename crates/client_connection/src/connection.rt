//! A client's end of its connections.
ghost use Rattle.std.specs.Prelude.{◌≡◌, ◌<◌, ◌≤◌, ◌∷◌, ◌++◌, ◌⊎◌, ℕ, List, [], false, true, None, Some, Ok, Err, IfOk, IfSome, IsSome, OnErr, OnOk, drop, length, min, take};
ghost use Rattle.http_range.specs.declared.frame.Frame.{Frame};
ghost use Rattle.http_range.specs.declared.reading.Why.TheVariants.{Head};
ghost use Rattle.http_range.specs.Frame.{is_interim, ReadsFrame};
ghost use Rattle.client_connection.specs.declared.parts.Part.TheVariants.{Body, Stray};

mod heads;

use crate::parts::{Part, Taken, Turn};
use http_range::law_frames_grow;
use std::alloc::{AllocError, Global};
use std::collections::VecDeque;
use std::marker::Model;

/// The most interim answers before an answer.
const INTERIM_LIMIT: u8 = 16;

/// The status of a server that waited for a request in vain (RFC 9110, section 15.5.9).
const REQUEST_TIMEOUT: u16 = 408;

/// A client's end of its connections, one after another. One answer is under way at a time. Further requests may be sent before it
/// came.
#[derive(Drop)]
pub struct ClientConnection {
    alloc: Global,
    is_open: bool,
    kept: bool,
    waits: Vec<u8>,
    out: VecDeque<Vec<u8>>,
    head: Vec<u8>,
    left: Option<u64>,
    closes: bool,
    interims: u8,
}

impl Model for ClientConnection {
    ghost use Rattle.client_connection.specs.Status.{Status};
    ghost use Rattle.client_connection.specs.Inside.{IsSound, texts};

    ghost Value = { Status };

    ghost view = { λ c. record {
      is_open = c.is_open;
      kept = c.kept;
      waits = c.waits.items;
      out = texts c.out.items;
      head = c.head.items;
      left = c.left;
      closes = c.closes;
      interims = c.interims;
    } };

    ghost invariant = { λ c. IsSound c.is_open c.head.items c.left };
}

impl ClientConnection {
    ghost use Rattle.http_fields.specs.declared.limits.TheConstants.{HEAD_LIMIT};
    ghost use Rattle.client_connection.specs.Inside.{texts};
    ghost use Rattle.client_connection.specs.Status.{Takes, TakesHead, after_ask, after_finish, after_gone, after_open, after_write, cut, head_left, is_again, is_between, over, sends, turn_of};

    /// Makes one without a connection.
    pub fn new(alloc: Global) -> Self
        ensures { result ≡ over [] }
    {
        ClientConnection {
            alloc,
            is_open: false,
            kept: false,
            waits: Vec::new(alloc),
            out: VecDeque::new(alloc),
            head: Vec::new(alloc),
            left: None,
            closes: false,
            interims: 0,
        }
    }

    /// Ends the connection, and drops what was asked. A driver calls it where it gives up, or doesn't use an answer.
    pub fn end(&mut self)
        ensures { self.new ≡ over [] }
    {
        self.is_open = false;
        self.kept = false;
        self.waits.clear();
        self.out.clear();
        self.head.clear();
        self.left = None;
        self.closes = false;
        self.interims = 0;
    }

    /// Ends the connection, where its first request is to be sent on a new one.
    fn end_for_request(&mut self)
        ensures { self.new ≡ over (take 1 self.old.out) }
    {
        self.is_open = false;
        self.kept = false;
        self.waits.clear();
        self.out.truncate(1);
        self.head.clear();
        self.left = None;
        self.closes = false;
        self.interims = 0;
    }

    /// Returns whether a connection is there.
    pub fn is_open(&self) -> bool
        ensures is { result ≡ self.now.is_open }
        ensures none { result ≡ false → self.now.left ≡ None }
    {
        self.is_open
    }

    /// Returns the number of bytes that are to come of the body, or `None` while the head isn't whole.
    pub fn left(&self) -> Option<u64>
        ensures is { result ≡ self.now.left }
        ensures opens { IsSome result → self.now.is_open ≡ true }
    {
        self.left
    }

    /// Returns the bytes of the head that came: of the whole head once `left` is some, or once the connection was cut in it. At most
    /// 4,096 are kept.
    pub fn head(&self) -> &[u8]
        ensures head { result.now ≡ self.now.head }
        ensures short { length result.now ≤ HEAD_LIMIT }
    {
        &self.head
    }

    /// Returns the bytes that are to be written.
    pub fn waiting(&self) -> &[u8]
        ensures { result.now ≡ self.now.waits }
    {
        &self.waits
    }

    /// Notes that the first `count` bytes that waited were written.
    pub fn wrote(&mut self, count: usize)
        requires { count ≤ length self.old.waits }
        ensures { self.new ≡ after_write count self.old }
    {
        self.waits.copy_within(count.., 0);
        self.waits.truncate(self.waits.len() - count);
    }

    /// Returns whether nothing came of the next answer.
    fn is_between(&self) -> bool
        ensures { result ≡ is_between self.now }
    {
        self.left.is_none() && self.head.is_empty()
    }

    /// Returns how a request comes to the connection.
    fn turn(&self, text: &[u8]) -> Turn
        ensures { result ≡ turn_of text.now self.now }
    {
        if !(self.is_open && self.is_between()) {
            return Turn::Anew;
        }
        match self.out.front() {
            None => Turn::Sends,
            Some(first) => {
                if first.as_slice() == text {
                    Turn::Sent
                } else {
                    Turn::Anew
                }
            }
        }
    }

    /// Adds a request to those that are out.
    fn add(&mut self, text: &[u8]) -> Result<(), AllocError>
        ensures ok { OnOk result (self.new ≡ sends text.now self.old) }
    {
        let copy = Vec::from_slice(self.alloc, text)?;
        self.waits.extend_from_slice(text)?;
        self.out.push_back(copy)?;
        Ok(())
    }

    /// Ends the connection for a request that is to be sent on a new one.
    fn begin_anew(&mut self, text: &[u8]) -> Result<(), AllocError>
        ensures ok { OnOk result (self.new ≡ over (text.now ∷ [])) }
    {
        self.end();
        let copy = Vec::from_slice(self.alloc, text)?;
        self.out.push_back(copy)?;
        Ok(())
    }

    fn try_ask(&mut self, text: &[u8]) -> Result<Turn, AllocError>
        ensures turn { IfOk result (λ turn. turn ≡ turn_of text.now self.old) }
        ensures ok { OnOk result (self.new ≡ after_ask text.now self.old) }
    {
        let turn = self.turn(text);
        match turn {
            Turn::Sent => {}
            Turn::Sends => self.add(text)?,
            Turn::Anew => self.begin_anew(text)?,
        }
        Ok(turn)
    }

    /// Asks for the answer to the request `text`, and returns how it comes to the connection. It is the next one where it was sent
    /// early, byte for byte. It is sent on the connection that is kept where nothing is out. Else it needs a new connection, as where
    /// the answer before isn't whole.
    ///
    /// Without memory the connection is given up.
    pub fn ask(&mut self, text: &[u8]) -> Result<Turn, AllocError>
        ensures turn { IfOk result (λ turn. turn ≡ turn_of text.now self.old) }
        ensures ok { OnOk result (self.new ≡ after_ask text.now self.old) }
        ensures err { OnErr result (self.new ≡ over []) }
    {
        let asked = self.try_ask(text);
        if asked.is_err() {
            self.end();
        }
        asked
    }

    /// Sends the request `text` early, before its turn. Without memory the connection is given up.
    pub fn send_early(&mut self, text: &[u8]) -> Result<(), AllocError>
        requires { self.old.is_open ≡ true }
        ensures ok { OnOk result (self.new ≡ sends text.now self.old) }
        ensures err { OnErr result (self.new ≡ over []) }
    {
        let added = self.add(text);
        if added.is_err() {
            self.end();
        }
        added
    }

    fn try_open(&mut self) -> Result<(), AllocError>
        ensures ok { OnOk result (self.new ≡ after_open self.old) }
    {
        law_frames_grow();
        self.end_for_request();
        self.is_open = true;
        if let Some(first) = self.out.front() {
            self.waits.extend_from_slice(first)?;
        }
        Ok(())
    }

    /// Notes that a new connection is there. The request that was asked for waits to be written on it. Without memory the connection is
    /// given up.
    pub fn opened(&mut self) -> Result<(), AllocError>
        requires { self.old.is_open ≡ false }
        ensures ok { OnOk result (self.new ≡ after_open self.old) }
        ensures err { OnErr result (self.new ≡ over []) }
    {
        let opened = self.try_open();
        if opened.is_err() {
            self.end();
        }
        opened
    }

    /// Returns whether an answer is to come.
    pub fn is_asked(&self) -> bool
        ensures no { result ≡ false → self.now.out ≡ [] }
        ensures yes { result ≡ true → 0 < length self.now.out }
    {
        self.out.front().is_some()
    }

    /// Takes bytes that came, as many as are of one part, and returns how many, and which part they are. Without memory the connection is
    /// given up.
    pub fn came(&mut self, bytes: &[u8]) -> Result<Taken, AllocError>
        requires opens { self.old.is_open ≡ true }
        requires some { 0 < length bytes.now }
        requires more { ¬ (self.old.left ≡ Some 0) }
        ensures some { IfOk result (λ taken. 0 < taken.count) }
        ensures few { IfOk result (λ taken. taken.count ≤ length bytes.now) }
        ensures takes { IfOk result (λ taken. Takes taken.part (take taken.count bytes.now) self.old self.new) }
        ensures own { IfOk result (λ taken. ¬ (taken.part ≡ Stray) → 0 < length self.old.out) }
        ensures body { IfSome self.old.left (λ left. 0 < length self.old.out
            → IfOk result (λ taken. (taken.part ≡ Body) × (taken.count ≡ min left (length bytes.now)))) }
        ensures err { OnErr result (self.new ≡ over []) }
    {
        if !self.is_asked() {
            self.end();
            return Ok(Taken {
                count: bytes.len(),
                part: Part::Stray,
            });
        }
        match self.left {
            Some(left) => Ok(self.take_body(left, bytes)),
            None => self.take_head(bytes),
        }
    }

    /// Takes bytes of the body, of which `left` are to come.
    fn take_body(&mut self, left: u64, bytes: &[u8]) -> Taken
        requires opens { self.old.is_open ≡ true }
        requires is { self.old.left ≡ Some left }
        requires some { 0 < length bytes.now }
        requires more { 0 < left }
        ensures some { 0 < result.count }
        ensures few { result.count ≤ length bytes.now }
        ensures takes { Takes result.part (take result.count bytes.now) self.old self.new }
        ensures all { (result.part ≡ Body) × (result.count ≡ min left (length bytes.now)) }
    {
        let count = left.min(bytes.len() as u64);
        self.left = Some(left - count);
        Taken {
            count: count as usize,
            part: Part::Body,
        }
    }

    /// Notes that the answer is whole, and was used. The connection goes on, unless it ends with the answer.
    pub fn finish(&mut self)
        requires { self.old.left ≡ Some 0 }
        ensures { self.new ≡ after_finish self.old }
    {
        law_frames_grow();
        if self.closes {
            self.end();
            return;
        }
        self.kept = true;
        self.left = None;
        self.head.clear();
        let _ = self.out.pop_front();
    }

    /// Notes that the connection is gone: it ended, failed, or brings nothing. Returns whether its request is sent once more, on a new
    /// one.
    pub fn gone(&mut self) -> bool
        ensures again { result ≡ is_again self.old }
        ensures after { self.new ≡ after_gone self.old }
    {
        if self.kept && self.is_between() && self.is_asked() {
            self.end_for_request();
            return true;
        }
        self.cut_off();
        false
    }

    /// Ends the connection, and keeps what came of a head that isn't whole.
    fn cut_off(&mut self)
        ensures { self.new ≡ cut (head_left self.old.left self.old.head) }
    {
        self.is_open = false;
        self.kept = false;
        self.waits.clear();
        self.out.clear();
        if self.left.is_some() {
            self.head.clear();
        }
        self.left = None;
        self.closes = false;
        self.interims = 0;
    }

    /// Returns those of the requests that come next which weren't sent so far. There are none before the connection went on after an
    /// answer, since a server that ends each connection may drop the rest of an answer with what it didn't read; nor where others were
    /// sent.
    pub fn unsent<'a>(&self, requests: &'a [Vec<u8>]) -> &'a [Vec<u8>]
        ensures fresh { self.now.kept ≡ false → result.now ≡ [] }
        ensures rest { (result.now ≡ []) ⊎ (texts requests.now ≡ drop 1 self.now.out ++ texts result.now) }
        ensures all { self.now.kept ≡ true → (last : List (List ℕ)) → texts requests.now ≡ drop 1 self.now.out ++ last
            → texts result.now ≡ last }
    {
        if !self.kept {
            return &[];
        }
        let mut left = requests;
        let mut early = self.out.iter();
        let _ = early.next();
        for sent in early {
            match left.split_first() {
                Some((first, rest)) if first.as_slice() == sent.as_slice() => left = rest,
                _ => return &[],
            }
        }
        left
    }
}
