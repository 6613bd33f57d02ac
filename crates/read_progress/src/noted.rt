//! A source of answers that stands for another one, and notes what the last exchange brought.
ghost use Rattle.std.specs.Prelude.{◌≡◌, ◌+◌, [], IfSome, false, length, min};
ghost use Rattle.std.specs.Char.{is_ascii_digit};
ghost use Rattle.std.specs.List.{AllPass};
ghost use Rattle.read_progress.specs.Noted.{AsksMore, HasBrought, HasCome, IsRefused, NotesOf, NotesRange, before_of, bytes_of, front_of, range_of, sent_of, source_of};

use crate::clock::moment;
use crate::printing::{Printing, Verbosity};
use crate::sentences::is_lasting;
use cog_client::{Client, Lost, Pieces, Tag, Why};
use http_range::{Head, HeadReading, read_head, read_request};
use std::alloc::Global;
use std::rt::Clock;

/// The most bytes that are noted of an answer: those that a head may have.
const FRONT_ROOM: usize = 4096;

/// Says what came of an exchange.
#[derive(Debug, Drop)]
pub enum Came {
    /// The request wasn't sent.
    Unsent,
    /// No byte of an answer came.
    Nothing,
    /// The answer can't be used, for this reason.
    NotUsed(Why),
    /// The head of an answer that brings a byte range of a file, and the number of bytes that came of its body.
    Brought(Head, u64),
}

/// Counts what all exchanges have brought.
#[derive(Clone, Copy, Debug, PartialEq, Eq)]
pub struct Progress {
    /// The number of ranges of which bytes came.
    pub had: u64,
    /// The number of ranges that were asked for.
    pub asked: u64,
    /// The number of bytes that came, with those of heads.
    pub bytes: u64,
}

/// Passes requests to another source, and its answers back, and notes both. It speaks for what the other source speaks for. It prints
/// what is noted after each exchange.
#[derive(Drop)]
pub struct Noted<'a, 'r, R, P> {
    source: P,
    pub(crate) printing: Printing<'a, 'r, R>,
    /// When the last exchange began.
    since: u64,
    /// The ETag of the revision that the client read then.
    tag: Option<Tag>,
    is_sent: bool,
    range: Vec<u8>,
    front: Vec<u8>,
    bytes: u64,
    /// What the exchanges before the last one had brought.
    before: Progress,
}

/// Returns the ETag of the revision that a client reads, if it reads one.
pub(crate) fn tag_of(client: &Client) -> Option<Tag> {
    match client.tag() {
        Some(tag) => Some(tag.copy()),
        None => None,
    }
}

impl<'a, 'r, R, P> Noted<'a, 'r, R, P> {
    /// Makes one over `source`. Nothing is noted yet.
    pub fn new(alloc: Global, source: P, printing: Printing<'a, 'r, R>) -> Self
        ensures source { source_of result ≡ source }
        ensures sent { sent_of result ≡ false }
        ensures bytes { bytes_of result ≡ 0 }
        ensures front { front_of result ≡ [] }
        ensures range { range_of result ≡ [] }
        ensures before { before_of result ≡ record { had = 0; asked = 0; bytes = 0 } }
    {
        Noted {
            source,
            printing,
            since: 0,
            tag: None,
            is_sent: false,
            range: Vec::new(alloc),
            front: Vec::new(alloc),
            bytes: 0,
            before: Progress {
                had: 0,
                asked: 0,
                bytes: 0,
            },
        }
    }

    /// Returns what is printed of exchanges.
    pub fn verbosity(&self) -> Verbosity {
        self.printing.verbosity
    }

    /// Returns the moment at which the last exchange began, in milliseconds.
    pub(crate) fn since(&self) -> u64 {
        self.since
    }

    /// Returns the ETag of the revision that the client read before the last exchange, if it read one.
    pub(crate) fn tag_before(&self) -> Option<Tag> {
        match &self.tag {
            Some(tag) => Some(tag.copy()),
            None => None,
        }
    }

    /// Returns the value of the last request's Range field, as `bytes=0-65535`.
    pub(crate) fn range(&self) -> &[u8]
        ensures { result.now ≡ range_of self.now }
    {
        &self.range
    }

    /// Returns the three digits of the last answer's status code (RFC 9112, section 4), or `None` where other bytes stand there.
    pub(crate) fn status(&self) -> Option<&str>
        ensures { IfSome result (λ text. AllPass is_ascii_digit text.now) }
    {
        let line = self.front.strip_prefix(b"HTTP/1.1 ".as_slice());
        let line = line.or(self.front.strip_prefix(b"HTTP/1.0 ".as_slice()))?;
        let digits = line.get(..3)?;
        if !digits.iter().all(|byte| byte.is_ascii_digit()) {
            return None;
        }
        str::from_utf8(digits).ok()
    }

    /// Returns the number of bytes that came of the last answer, with its head.
    pub(crate) fn bytes(&self) -> u64
        ensures { result ≡ bytes_of self.now }
    {
        self.bytes
    }

    /// Returns what came of the last exchange.
    pub fn came(&self) -> Came
        ensures { HasCome self.now result }
    {
        if !self.is_sent {
            return Came::Unsent;
        }
        if self.bytes == 0 {
            return Came::Nothing;
        }
        match read_head(&self.front) {
            HeadReading::NotUsed(why) => Came::NotUsed(why),
            HeadReading::Head(head) => {
                let body = self.bytes.saturating_sub(head.size as u64);
                let brought = body.min(head.length);
                Came::Brought(head, brought)
            }
        }
    }

    /// Returns why the last answer isn't used, where the next one is expected to be unused for the same reason. Else returns `None`.
    pub fn lasting_refusal(&self) -> Option<Why>
        ensures { IfSome result (λ why. IsRefused why self.now) }
    {
        match self.came() {
            Came::NotUsed(why) if is_lasting(why) => Some(why),
            _ => None,
        }
    }

    /// Returns what all exchanges have brought.
    pub fn progress(&self) -> Progress
        ensures { HasBrought self.now result }
    {
        let Progress { had, asked, bytes } = self.before;
        let has_come = matches!(self.came(), Came::Brought(_, 1..));
        Progress {
            had: had.saturating_add(u64::from(has_come)),
            asked,
            bytes: bytes.saturating_add(self.bytes),
        }
    }

    /// Notes a request. What was noted of the last exchange is dropped, but its progress is kept. Without memory the Range field isn't
    /// noted.
    fn note_request(&mut self, request: &[u8])
        ensures source { source_of self.new ≡ source_of self.old }
        ensures sent { sent_of self.new ≡ false }
        ensures bytes { bytes_of self.new ≡ 0 }
        ensures front { front_of self.new ≡ [] }
        ensures range { NotesRange request.now (range_of self.new) }
        ensures before { AsksMore self.old self.new }
    {
        self.before = self.progress();
        self.before.asked = self.before.asked.saturating_add(1);
        self.is_sent = false;
        self.bytes = 0;
        self.front.clear();
        self.range.clear();
        if let Some(request) = read_request(request)
            && let Some(range) = request.only(b"range")
        {
            let _ = self.range.extend_from_slice(range);
        }
    }

    /// Counts the next bytes of the answer, and appends them to its noted front. None is appended where the front has no room, or lacks
    /// bytes before.
    fn note_piece(&mut self, piece: &[u8])
        ensures source { source_of self.new ≡ source_of self.old }
        ensures sent { sent_of self.new ≡ sent_of self.old }
        ensures bytes { bytes_of self.new ≡ min (bytes_of self.old + length piece.now) 18446744073709551615 }
        ensures front { NotesOf piece.now self.old self.new }
        ensures range { range_of self.new ≡ range_of self.old }
        ensures before { before_of self.new ≡ before_of self.old }
    {
        if self.bytes == self.front.len() as u64 {
            let room = FRONT_ROOM.saturating_sub(self.front.len());
            let front = &piece[..piece.len().min(room)];
            let _ = self.front.extend_from_slice(front);
        }
        self.bytes = self.bytes.saturating_add(piece.len() as u64);
    }
}

impl<R: Eprint + Clock, P: Pieces> Pieces for Noted<'_, '_, R, P> {
    ghost use Rattle.std.specs.Prelude.{◌≡◌, ◌+◌, ◌<◌, ◌≤◌, ◌^◌, [], IfOk, IsTrue, OnErr, OnOk, is_ok, length, min, take};
    ghost use Rattle.cog_client.specs.Pieces.{BringsOf};
    ghost use Rattle.cog_client.specs.Transport.{AnswersOn, IsTrueToAll, OrLost, SpeaksOn};
    ghost use Rattle.read_progress.specs.Noted.{AsksMore, NotesOf, NotesRange, before_of, bytes_of, front_of, range_of, sent_of, source_of};

    ghost speaks_for = { λ s. P.speaks_for (source_of s) };

    ghost answers = { λ s. P.answers (source_of s) };

    ghost has_lost = { λ s. P.has_lost (source_of s) };

    ghost count = { λ s. P.count (source_of s) };

    ghost rest = { λ s. P.rest (source_of s) };

    fn start(&mut self, request: &[u8]) -> Result<(), Lost>
        requires { P.count (source_of self.old) + 1 < 2 ^ 64 }

        // What came before isn't noted any more.
        ensures sent { sent_of self.new ≡ is_ok result }
        ensures bytes { bytes_of self.new ≡ 0 }
        ensures front { front_of self.new ≡ [] }
        ensures range { NotesRange request.now (range_of self.new) }
        ensures before { AsksMore self.old self.new }

        // It keeps the trait's law.
        ensures answered { OnOk result (P.answers (source_of self.old) request.now (P.rest (source_of self.new))) }
        ensures dropped { OnErr result (P.rest (source_of self.new) ≡ []) }
        ensures told { OnErr result (IsTrue (P.has_lost (source_of self.new))) }
        ensures kept { OnOk result (P.has_lost (source_of self.new) ≡ P.has_lost (source_of self.old)) }
        ensures goes_on { AnswersOn (OrLost (P.answers (source_of self.old))) (OrLost (P.answers (source_of self.new))) }
        ensures shows { OnOk result (IsTrueToAll (P.speaks_for (source_of self.old)) (P.rest (source_of self.new))) }
        ensures speaks { SpeaksOn (P.speaks_for (source_of self.old)) (P.speaks_for (source_of self.new)) }
        ensures counted { P.count (source_of self.new) ≡ P.count (source_of self.old) + 1 }
    {
        self.note_request(request);
        let sent = self.source.start(request);
        self.is_sent = sent.is_ok();
        sent
    }

    fn next(&mut self, out: &mut [u8]) -> Result<usize, Lost>
        requires { 0 < length out.old }

        // The bytes that come are noted.
        ensures sent { sent_of self.new ≡ sent_of self.old }
        ensures bytes { IfOk result (λ n. bytes_of self.new ≡ min (bytes_of self.old + n) 18446744073709551615) }
        ensures front { IfOk result (λ n. NotesOf (take n out.new) self.old self.new) }
        ensures lost { OnErr result ((bytes_of self.new ≡ bytes_of self.old) × (front_of self.new ≡ front_of self.old)) }
        ensures range { range_of self.new ≡ range_of self.old }
        ensures before { before_of self.new ≡ before_of self.old }

        // It keeps the trait's law.
        ensures fits { IfOk result (λ n. n ≤ length out.new) }
        ensures brings { IfOk result (λ n. BringsOf (P.speaks_for (source_of self.old)) (P.rest (source_of self.old)) out.new n
            (P.rest (source_of self.new))) }
        ensures told { OnErr result (IsTrue (P.has_lost (source_of self.new))) }
        ensures kept { OnOk result (P.has_lost (source_of self.new) ≡ P.has_lost (source_of self.old)) }
        ensures goes_on { AnswersOn (OrLost (P.answers (source_of self.old))) (OrLost (P.answers (source_of self.new))) }
        ensures speaks { SpeaksOn (P.speaks_for (source_of self.old)) (P.speaks_for (source_of self.new)) }
        ensures counted { P.count (source_of self.new) ≡ P.count (source_of self.old) }
    {
        let count = self.source.next(out)?;
        self.note_piece(&out[..count]);
        Ok(count)
    }

    fn exchange_begins(&mut self, client: &Client, request: &[u8]) {
        self.since = moment(self.printing.rt);
        self.tag = tag_of(client);
        self.source.exchange_begins(client, request);
    }

    fn exchange_ends(&mut self, client: &Client) {
        self.source.exchange_ends(client);
        match self.printing.verbosity {
            Verbosity::Nothing => {}
            Verbosity::Each => self.print_line(client),
            Verbosity::Progress => self.draw(),
        }
    }

    fn foresee(&mut self, requests: &[Vec<u8>]) {
        self.source.foresee(requests);
    }

    fn starts(&self) -> u64 {
        self.source.starts()
    }
}
