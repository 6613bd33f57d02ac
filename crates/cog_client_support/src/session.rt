//! A client, and its steps.
use crate::answers::{Answer, NotDone, Publication, published};
use crate::steps::{Kind, Positions, Said, Step};
use cog_client::{Client, ClientError, Delivered, Memory, Query, Report};
use cog_reader_support::{Want, is_wanted, of_level};
use std::alloc::{AllocError, Global};

/// Makes a client of `a` that keeps `blocks` blocks.
pub fn client_of_a(alloc: Global, blocks: u32) -> Result<Client, ClientError> {
    Client::new(alloc, b"cog.test", b"a", blocks)
}

/// Returns the text of a request.
fn request_text(
    alloc: Global,
    (first, last): Positions,
    tag: Option<&str>,
) -> Result<String, AllocError> {
    match tag {
        None => format!(in alloc;
            "GET /a HTTP/1.1\r\nHost: cog.test\r\nRange: bytes={first}-{last}\r\nConnection: close\r\n\r\n"
        ),
        Some(tag) => format!(in alloc;
            "GET /a HTTP/1.1\r\nHost: cog.test\r\nRange: bytes={first}-{last}\r\nIf-Range: {tag}\r\n\
            Connection: close\r\n\r\n"
        ),
    }
}

/// Returns whether `asked` is asked, and whether `tag` is the revision's tag.
fn stands(client: &Client, asked: Option<Positions>, tag: Option<&str>) -> bool {
    let span = client.asked().map(|span| (span.first, span.last));
    let found = client.tag().map(|tag| tag.as_bytes());
    span == asked && found == tag.map(|tag| tag.as_bytes())
}

/// Returns whether the next request is for these positions of the revision with this tag.
fn asks(
    alloc: Global,
    client: &mut Client,
    positions: Positions,
    tag: Option<&str>,
) -> Result<bool, NotDone> {
    let want = request_text(alloc, positions, tag)?;
    match client.request()? {
        None => Ok(false),
        Some(text) => {
            Ok(text.as_slice() == want.as_bytes() && stands(client, Some(positions), tag))
        }
    }
}

/// Returns whether there is no request, and nothing is asked.
fn asks_nothing(client: &mut Client) -> Result<bool, Memory> {
    let text = client.request()?;
    Ok(text.is_none() && client.asked().is_none())
}

/// Delivers an answer, whole or in pieces of `piece` bytes.
pub fn hand(client: &mut Client, answer: &[u8], piece: Option<usize>) -> Result<Delivered, Memory> {
    let Some(size) = piece else {
        return client.deliver(answer);
    };
    client.begin();
    for part in answer.chunks(size.max(1)) {
        client.feed(part)?;
    }
    client.end()
}

/// Delivers an answer, and returns what it does. Returns `None` where it changes what is asked, the revision's tag, or whether a report
/// stands.
fn does_quietly(
    client: &mut Client,
    answer: &[u8],
    piece: Option<usize>,
) -> Result<Option<Delivered>, Memory> {
    let asked = client.asked();
    let tag = client.tag().map(|tag| tag.copy());
    let is_silent = client.report().is_none();
    let delivered = hand(client, answer, piece)?;
    if client.asked() == asked
        && client.tag() == tag.as_ref()
        && client.report().is_none() == is_silent
    {
        Ok(Some(delivered))
    } else {
        Ok(None)
    }
}

/// Returns whether an answer is ignored under the number `number`, and changes nothing that callers see.
fn ignores(
    client: &mut Client,
    answer: &[u8],
    piece: Option<usize>,
    number: u8,
) -> Result<bool, Memory> {
    match does_quietly(client, answer, piece)? {
        Some(Delivered::Ignored(why)) => Ok(why.number() == number),
        _ => Ok(false),
    }
}

/// Returns whether an answer is taken with `blocks` blocks, and the client still asks for the same.
fn takes_more(
    client: &mut Client,
    answer: &[u8],
    piece: Option<usize>,
    blocks: u32,
) -> Result<bool, Memory> {
    match does_quietly(client, answer, piece)? {
        Some(Delivered::Took(count)) => Ok(count == blocks && client.report().is_none()),
        _ => Ok(false),
    }
}

/// Returns whether each of these answers is ignored under its number, and changes nothing that callers see.
fn refuses(
    client: &mut Client,
    answers: &[(&str, u8)],
    piece: Option<usize>,
) -> Result<bool, Memory> {
    for (answer, number) in answers {
        if !ignores(client, answer.as_bytes(), piece, *number)? {
            return Ok(false);
        }
    }
    Ok(true)
}

/// Returns whether an answer isn't ignored.
fn uses(client: &mut Client, answer: &[u8], piece: Option<usize>) -> Result<bool, Memory> {
    let delivered = hand(client, answer, piece)?;
    Ok(!matches!(delivered, Delivered::Ignored(_)))
}

/// Answers the client's requests with parts of one publication until there is none. Returns how many there were.
fn read(
    alloc: Global,
    client: &mut Client,
    publication: Publication<'_>,
    piece: Option<usize>,
) -> Result<usize, NotDone> {
    for count in 0..1000usize {
        if client.request()?.is_none() {
            return Ok(count);
        }
        let span = client.asked().ok_or(NotDone::NoSuchPart)?;
        hand(client, &publication.asked(alloc, span)?, piece)?;
    }
    Ok(1000)
}

/// Returns whether two reports say the same.
fn are_same(report: &Report, other: &Report) -> bool {
    report.query == other.query && report.tag == other.tag && report.outcome == other.outcome
}

/// Returns whether a copy of the report, and a copy of that copy, say the same.
fn copies(alloc: Global, client: &Client) -> Result<bool, Memory> {
    let Some(report) = client.report() else {
        return Ok(false);
    };
    let copy = report.copy(alloc)?;
    let again = copy.copy(alloc)?;
    Ok(are_same(&copy, report) && are_same(&again, report))
}

/// Returns whether `want` is the check, or there is none.
fn checks(client: &Client, want: Option<&str>) -> Result<bool, Memory> {
    let text = client.check()?;
    let found = text.as_ref().map(|text| text.as_slice());
    Ok(found == want.map(|want| want.as_bytes()))
}

/// Returns whether each of these answers to a check says `said`.
fn says(client: &Client, answers: &[&str], said: Said) -> bool {
    answers.iter().all(|answer| Said::from(client.current(answer.as_bytes())) == said)
}

/// Returns whether answers to a check say what is expected of their kind.
fn hears(client: &Client, kinds: &[Kind<'_>]) -> bool {
    kinds
        .iter()
        .all(|(answers, said)| says(client, answers, *said))
}

/// A client, the publications that its answers are of, and its query. Answers come in pieces of `piece` bytes, or whole where that is
/// `None`.
pub struct Session<'a> {
    pub client: Client,
    files: &'a [Publication<'a>],
    query: Option<Query>,
    piece: Option<usize>,
}

// Written out, so that it is one call wherever a session is dropped. Derived, each such place would be proved field by field.
impl<'a> Drop for Session<'a> {
    fn drop(self) {
        let Session {
            client: _,
            files: _,
            query: _,
            piece: _,
        } = self;
    }
}

impl<'a> Session<'a> {
    /// Makes a session of a client that hasn't been asked anything yet. It gets answers whole, or in pieces of `piece` bytes.
    pub fn new(client: Client, files: &'a [Publication<'a>], piece: Option<usize>) -> Session<'a> {
        Session {
            client,
            files,
            query: None,
            piece,
        }
    }

    /// Asks a query.
    fn open(&mut self, query: Query) {
        self.query = Some(query);
        self.client.open(query);
    }

    /// Returns whether `want` is the report, under the tag `tag`, of the query that was opened last, and nothing is asked.
    fn reports(&self, tag: &str, want: Want<'_>) -> bool {
        match self.client.report() {
            None => false,
            Some(report) => {
                Some(report.query) == self.query
                    && report.tag.as_bytes() == tag.as_bytes()
                    && is_wanted(Some(&report.outcome), want)
                    && stands(&self.client, None, Some(tag))
            }
        }
    }

    /// Returns whether an answer does `want`.
    fn does(
        &mut self,
        alloc: Global,
        answer: Answer<'_>,
        want: Delivered,
    ) -> Result<bool, NotDone> {
        let text = answer.text(alloc, self.files)?;
        Ok(hand(&mut self.client, &text, self.piece)? == want)
    }

    /// Does a step in which an answer is delivered. Returns whether it went as expected.
    fn deliver(&mut self, alloc: Global, step: Step<'_>) -> Result<bool, NotDone> {
        match step {
            Step::Takes(answer, blocks) => self.does(alloc, answer, Delivered::Took(blocks)),
            Step::Restarts(answer) => self.does(alloc, answer, Delivered::Restarted),
            Step::Uses(answer) => {
                let text = answer.text(alloc, self.files)?;
                Ok(uses(&mut self.client, &text, self.piece)?)
            }
            Step::TakesMore(answer, blocks) => {
                let text = answer.text(alloc, self.files)?;
                Ok(takes_more(&mut self.client, &text, self.piece, blocks)?)
            }
            Step::Ignores(answer, number) => {
                let text = answer.text(alloc, self.files)?;
                Ok(ignores(&mut self.client, &text, self.piece, number)?)
            }
            Step::Refuses(answers) => Ok(refuses(&mut self.client, answers, self.piece)?),
            Step::Reads(which, requests) => {
                let publication = published(self.files, which)?;
                Ok(read(alloc, &mut self.client, publication, self.piece)? == requests)
            }
            _ => Ok(false),
        }
    }

    /// Does a step that changes nothing. Returns whether it went as expected.
    fn look(&self, alloc: Global, step: Step<'_>) -> Result<bool, NotDone> {
        match step {
            Step::Stands(asked, tag) => Ok(stands(&self.client, asked, tag)),
            Step::IsSilent => Ok(self.client.report().is_none()),
            Step::Reports(tag, want) => Ok(self.reports(tag, want)),
            Step::Copies => Ok(copies(alloc, &self.client)?),
            Step::Checks(want) => Ok(checks(&self.client, want)?),
            Step::Hears(kinds) => Ok(hears(&self.client, kinds)),
            _ => Ok(false),
        }
    }

    /// Does a step. Returns whether it went as expected.
    pub fn step(&mut self, alloc: Global, step: Step<'_>) -> Result<bool, NotDone> {
        match step {
            Step::Opens(x, y, w, h) => {
                self.open(of_level(x, y, w, h, 0));
                Ok(true)
            }
            Step::Open(query) => {
                self.open(query);
                Ok(true)
            }
            Step::Forgets => {
                self.client.forget();
                Ok(true)
            }
            Step::Asks(positions, tag) => asks(alloc, &mut self.client, positions, tag),
            Step::AsksNothing => Ok(asks_nothing(&mut self.client)?),
            Step::Takes(..)
            | Step::TakesMore(..)
            | Step::Uses(_)
            | Step::Ignores(..)
            | Step::Refuses(_)
            | Step::Restarts(_)
            | Step::Reads(..) => self.deliver(alloc, step),
            other => self.look(alloc, other),
        }
    }

    /// Does these steps. Returns the number of the first that didn't go as expected, or `None` where all went well.
    pub fn go(&mut self, alloc: Global, steps: &[Step<'_>]) -> Result<Option<usize>, NotDone> {
        for (i, step) in steps.iter().enumerate() {
            if !self.step(alloc, *step)? {
                return Ok(Some(i));
            }
        }
        Ok(None)
    }

    /// Does these lists of steps, one after another. Returns the number of the first step that didn't go as expected, counted from the
    /// first of all.
    pub fn go_through(
        &mut self,
        alloc: Global,
        parts: &[&[Step<'_>]],
    ) -> Result<Option<usize>, NotDone> {
        let mut done = 0usize;
        for steps in parts {
            if let Some(step) = self.go(alloc, steps)? {
                return Ok(Some(done.saturating_add(step)));
            }
            done = done.saturating_add(steps.len());
        }
        Ok(None)
    }
}

/// Does these lists of steps, one after another, with a new client that has the least cache. Answers come whole, or in pieces of `piece`
/// bytes. Returns the number of the first step that didn't go as expected, counted from the first of all.
pub fn otherwise_by(
    alloc: Global,
    files: &[Publication<'_>],
    parts: &[&[Step<'_>]],
    piece: Option<usize>,
) -> Result<Option<usize>, NotDone> {
    let client = client_of_a(alloc, 66)?;
    Session::new(client, files, piece).go_through(alloc, parts)
}

/// How many blocks clients look ahead.
pub const AHEAD: [u32; 4] = [0, 1, 8, 64];

/// How answers come: whole, or in pieces of this many bytes. The head of an answer has about 171 bytes, and a block has 16,384.
pub const WAYS: [Option<usize>; 6] = [
    None,
    Some(1),
    Some(7),
    Some(171),
    Some(16_384),
    Some(100_000),
];

/// Does the same with answers that come in each of these ways, each time with another client.
pub fn otherwise(
    alloc: Global,
    files: &[Publication<'_>],
    parts: &[&[Step<'_>]],
) -> Result<Option<usize>, NotDone> {
    for piece in WAYS {
        let step = otherwise_by(alloc, files, parts, piece)?;
        if step.is_some() {
            return Ok(step);
        }
    }
    Ok(None)
}
