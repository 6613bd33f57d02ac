//! What may happen, and what is logged of it.
use cog_client::{Client, Current, Delivered, Report};
use cog_server::{Answer, PublishError};
use http_range::{Span, Tag};
use std::alloc::Global;
use tiff_dir::Query;

/// Says what happens.
#[derive(Drop)]
pub enum Event {
    /// A file is published under a name.
    Publish {
        name: Vec<u8>,
        file: Vec<u8>,
    },
    /// The server is restarted in this epoch, without files, if the epoch is greater than the current one.
    Epoch(u32),
    /// A client of this name is made, whose cache has `blocks` blocks.
    NewClient {
        name: Vec<u8>,
        blocks: u32,
    },
    /// Client `client` is asked a query.
    Open {
        client: u32,
        query: Query,
    },
    /// Client `client` forgets everything but its host, its name, its query and how it asks.
    Forget(u32),
    /// The server is sent a message, whatever its bytes.
    Ask(Vec<u8>),
    /// The server answers this client's request, if it has one. The answer is kept, as every one is.
    AskFrom(u32),
    /// Client `client` gets the first `cut` bytes of an answer that was kept, or all of it. An answer that carries the ETag of a file of
    /// another name isn't delivered.
    Deliver {
        client: u32,
        answer: u32,
        cut: Option<u32>,
    },
    /// The server answers this client's request, if it has one, and the client gets the answer whole.
    Exchange(u32),
    /// The server answers whether the file still has the ETag of this client's revision, if it has one.
    Check(u32),
}

/// Holds a client's request and its answer.
#[derive(Drop)]
pub struct AnsweredRequest {
    pub client: u32,
    /// The byte range that is asked for.
    pub span: Span,
    /// The ETag of If-Range.
    pub tag: Option<Tag>,
    /// The request's text.
    pub request: Vec<u8>,
    /// The answer's number: answers are counted from 0.
    pub number: usize,
    pub answer: Answer,
}

/// Holds a client's check and its answer.
#[derive(Drop)]
pub struct AnsweredCheck {
    pub client: u32,
    /// The ETag of the client's revision.
    pub tag: Tag,
    /// The check's text.
    pub request: Vec<u8>,
    /// The answer's number: answers are counted from 0.
    pub number: usize,
    pub answer: Answer,
    /// What the answer says of the ETag.
    pub current: Current,
}

/// Says what an event did.
#[derive(Drop)]
pub enum Effect {
    /// Nothing: what the event needs isn't there, or isn't allowed.
    Skipped,
    /// The file was published under this ETag.
    Published(Tag),
    /// The file was refused, for this reason.
    Refused(PublishError),
    /// The server was started anew in this epoch.
    Epoch(u32),
    /// The new client's number: clients are counted from 0.
    Made(usize),
    /// This client was asked its query.
    Opened(u32),
    /// This client forgot what it held.
    Forgot(u32),
    /// The message has this answer, with its number: answers are counted from 0.
    Answered {
        number: usize,
        answer: Answer,
    },
    /// The client had no request.
    Nothing(u32),
    /// A client's request was answered.
    Asked(AnsweredRequest),
    /// A client took an answer, or a front of one.
    Delivered {
        client: u32,
        delivered: Delivered,
    },
    /// A client's request was answered, and the client took the answer.
    Exchanged {
        asked: AnsweredRequest,
        delivered: Delivered,
    },
    /// The client had no revision to check.
    Unchecked(u32),
    /// A client's check was answered.
    Checked(AnsweredCheck),
}

impl Effect {
    ghost use Rattle.std.specs.Prelude.{◌≡◌, option_copied};
    ghost use Rattle.world.specs.World.{answer_in};

    /// Returns the answer that the event has sent, if it has sent one.
    pub fn answer(&self) -> Option<&Answer>
        ensures { option_copied result ≡ answer_in self.now }
    {
        match self {
            Effect::Answered { answer, .. } => Some(answer),
            Effect::Asked(asked) | Effect::Exchanged { asked, .. } => Some(&asked.answer),
            Effect::Checked(check) => Some(&check.answer),
            _ => None,
        }
    }
}

/// Holds what is logged of an event: what it did, and the report that newly stands.
#[derive(Drop)]
pub struct Entry {
    pub effect: Effect,
    pub report: Option<Report>,
}

/// Holds the entries of a schedule, one for each event, and the clients as the run leaves them.
#[derive(Drop)]
pub struct Log {
    pub entries: Vec<Entry>,
    pub clients: Vec<Client>,
}

impl Log {
    ghost use Rattle.std.specs.Prelude.{◌≡◌, []};

    /// Makes an empty log. It takes no memory.
    pub fn new(alloc: Global) -> Log
        ensures entries { result.entries.items ≡ [] }
        ensures clients { result.clients.items ≡ [] }
    {
        Log {
            entries: Vec::new(alloc),
            clients: Vec::new(alloc),
        }
    }
}
