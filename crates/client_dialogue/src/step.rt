//! What a driver is to do next, and what it reports.
use cog_client::Delivered;

/// What a driver is to do next.
#[derive(Clone, Copy, Debug, PartialEq, Eq)]
pub enum Step {
    /// Make a connection, and call `connected`.
    Connect,
    /// See whether bytes came that nothing asked for. Where there are some, or the connection ended, hand them on or call `gone`. Else
    /// call `silent`.
    Look,
    /// Write what is `waiting`, and call `wrote`.
    Write,
    /// Read bytes, and hand them on.
    Read,
    /// Go on with the bytes that are left.
    More,
    /// An exchange is over. Go on with the bytes that are left.
    Exchanged(Exchanged),
    /// Nothing: a report stands, there is no query, or no exchange is left.
    Over,
}

/// How many bytes were taken, and what is to be done next.
#[derive(Clone, Copy, Debug)]
pub struct Progress {
    /// The number of bytes, from the first on.
    pub count: usize,
    /// What is to be done next.
    pub step: Step,
}

/// What an exchange brought.
#[derive(Clone, Copy, Debug, PartialEq, Eq)]
pub struct Exchanged {
    /// What the answer did to the client.
    pub delivered: Delivered,
    /// The status code of the answer, or 0 where no whole head came.
    pub status: u16,
    /// Whether no other request was sent with its request.
    pub alone: bool,
}

/// How a connection was lost.
#[derive(Clone, Copy, Debug, PartialEq, Eq)]
pub enum Loss {
    /// The other end ended it.
    Ended,
    /// It failed, or couldn't be made.
    Failed,
    /// It brought nothing in time.
    Late,
}
