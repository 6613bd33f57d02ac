//! What a call says of a request, and of bytes that came.

/// How a request comes to the connection.
#[derive(Clone, Copy, Debug, PartialEq, Eq)]
pub enum Turn {
    /// It was sent early: its answer is the next one.
    Sent,
    /// It waits to be written, after the answer before.
    Sends,
    /// It needs a new connection.
    Anew,
}

/// What bytes that came are.
#[derive(Clone, Copy, Debug, PartialEq, Eq)]
pub enum Part {
    /// No request waits for them. The connection is over.
    Stray,
    /// A part of a head.
    Head,
    /// The end of an interim answer, which is dropped.
    Interim,
    /// The end of a head. The body follows.
    Begun,
    /// A part of the body.
    Body,
    /// No answer to the request. The connection was kept and is over: the request is sent once more, on a new one.
    Again,
    /// The end of what is read of an answer without a head that can be used. The connection is over.
    Refused,
}

/// How many bytes were taken, and what they are.
#[derive(Clone, Copy, Debug)]
pub struct Taken {
    /// The number of bytes, from the first on.
    pub count: usize,
    /// What these bytes are.
    pub part: Part,
}
