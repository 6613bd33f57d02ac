//! Sentences for people: why an answer isn't used, and why no client is made of a server and a name.
ghost use Rattle.std.specs.Prelude.{◌≡◌};
ghost use Rattle.read_progress.specs.Lasting.{is_lasting, is_lasting_status};

use cog_client::{ClientError, Why};
use std::fmt;

/// Prints why an answer isn't used, as a sentence without a full stop.
#[derive(Clone, Copy, Debug, PartialEq, Eq)]
pub struct WhySentence(pub Why);

/// Returns what a status code other than 200 and 206 says of a file (RFC 9110, section 15).
fn status_words(status: u16) -> &'static str {
    match status {
        301 | 302 | 303 | 307 | 308 => "the file is elsewhere, and redirections aren't followed",
        400 => "the server doesn't take the request",
        401 | 403 => "the server doesn't give the file",
        404 | 410 => "the server has no such file",
        416 => "the file has no such bytes",
        429 | 503 => "the server is busy",
        500..=599 => "the server can't answer",
        _ => "neither the file nor a part of it",
    }
}

/// Returns whether the same request is expected to get `status` again, since the file is elsewhere or the server doesn't give it.
fn is_lasting_status(status: u16) -> bool
    ensures { result ≡ is_lasting_status status }
{
    matches!(
        status,
        301 | 302 | 303 | 307 | 308 | 400 | 401 | 403 | 404 | 410
    )
}

/// Returns whether the next answer is expected to be unused for the same reason: its status stays, or no ETag comes that is read.
pub fn is_lasting(why: Why) -> bool
    ensures { result ≡ is_lasting why }
{
    match why {
        Why::Status(status) => is_lasting_status(status),
        Why::NoTag | Why::WeakTag | Why::TagTooLong => true,
        _ => false,
    }
}

impl fmt::Display for WhySentence {
    fn fmt<W: fmt::Write>(&self, f: &mut fmt::Formatter<W>) -> fmt::Result {
        let words = match self.0 {
            Why::Status(status) => return write!(f, "{status}: {}", status_words(status)),
            Why::Cut => "the answer ends inside its head",
            Why::Head => "no head of HTTP/1.1 in 4096 bytes, or more than 32 fields",
            Why::NoTag =>
                "no ETag, several, or a malformed one: the server doesn't say which content it is",
            Why::WeakTag => "weak tag: the server doesn't say that the bytes are the same",
            Why::TagTooLong => "the ETag is too long",
            Why::NoRange => "206 without a Content-Range that is read",
            Why::NoLength => "no Content-Length, or another than the part's",
            Why::Coding => "the answer is coded: by a transfer coding, or compressed",
        };
        f.write_str(words)
    }
}

/// Prints why no client is made of a server and a name, as a sentence without a full stop.
#[derive(Clone, Copy, Debug)]
pub struct RefusalSentence<'a>(pub &'a ClientError);

impl fmt::Display for RefusalSentence<'_> {
    fn fmt<W: fmt::Write>(&self, f: &mut fmt::Formatter<W>) -> fmt::Result {
        let words = match self.0 {
            ClientError::Host =>
                "the server is 1 to 64 letters, digits, '.', '-' and ':', and no address in brackets",
            ClientError::Name => "the name is 1 to 200 of A-Z a-z 0-9 . _ - /",
            ClientError::Blocks => "66 to 4096 blocks are kept",
            ClientError::Memory => "out of memory",
        };
        f.write_str(words)
    }
}
