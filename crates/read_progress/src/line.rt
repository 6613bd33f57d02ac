//! The line that `cogread --verbose` prints for an exchange.
use crate::noted::Came;
use crate::sentences::WhySentence;
use cog_client::Tag;
use cog_fetch::ANSWER_LIMIT;
use http_range::Head;
use std::{fmt, io};
use text_report::EscapedText;

/// Holds an exchange: what was asked, what came, how long it took, and what the client reads then.
#[derive(Drop)]
pub(crate) struct ExchangeLine<'c, 'n> {
    /// The file's name.
    pub name: &'c str,
    /// The Range field of the request.
    pub range: &'n str,
    pub status: Option<&'n str>,
    /// The number of bytes that came, with those of the head.
    pub bytes: u64,
    pub milliseconds: u64,
    pub came: Came,
    /// The error of the last connection, where it wasn't made.
    pub refusal: Option<io::Error>,
    /// The ETags of the revisions that the client reads before the exchange, and after it.
    pub before: Option<Tag>,
    pub after: Option<Tag>,
    /// The length in bytes of the file that the client reads after the exchange.
    pub complete: Option<u64>,
}

/// Returns the text of an ETag, with its control characters escaped. It is empty where the ETag isn't UTF-8.
fn shown(tag: &Tag) -> EscapedText<'_> {
    EscapedText(str::from_utf8(tag.as_bytes()).unwrap_or_default())
}

/// Returns whether a client reads the revision with the ETag `of`.
fn reads(tag: &Option<Tag>, of: &Tag) -> bool {
    match tag {
        Some(tag) => tag == of,
        None => false,
    }
}

impl ExchangeLine<'_, '_> {
    /// Prints what the client made of `count` bytes of the body, which came after `head`.
    fn write_brought<W: fmt::Write>(
        &self,
        f: &mut fmt::Formatter<W>,
        head: &Head,
        count: u64,
    ) -> fmt::Result {
        let tag = shown(&head.tag);
        if !reads(&self.after, &head.tag) {
            return write!(f, "of another content, tag {tag}: not taken");
        }
        if self.complete != Some(head.complete) {
            let complete = head.complete;
            return write!(
                f,
                "of a file of {complete} bytes, another length under tag {tag}: not taken"
            );
        }
        if self.before.is_some() && !reads(&self.before, &head.tag) {
            write!(f, "the file was replaced: ")?;
        }
        write!(f, "{count} bytes of the file, tag {tag}")?;
        if count < head.length {
            write!(f, "; {} before {}", self.end_words(), head.length)?;
        }
        Ok(())
    }

    /// Returns why an answer ended before its length. The reader takes at most `ANSWER_LIMIT` bytes of an answer.
    fn end_words(&self) -> &'static str {
        if self.bytes < ANSWER_LIMIT as u64 {
            "the connection broke"
        } else {
            "enough was read"
        }
    }
}

impl fmt::Display for ExchangeLine<'_, '_> {
    fn fmt<W: fmt::Write>(&self, f: &mut fmt::Formatter<W>) -> fmt::Result {
        let (name, range, status) = (self.name, self.range, self.status);
        let (bytes, milliseconds) = (self.bytes, self.milliseconds);
        write!(f, "cogread: GET /{name} {range}: ")?;
        if let Some(status) = status {
            write!(f, "{status}, ")?;
        }
        write!(f, "{bytes} bytes, {milliseconds} ms: ")?;
        match &self.came {
            Came::Unsent => match self.refusal {
                Some(error) => write!(f, "no connection: {error}"),
                None => write!(f, "no connection: the server isn't HOST:PORT, or it broke"),
            },
            Came::Nothing => write!(f, "no answer came"),
            Came::NotUsed(why) => write!(f, "{}", WhySentence(*why)),
            Came::Brought(head, count) => self.write_brought(f, head, *count),
        }
    }
}
