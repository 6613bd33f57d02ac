//! The head of an answer (RFC 9112, section 4).
ghost use Rattle.std.specs.Prelude.{◌≡◌, ◌≤◌, Some, length, option_copied, take};
ghost use Rattle.http_range.specs.Head.{FindsHead};
ghost use Rattle.http_range.specs.AnswerHead.{head_seen, found_seen};
ghost use Rattle.http_range.specs.Reading.{is_coded, says_close, tag_by_rows, tag_in};

use crate::reading::Why;
use http_fields::fields::HeaderFields;
use http_fields::limits::{FIELD_LIMIT, HEAD_LIMIT};
use http_fields::tag::{Tag, is_opaque_tag, is_weak_tag};
use httparse::Status;
use httparse::spans::{EMPTY_HEADER_SPAN, parse_response};

/// The parts of a head, and how many bytes it has.
#[derive(Drop)]
pub(crate) struct AnswerHead<'b> {
    pub(crate) status: u16,
    /// The minor version: 1 of HTTP/1.1.
    pub(crate) minor: u8,
    pub(crate) fields: HeaderFields<'b>,
    pub(crate) size: usize,
}

/// Returns the bytes in which a head is looked for.
fn head_front(bytes: &[u8]) -> &[u8]
    ensures front { result.now ≡ take HEAD_LIMIT bytes.now }
    ensures short { length result.now ≤ HEAD_LIMIT }
    ensures within { length result.now ≤ length bytes.now }
{
    if bytes.len() < HEAD_LIMIT {
        bytes
    } else {
        &bytes[..HEAD_LIMIT]
    }
}

/// Returns the head at the front of an answer. Fails with `Why::Cut` where it isn't whole, and with `Why::Head` where
/// there is none.
pub(crate) fn head_of(bytes: &[u8]) -> Result<AnswerHead<'_>, Why>
    ensures { FindsHead bytes.now (found_seen result) }
{
    let front = head_front(bytes);
    let mut spans = [EMPTY_HEADER_SPAN; FIELD_LIMIT];
    match parse_response(front, &mut spans) {
        Ok(Status::Complete(head)) => Ok(AnswerHead {
            status: head.code,
            minor: head.version,
            fields: HeaderFields::new(front, spans, head.headers),
            size: head.len,
        }),
        Ok(Status::Partial) => {
            if bytes.len() < HEAD_LIMIT {
                Err(Why::Cut)
            } else {
                Err(Why::Head)
            }
        }
        Err(_) => Err(Why::Head),
    }
}

impl<'b> AnswerHead<'b> {
    /// Returns whether the head says that the connection ends with the answer (RFC 9112, section 9.6).
    pub(crate) fn says_close(&self) -> bool
        ensures { result ≡ says_close (head_seen self.now) }
    {
        self.fields.has_member(b"Connection", b"close")
    }

    fn is_coded(&self) -> bool
        ensures { result ≡ is_coded (head_seen self.now) }
    {
        self.fields.has(b"Transfer-Encoding") || self.fields.has(b"Content-Encoding")
    }

    /// Returns its strong ETag of at most 64 bytes. Fails with `Why::Coding` where a coding is named, and with
    /// `Why::NoTag`, `Why::WeakTag` or `Why::TagTooLong`.
    pub(crate) fn tag(&self) -> Result<Tag, Why>
        ensures { result ≡ tag_in (head_seen self.now) }
    {
        if self.is_coded() {
            return Err(Why::Coding);
        }
        tag_of(self.fields.only(b"ETag"))
    }
}

fn tag_of(value: Option<&[u8]>) -> Result<Tag, Why>
    ensures { result ≡ tag_by_rows (option_copied value.entry) }
{
    match value {
        None => Err(Why::NoTag),
        Some(text) => kept_tag(text),
    }
}

fn kept_tag(text: &[u8]) -> Result<Tag, Why>
    ensures { result ≡ tag_by_rows (Some text.now) }
{
    if is_weak_tag(text) {
        return Err(Why::WeakTag);
    }
    if !is_opaque_tag(text) {
        return Err(Why::NoTag);
    }
    match Tag::new(text) {
        Some(tag) => Ok(tag),
        None => Err(Why::TagTooLong),
    }
}
