//! The head of a request that came (RFC 9112, section 3).
ghost use Rattle.std.specs.Prelude.{◌≡◌, ℕ, Bool, List, Option, ◌++◌, slice_get, option_copied, Some};
ghost use Rattle.std.specs.List.{list_any};
ghost use Rattle.http_fields.specs.Fields.{values_of, only, is_there};
ghost use Rattle.http_fields.specs.Members.{has_member};
ghost use Rattle.http_fields.specs.Conditional.{one_matches};
ghost use Rattle.http_range.specs.Seen.{HasRequest};
ghost use Rattle.http_range.specs.Ask.{CanAsk, CanCheck, check_with, checked_request, request_with, asked_request};
ghost use Rattle.http_fields.specs.Text.{FieldLine};

use http_fields::bytes::up_to;
use http_fields::fields::HeaderFields;
use http_fields::laws::law_parts_are_read;
use http_fields::limits::{FIELD_LIMIT, MESSAGE_LIMIT};
use http_fields::tag::Tag;
use httparse::Status;
use httparse::spans::{EMPTY_HEADER_SPAN, parse_request};
use std::marker::Model;

/// The head of a request. Its parts are borrowed from the message, and contracts see it as these parts.
#[derive(Drop)]
pub struct Request<'b> {
    method: &'b [u8],
    target: &'b [u8],
    minor: u8,
    fields: HeaderFields<'b>,
}

impl<'b> Model for Request<'b> {
    ghost use Rattle.http_range.specs.Seen.{SeenRequest};

    ghost Value = { SeenRequest };

    ghost use Rattle.http_range.specs.Request.{request_view};

    ghost view = { request_view };
}

impl<'b> Request<'b> {
    /// Returns the method, whose case matters.
    pub fn method(&self) -> &'b [u8]
        ensures { result.now ≡ self.now.method }
    {
        self.method
    }

    /// Returns the request target, as it was sent.
    pub fn target(&self) -> &'b [u8]
        ensures { result.now ≡ self.now.target }
    {
        self.target
    }

    /// Returns the minor version: 1 in HTTP/1.1.
    pub fn minor(&self) -> u8
        ensures { result ≡ self.now.minor }
    {
        self.minor
    }

    /// Returns the value of the `i`-th field `name`, counted from 0, or `None`. The case of names is ignored.
    pub fn field(&self, name: &[u8], i: usize) -> Option<&'b [u8]>
        ensures { option_copied result ≡ slice_get (values_of name.now self.now.fields) i }
    {
        self.fields.nth(name, i)
    }

    /// Returns the value of the only field `name`. Returns `None` where there is none, or more than one.
    pub fn only(&self, name: &[u8]) -> Option<&'b [u8]>
        ensures { option_copied result ≡ only (values_of name.now self.now.fields) }
    {
        self.fields.only(name)
    }

    /// Returns whether there is a field `name`.
    pub fn has(&self, name: &[u8]) -> bool
        ensures { result ≡ is_there (values_of name.now self.now.fields) }
    {
        self.fields.has(name)
    }

    /// Returns whether a field `name` has `word` among its members. Case is ignored.
    pub fn has_member(&self, name: &[u8], word: &[u8]) -> bool
        ensures { result ≡ list_any (has_member word.now) (values_of name.now self.now.fields) }
    {
        self.fields.has_member(name, word)
    }

    /// Returns whether a field `name` matches the ETag, as `any_match` says of its value.
    pub fn one_matches(&self, name: &[u8], tag: &Tag, strong: bool) -> bool
        ensures { result ≡ one_matches (values_of name.now self.now.fields) tag.now strong }
    {
        self.fields.one_matches(name, tag, strong)
    }
}

/// Returns the head at the front of a message. Returns `None` where no front of at most 8,192 bytes is a head of at
/// most 32 fields.
pub fn read_request(bytes: &[u8]) -> Option<Request<'_>>
    ensures finds { HasRequest bytes.now result }

    // The text of a client's request is read as what was asked, whatever follows it.
    ensures asked { (close : Bool) (host name : List ℕ) (extra : List FieldLine) (first last : ℕ) (tag : Option (List ℕ)) (more : List ℕ)
        → CanAsk host name extra first last tag
        → bytes.now ≡ request_with close host name extra first last tag ++ more
        → result ≡ Some (asked_request close host name extra first last tag) }

    // And so is the text of its check.
    ensures checked { (host name : List ℕ) (extra : List FieldLine) (tag more : List ℕ) → CanCheck host name extra tag
        → bytes.now ≡ check_with host name extra tag ++ more
        → result ≡ Some (checked_request host name extra tag) }
{
    law_parts_are_read();
    find(bytes)
}

fn find(bytes: &[u8]) -> Option<Request<'_>>
    ensures { HasRequest bytes.now result }
{
    let front = up_to(bytes, MESSAGE_LIMIT as u64);
    let mut spans = [EMPTY_HEADER_SPAN; FIELD_LIMIT];
    match parse_request(front, &mut spans) {
        Ok(Status::Complete(head)) => Some(Request {
            method: head.method.of(front),
            target: head.path.of(front),
            minor: head.version,
            fields: HeaderFields::new(front, spans, head.headers),
        }),
        _ => None,
    }
}
