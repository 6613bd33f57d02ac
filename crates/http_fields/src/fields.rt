//! The field lines of a head, by name. The case of names is ignored (RFC 9110, sections 5.1 and 5.6.1).
ghost use Rattle.std.specs.Prelude.{◌≡◌, ◌≤◌, slice_get, option_copied, length, take};
ghost use Rattle.std.specs.List.{list_any};
ghost use Rattle.http_fields.specs.Fields.{values_of, only, is_there, fields_at, AreWithin, is_named};
ghost use Rattle.http_fields.specs.Members.{has_member};
ghost use Rattle.http_fields.specs.Conditional.{one_matches};
ghost use Rattle.httparse.specs.Spans.{IsHeaderWithin, header_bytes};

use crate::bytes::is_same_word;
use crate::conditional::any_match;
use crate::limits::FIELD_LIMIT;
use crate::members::has_member;
use crate::tag::Tag;
use httparse::spans::HeaderSpan;
use std::marker::Model;

/// The field lines of a head. Names and values are borrowed from its bytes, and contracts see it as the list of field
/// lines.
#[derive(Drop)]
pub struct HeaderFields<'b> {
    bytes: &'b [u8],
    spans: [HeaderSpan; FIELD_LIMIT],
    count: usize,
}

impl<'b> Model for HeaderFields<'b> {
    ghost use Rattle.std.specs.Prelude.{List};
    ghost use Rattle.http_fields.specs.Text.{FieldLine};
    ghost use Rattle.http_fields.specs.FieldLines.{lines_view, IsLinesInside};

    ghost Value = { List FieldLine };

    ghost view = { lines_view };

    ghost invariant = { IsLinesInside };
}

impl<'b> HeaderFields<'b> {
    /// Returns the first `count` field lines. The spans lie in the bytes.
    pub fn new(bytes: &'b [u8], spans: [HeaderSpan; FIELD_LIMIT], count: usize) -> HeaderFields<'b>
        requires room { count ≤ FIELD_LIMIT }
        requires within { AreWithin bytes.now (take count spans) }
        ensures { result ≡ fields_at bytes.entry.now (take count spans) }
    {
        HeaderFields {
            bytes,
            spans,
            count,
        }
    }

    /// Returns the value of the `i`-th field `name`, counted from 0, or `None`.
    pub fn nth(&self, name: &[u8], i: usize) -> Option<&'b [u8]>
        ensures { option_copied result ≡ slice_get (values_of name.now self.now) i }
    {
        nth_value(self.bytes, &self.spans[..self.count], name, i)
    }

    /// Returns the value of the only field `name`. Returns `None` where there is none, or more than one.
    pub fn only(&self, name: &[u8]) -> Option<&'b [u8]>
        ensures { option_copied result ≡ only (values_of name.now self.now) }
    {
        only_value(self.bytes, &self.spans[..self.count], name)
    }

    /// Returns whether there is a field `name`.
    pub fn has(&self, name: &[u8]) -> bool
        ensures { result ≡ is_there (values_of name.now self.now) }
    {
        self.nth(name, 0).is_some()
    }

    /// Returns whether a field `name` has `word` among its members. The case of members is ignored.
    pub fn has_member(&self, name: &[u8], word: &[u8]) -> bool
        ensures { result ≡ list_any (has_member word.now) (values_of name.now self.now) }
    {
        any_has_member(self.bytes, &self.spans[..self.count], name, word)
    }

    /// Returns whether a field `name` matches the ETag, as `any_match` says of its value.
    pub fn one_matches(&self, name: &[u8], tag: &Tag, strong: bool) -> bool
        ensures { result ≡ one_matches (values_of name.now self.now) tag.now strong }
    {
        one_value_matches(self.bytes, &self.spans[..self.count], name, tag, strong)
    }
}

fn is_named(bytes: &[u8], span: HeaderSpan, name: &[u8]) -> bool
    requires { IsHeaderWithin (length bytes.now) span }
    ensures { result ≡ is_named name.now (header_bytes bytes.now span) }
{
    is_same_word(span.name.of(bytes), name)
}

fn nth_value<'b>(bytes: &'b [u8], spans: &[HeaderSpan], name: &[u8], i: usize) -> Option<&'b [u8]>
    requires { AreWithin bytes.now spans.now }
    ensures { option_copied result ≡ slice_get (values_of name.now (fields_at bytes.now spans.now)) i }
{
    let mut left = i;
    for span in spans {
        if is_named(bytes, *span, name) {
            if left == 0 {
                return Some(span.value.of(bytes));
            }
            left -= 1;
        }
    }
    None
}

fn only_value<'b>(bytes: &'b [u8], spans: &[HeaderSpan], name: &[u8]) -> Option<&'b [u8]>
    requires { AreWithin bytes.now spans.now }
    ensures { option_copied result ≡ only (values_of name.now (fields_at bytes.now spans.now)) }
{
    let first = nth_value(bytes, spans, name, 0)?;
    if nth_value(bytes, spans, name, 1).is_some() {
        return None;
    }
    Some(first)
}

fn any_has_member(bytes: &[u8], spans: &[HeaderSpan], name: &[u8], word: &[u8]) -> bool
    requires { AreWithin bytes.now spans.now }
    ensures { result ≡ list_any (has_member word.now) (values_of name.now (fields_at bytes.now spans.now)) }
{
    for span in spans {
        if is_named(bytes, *span, name) {
            if has_member(span.value.of(bytes), word) {
                return true;
            }
        }
    }
    false
}

fn one_value_matches(
    bytes: &[u8],
    spans: &[HeaderSpan],
    name: &[u8],
    tag: &Tag,
    strong: bool,
) -> bool
    requires { AreWithin bytes.now spans.now }
    ensures { result ≡ one_matches (values_of name.now (fields_at bytes.now spans.now)) tag.now strong }
{
    for span in spans {
        if is_named(bytes, *span, name) {
            if any_match(span.value.of(bytes), tag, strong) {
                return true;
            }
        }
    }
    false
}
