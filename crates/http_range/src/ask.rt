//! A client's requests.
ghost use Rattle.std.specs.Prelude.{◌≡◌, ◌++◌, true, false, IfOk, OnOk, codes, option_map};
ghost use Rattle.std.specs.List.{flat_map};
ghost use Rattle.http_fields.specs.Text.{closing, line};
ghost use Rattle.http_range.specs.Ask.{request_by, request_with, request_line, range_value, if_range, check_text, check_with};

use extents::{Memory, Span};
use http_fields::line::{push_closing, push_decimal, push_line};
use http_fields::request_fields::RequestFields;
use http_fields::tag::Tag;
use std::alloc::{AllocError, Global};

/// Returns the text of a request for the bytes of `span` of the file `name` at `host`. With `tag` it asks for them if
/// the file still has this ETag, and else for the whole file (RFC 9110, sections 13.1.5 and 14.2). It asks that the
/// connection end with the answer. Fails with `Memory` alone.
pub fn write_request(
    alloc: Global,
    host: &[u8],
    name: &[u8],
    span: Span,
    tag: Option<&Tag>,
) -> Result<Vec<u8>, Memory>
    ensures { IfOk result (λ text. text.items
        ≡ request_by true host.now name.now span.first span.last (option_map (λ t. t.now) tag.entry)) }
{
    let none = RequestFields::new(alloc);
    write_request_with(alloc, host, name, &none, span, tag, true)
}

/// Returns the same text without the field that ends the connection (RFC 9112, section 9.3). Another request may follow
/// it there. Fails with `Memory` alone.
pub fn write_open_request(
    alloc: Global,
    host: &[u8],
    name: &[u8],
    span: Span,
    tag: Option<&Tag>,
) -> Result<Vec<u8>, Memory>
    ensures { IfOk result (λ text. text.items
        ≡ request_by false host.now name.now span.first span.last (option_map (λ t. t.now) tag.entry)) }
{
    let none = RequestFields::new(alloc);
    write_request_with(alloc, host, name, &none, span, tag, false)
}

/// Returns the text of such a request with the lines of `fields` after If-Range. `host` may be the host and the port of a
/// URL, and `name` its path and query without the first `/`. `close` says whether the request asks that the connection end
/// with the answer. Fails with `Memory` alone.
pub fn write_request_with(
    alloc: Global,
    host: &[u8],
    name: &[u8],
    fields: &RequestFields,
    span: Span,
    tag: Option<&Tag>,
    close: bool,
) -> Result<Vec<u8>, Memory>
    ensures { IfOk result (λ text. text.items
        ≡ request_with close host.now name.now fields.now span.first span.last (option_map (λ t. t.now) tag.entry)) }
{
    let mut text = Vec::new(alloc);
    push_request_line(&mut text, b"GET", name)?;
    text.extend_from_slice(b"\r\n")?;
    push_line(&mut text, b"Host", host)?;
    push_range(&mut text, span.first, span.last)?;
    push_rest(&mut text, tag, fields, close)?;
    Ok(text)
}

/// Returns the text of a check whether the file `name` at `host` still has the ETag `tag` (RFC 9110, section 13.1.2).
/// Fails with `Memory` alone.
pub fn write_check(alloc: Global, host: &[u8], name: &[u8], tag: &Tag) -> Result<Vec<u8>, Memory>
    ensures { IfOk result (λ text. text.items ≡ check_text host.now name.now tag.now) }
{
    let none = RequestFields::new(alloc);
    write_check_with(alloc, host, name, &none, tag)
}

/// Returns the text of such a check with the lines of `fields` after If-None-Match. `host` and `name` may be as in
/// `write_request_with`. Fails with `Memory` alone.
pub fn write_check_with(
    alloc: Global,
    host: &[u8],
    name: &[u8],
    fields: &RequestFields,
    tag: &Tag,
) -> Result<Vec<u8>, Memory>
    ensures { IfOk result (λ text. text.items ≡ check_with host.now name.now fields.now tag.now) }
{
    let mut text = Vec::new(alloc);
    push_request_line(&mut text, b"HEAD", name)?;
    text.extend_from_slice(b"\r\n")?;
    push_line(&mut text, b"Host", host)?;
    push_if_none_match(&mut text, tag)?;
    push_last_lines(&mut text, fields, true)?;
    Ok(text)
}

/// Adds the condition on the ETag `tag`, and then what `push_last_lines` adds.
fn push_rest(
    out: &mut Vec<u8>,
    tag: Option<&Tag>,
    fields: &RequestFields,
    close: bool,
) -> Result<(), AllocError>
    ensures { OnOk result (out.new.items ≡ out.old.items
        ++ (flat_map line (if_range (option_map (λ t. t.now) tag.entry) ++ (fields.now ++ closing close)) ++ codes "\r\n")) }
{
    push_if_range(out, tag)?;
    push_last_lines(out, fields, close)?;
    Ok(())
}

/// Adds the lines of `fields`, the field that ends the connection where `close` says so, and the empty line.
fn push_last_lines(out: &mut Vec<u8>, fields: &RequestFields, close: bool) -> Result<(), AllocError>
    ensures { OnOk result (out.new.items
        ≡ out.old.items ++ (flat_map line (fields.now ++ closing close) ++ codes "\r\n")) }
{
    fields.write(out)?;
    push_closing(out, close)?;
    out.extend_from_slice(b"\r\n")?;
    Ok(())
}

fn push_request_line(out: &mut Vec<u8>, method: &[u8], name: &[u8]) -> Result<(), AllocError>
    ensures { OnOk result (out.new.items ≡ out.old.items ++ request_line method.now name.now) }
{
    out.extend_from_slice(method)?;
    out.extend_from_slice(b" /")?;
    out.extend_from_slice(name)?;
    out.extend_from_slice(b" HTTP/1.1")?;
    Ok(())
}

#[tactic(auto, unfolding(http_fields::specs::Text::line, crate::specs::Ask::range_value))]
fn push_range(out: &mut Vec<u8>, first: u64, last: u64) -> Result<(), AllocError>
    ensures { OnOk result (out.new.items ≡ out.old.items ++ line (codes "Range", range_value first last)) }
{
    out.extend_from_slice(b"Range: bytes=")?;
    push_decimal(out, first)?;
    out.extend_from_slice(b"-")?;
    push_decimal(out, last)?;
    out.extend_from_slice(b"\r\n")?;
    Ok(())
}

fn push_if_range(out: &mut Vec<u8>, tag: Option<&Tag>) -> Result<(), AllocError>
    ensures { OnOk result (out.new.items
        ≡ out.old.items ++ flat_map line (if_range (option_map (λ t. t.now) tag.entry))) }
{
    match tag {
        None => Ok(()),
        Some(tag) => {
            push_line(out, b"If-Range", tag.as_bytes())?;
            Ok(())
        }
    }
}

fn push_if_none_match(out: &mut Vec<u8>, tag: &Tag) -> Result<(), AllocError>
    ensures { OnOk result (out.new.items ≡ out.old.items ++ line (codes "If-None-Match", tag.now)) }
{
    push_line(out, b"If-None-Match", tag.as_bytes())?;
    Ok(())
}
