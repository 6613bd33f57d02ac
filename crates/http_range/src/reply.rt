//! A server's answers.
ghost use Rattle.std.specs.Prelude.{◌≡◌, ◌+◌, ◌-◌, IfOk, OnOk, ◌++◌, codes, decimal};
ghost use Rattle.std.specs.List.{flat_map};
ghost use Rattle.http_fields.specs.Text.{line};
ghost use Rattle.http_range.specs.Reply.{file_fields, content_range, fields_of, head_text, status_line};

use extents::Memory;
use http_fields::line::{push_closing, push_decimal, push_line, push_number_line};
use http_fields::tag::Tag;
use std::alloc::{AllocError, Global};

/// What a server answers: a status code with what its head says. Lengths and positions are in bytes.
#[derive(Debug, Drop)]
pub enum Reply {
    /// The whole file. Its ETag and its length.
    R200(Tag, u64),
    /// A byte range of a file. Its ETag, the first and the last position, and the length of the file.
    R206(Tag, u64, u64, u64),
    /// The client has the file with this ETag already.
    R304(Tag),
    /// What came is no request that is answered.
    R400,
    /// No file is published under the name.
    R404,
    /// The method is neither GET nor HEAD.
    R405,
    /// The file has none of the ETags that the client named.
    R412,
    /// No byte of a file of this length was asked for.
    R416(u64),
}

/// Returns the head of an answer, with the empty line at its end. `close` says whether the connection ends with the
/// answer. Fails with `Memory` alone.
pub fn write_head(alloc: Global, reply: &Reply, close: bool) -> Result<Vec<u8>, Memory>
    ensures { IfOk result (λ text. text.items ≡ head_text reply.now close) }
{
    let mut text = Vec::new(alloc);
    append_head(&mut text, reply, close)?;
    Ok(text)
}

/// Adds the head of an answer to `text`, with the empty line at its end. Fails with `Memory` alone. Then it isn't said
/// what `text` holds.
pub fn append_head(text: &mut Vec<u8>, reply: &Reply, close: bool) -> Result<(), Memory>
    ensures { OnOk result (text.new.items ≡ text.old.items ++ head_text reply.now close) }
{
    text.extend_from_slice(status_line(reply))?;
    text.extend_from_slice(b"\r\n")?;
    push_fields(text, reply)?;
    push_closing(text, close)?;
    text.extend_from_slice(b"\r\n")?;
    Ok(())
}

fn status_line(reply: &Reply) -> &'static [u8]
    ensures { result.now ≡ status_line reply.now }
{
    match reply {
        Reply::R200(_, _) => b"HTTP/1.1 200 OK",
        Reply::R206(_, _, _, _) => b"HTTP/1.1 206 Partial Content",
        Reply::R304(_) => b"HTTP/1.1 304 Not Modified",
        Reply::R400 => b"HTTP/1.1 400 Bad Request",
        Reply::R404 => b"HTTP/1.1 404 Not Found",
        Reply::R405 => b"HTTP/1.1 405 Method Not Allowed",
        Reply::R412 => b"HTTP/1.1 412 Precondition Failed",
        Reply::R416(_) => b"HTTP/1.1 416 Range Not Satisfiable",
    }
}

fn push_fields(out: &mut Vec<u8>, reply: &Reply) -> Result<(), AllocError>
    ensures { OnOk result (out.new.items ≡ out.old.items ++ flat_map line (fields_of reply.now)) }
{
    match reply {
        Reply::R200(tag, length) => push_200(out, tag, *length),
        Reply::R206(tag, first, last, length) => push_206(out, tag, *first, *last, *length),
        Reply::R304(tag) => push_tag(out, tag),
        Reply::R400 => push_empty(out),
        Reply::R404 => push_empty(out),
        Reply::R405 => push_405(out),
        Reply::R412 => push_empty(out),
        Reply::R416(length) => push_416(out, *length),
    }
}

fn push_200(out: &mut Vec<u8>, tag: &Tag, length: u64) -> Result<(), AllocError>
    ensures { OnOk result (out.new.items ≡ out.old.items ++ flat_map line (fields_of (Reply.R200 tag.now length))) }
{
    push_file(out, tag)?;
    push_number_line(out, b"Content-Length", length as u128)?;
    Ok(())
}

fn push_206(
    out: &mut Vec<u8>,
    tag: &Tag,
    first: u64,
    last: u64,
    length: u64,
) -> Result<(), AllocError>
    ensures { OnOk result (out.new.items
        ≡ out.old.items ++ flat_map line (fields_of (Reply.R206 tag.now first last length))) }
{
    push_file(out, tag)?;
    push_content_range(out, first, last, length)?;
    push_number_line(out, b"Content-Length", part_size(first, last))?;
    Ok(())
}

/// Returns the number of bytes from a first to a last position.
fn part_size(first: u64, last: u64) -> u128
    ensures { result ≡ last - first + 1 }
{
    last.saturating_sub(first) as u128 + 1
}

fn push_empty(out: &mut Vec<u8>) -> Result<(), AllocError>
    ensures { OnOk result (out.new.items ≡ out.old.items ++ flat_map line (fields_of Reply.R400)) }
{
    push_number_line(out, b"Content-Length", 0)?;
    Ok(())
}

fn push_405(out: &mut Vec<u8>) -> Result<(), AllocError>
    ensures { OnOk result (out.new.items ≡ out.old.items ++ flat_map line (fields_of Reply.R405)) }
{
    push_line(out, b"Allow", b"GET, HEAD")?;
    push_number_line(out, b"Content-Length", 0)?;
    Ok(())
}

fn push_416(out: &mut Vec<u8>, length: u64) -> Result<(), AllocError>
    ensures { OnOk result (out.new.items ≡ out.old.items ++ flat_map line (fields_of (Reply.R416 length))) }
{
    push_unsatisfied(out, length)?;
    push_number_line(out, b"Content-Length", 0)?;
    Ok(())
}

fn push_tag(out: &mut Vec<u8>, tag: &Tag) -> Result<(), AllocError>
    ensures { OnOk result (out.new.items ≡ out.old.items ++ flat_map line (fields_of (Reply.R304 tag.now))) }
{
    push_line(out, b"ETag", tag.as_bytes())?;
    Ok(())
}

fn push_file(out: &mut Vec<u8>, tag: &Tag) -> Result<(), AllocError>
    ensures { OnOk result (out.new.items ≡ out.old.items ++ flat_map line (file_fields tag.now)) }
{
    push_line(out, b"ETag", tag.as_bytes())?;
    push_line(out, b"Accept-Ranges", b"bytes")?;
    push_line(out, b"Content-Type", b"image/tiff")?;
    Ok(())
}

#[tactic(auto, unfolding(http_fields::specs::Text::line, crate::specs::Reply::content_range))]
fn push_content_range(
    out: &mut Vec<u8>,
    first: u64,
    last: u64,
    length: u64,
) -> Result<(), AllocError>
    ensures { OnOk result (out.new.items
        ≡ out.old.items ++ line (codes "Content-Range", content_range first last length)) }
{
    out.extend_from_slice(b"Content-Range: bytes ")?;
    push_decimal(out, first)?;
    out.extend_from_slice(b"-")?;
    push_decimal(out, last)?;
    out.extend_from_slice(b"/")?;
    push_decimal(out, length)?;
    out.extend_from_slice(b"\r\n")?;
    Ok(())
}

#[tactic(auto, unfolding(http_fields::specs::Text::line))]
fn push_unsatisfied(out: &mut Vec<u8>, length: u64) -> Result<(), AllocError>
    ensures { OnOk result (out.new.items
        ≡ out.old.items ++ line (codes "Content-Range", codes "bytes */" ++ decimal length)) }
{
    out.extend_from_slice(b"Content-Range: bytes */")?;
    push_decimal(out, length)?;
    out.extend_from_slice(b"\r\n")?;
    Ok(())
}
