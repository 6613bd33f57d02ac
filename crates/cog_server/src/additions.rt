//! What options add to answers. These are the fields of the CORS protocol (Fetch standard, section 3.3), and a notice
//! that an answer is the last (RFC 9112, section 9.6).
ghost use Rattle.std.specs.Prelude.{◌≡◌, ◌++◌, ◌<◌, OnOk, codes, option_copied};
ghost use Rattle.std.specs.List.{flat_map};
ghost use Rattle.http_fields.specs.declared.limits.TheConstants.{ANSWERS_LIMIT};
ghost use Rattle.http_fields.specs.Text.{closing, head_with, line};
ghost use Rattle.http_range.specs.Reply.{fields_of, status_line};
ghost use Rattle.cog_server.specs.Additions.{answers_preflight, closes_by, origin_fields, preflight_fields, refuses_method};
ghost use Rattle.cog_server.specs.Prepared.{response_of};
ghost use Rattle.cog_server.specs.Service.{added_of};

use crate::placed::Prepared;
use http_fields::line::{push_closing, push_line};
use http_range::{ANSWERS_LIMIT, Memory, Reply, append_head};
use std::alloc::AllocError;

/// The line that ends a head.
const EMPTY_LINE: &[u8] = b"\r\n";

/// What options add to a server's answers.
#[derive(Clone, Copy, Debug)]
pub struct Additions<'a> {
    /// The origin whose pages may read the answers in a browser. `*` stands for each origin.
    pub origin: Option<&'a [u8]>,
    /// Whether the hundredth answer of a connection says `Connection: close`.
    pub announces_last: bool,
}

impl Additions<'_> {
    ghost use Rattle.std.specs.Prelude.{◌≡◌};
    ghost use Rattle.cog_server.specs.Additions.{nothing_added};
    ghost use Rattle.cog_server.specs.Service.{added_of};

    /// Returns additions that add nothing.
    pub fn nothing() -> Self
        ensures { added_of result ≡ nothing_added }
    {
        Additions {
            origin: None,
            announces_last: false,
        }
    }
}

/// Returns whether a connection ends with an answer after `count` answers. `close` is whether it ends by what is asked.
pub fn closes_by(additions: Additions<'_>, count: usize, close: bool) -> bool
    requires { count < ANSWERS_LIMIT }
    ensures { result ≡ closes_by (added_of additions.entry) count close }
{
    close || (additions.announces_last && count + 1 == ANSWERS_LIMIT)
}

/// Returns whether a reply is 405, which refuses the method (RFC 9110, section 15.5.6).
fn refuses_method(reply: &Reply) -> bool
    ensures { result ≡ refuses_method reply.now }
{
    matches!(reply, Reply::R405)
}

/// Returns whether a preflight is answered instead of `prepared`.
pub fn answers_preflight(additions: Additions<'_>, prepared: &Prepared<'_>) -> bool
    ensures { result ≡ answers_preflight (added_of additions.entry) prepared.now.is_preflight (response_of prepared.now) }
{
    additions.origin.is_some() && prepared.is_preflight && refuses_method(&prepared.reply)
}

/// Adds the fields that say whose pages may read an answer. Fails where an allocation fails.
fn push_origin(out: &mut Vec<u8>, origin: Option<&[u8]>) -> Result<(), AllocError>
    ensures { OnOk result (out.new.items ≡ out.old.items ++ flat_map line (origin_fields (option_copied origin.entry))) }
{
    let Some(origin) = origin else {
        return Ok(());
    };
    push_line(out, b"Access-Control-Allow-Origin", origin)?;
    if origin != b"*".as_slice() {
        push_line(out, b"Vary", b"Origin")?;
    }
    push_line(
        out,
        b"Access-Control-Expose-Headers",
        b"ETag, Content-Range, Content-Length, Accept-Ranges",
    )?;
    Ok(())
}

/// Adds what follows the own fields of an answer, up to the end of its head. Fails where an allocation fails.
fn push_end(out: &mut Vec<u8>, additions: Additions<'_>, close: bool) -> Result<(), AllocError>
    ensures { OnOk result (out.new.items ≡ out.old.items
        ++ (flat_map line (origin_fields (option_copied additions.entry.origin) ++ closing close) ++ codes "\r\n")) }
{
    push_origin(out, additions.origin)?;
    push_closing(out, close)?;
    out.extend_from_slice(EMPTY_LINE)?;
    Ok(())
}

/// Adds the head of an answer to `out`. The added fields follow the answer's own. Fails with `Memory` alone.
pub fn push_head(
    out: &mut Vec<u8>,
    reply: &Reply,
    additions: Additions<'_>,
    close: bool,
) -> Result<(), Memory>
    ensures { OnOk result (out.new.items ≡ out.old.items ++ head_with (status_line reply.now)
        (fields_of reply.now ++ (origin_fields (option_copied additions.entry.origin) ++ closing close))) }
{
    append_head(out, reply, false)?;
    out.truncate(out.len().saturating_sub(EMPTY_LINE.len()));
    push_end(out, additions, close)?;
    Ok(())
}

/// Adds the head of the answer to a preflight to `out`. Fails with `Memory` alone.
pub fn push_preflight(
    out: &mut Vec<u8>,
    additions: Additions<'_>,
    close: bool,
) -> Result<(), Memory>
    ensures { OnOk result (out.new.items ≡ out.old.items ++ head_with (codes "HTTP/1.1 204 No Content")
        (preflight_fields ++ (origin_fields (option_copied additions.entry.origin) ++ closing close))) }
{
    out.extend_from_slice(b"HTTP/1.1 204 No Content\r\n")?;
    push_line(out, b"Access-Control-Allow-Methods", b"GET, HEAD")?;
    push_line(
        out,
        b"Access-Control-Allow-Headers",
        b"Range, If-Range, If-Match, If-None-Match",
    )?;
    push_line(out, b"Access-Control-Max-Age", b"86400")?;
    push_end(out, additions, close)?;
    Ok(())
}
