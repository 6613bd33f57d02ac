//! The cases of a request, by which the server chooses its answer. The section of RFC 9110 stands at each.
ghost use Rattle.std.specs.Prelude.{◌≡◌, ◌≤◌, ◌==◌, ◌&&◌, not, nat_eq, length, codes, option_copied};
ghost use Rattle.std.specs.List.{starts_with};
ghost use Rattle.std.specs.Str.{bytes_eq};
ghost use Rattle.http_range.specs.Response.{asks_close, announces_body, fails_precondition, is_unmodified, lets_range, range_to_serve, part_to_serve};
ghost use Rattle.http_fields.specs.Fields.{values_of};
ghost use Rattle.cog_server.specs.Additions.{is_preflight};
ghost use Rattle.cog_server.specs.Place.{IsInside};

use http_range::{Request, Resolved, Tag, read_range, resolve};

/// Returns whether the request asks that the connection end with the answer. A Connection field has `close` among its
/// members then (section 7.6.1; RFC 9112, section 9.6).
pub fn asks_close(request: &Request<'_>) -> bool
    ensures { result ≡ asks_close request.now }
{
    request.has_member(b"Connection", b"close")
}

/// Returns whether the minor version isn't that of HTTP/1.1, which is 1. The answer is 400 then (section 2.5).
pub fn has_other_version(request: &Request<'_>) -> bool
    ensures { result ≡ not (request.now.minor == 1) }
{
    request.minor() != 1
}

/// Returns whether there isn't exactly one Host field. The answer is 400 then (section 7.2; RFC 9112, section 3.2).
pub fn lacks_host(request: &Request<'_>) -> bool
    ensures { result ≡ not (length (values_of (codes "Host") request.now.fields) == 1) }
{
    request.only(b"Host").is_none()
}

/// Returns whether Content-Length or Transfer-Encoding announces a body. The answer is 400 then (section 8.6; RFC 9112,
/// section 6).
pub fn announces_body(request: &Request<'_>) -> bool
    ensures { result ≡ announces_body request.now }
{
    request.has(b"Content-Length") || request.has(b"Transfer-Encoding")
}

/// Returns whether the method is HEAD. The answer has no body then (section 9.3.2).
pub fn is_head(request: &Request<'_>) -> bool
    ensures { result ≡ bytes_eq request.now.method (codes "HEAD") }
{
    request.method() == b"HEAD".as_slice()
}

/// Returns whether the request is a preflight: it asks which requests a page may send (Fetch standard, section 3.3.2).
pub fn is_preflight(request: &Request<'_>) -> bool
    ensures { result ≡ is_preflight request.now }
{
    request.method() == b"OPTIONS".as_slice() && request.has(b"Access-Control-Request-Method")
}

/// Returns whether the method is neither GET nor HEAD. The answer is 405 then (sections 9.1 and 15.5.6).
pub fn has_other_method(request: &Request<'_>) -> bool
    ensures { result ≡ not (bytes_eq request.now.method (codes "GET")) && not (bytes_eq request.now.method (codes "HEAD")) }
{
    request.method() != b"GET".as_slice() && !is_head(request)
}

/// Returns whether the target isn't in origin form, a path that begins with `/`. The answer is 400 then (section 7.1;
/// RFC 9112, section 3.2.1).
pub fn lacks_origin_form(request: &Request<'_>) -> bool
    ensures { result ≡ not (starts_with nat_eq request.now.target (codes "/")) }
{
    !request.target().starts_with(b"/")
}

/// Returns whether there is an If-Match field, and none matches the ETag strongly. The answer is 412 then (section
/// 13.1.1).
pub fn fails_precondition(request: &Request<'_>, tag: &Tag) -> bool
    ensures { result ≡ fails_precondition request.now tag.now }
{
    request.has(b"If-Match") && !request.one_matches(b"If-Match", tag, true)
}

/// Returns whether an If-None-Match field matches the ETag weakly. The answer is 304 then (section 13.1.2).
pub fn is_unmodified(request: &Request<'_>, tag: &Tag) -> bool
    ensures { result ≡ is_unmodified request.now tag.now }
{
    request.one_matches(b"If-None-Match", tag, false)
}

/// Returns whether If-Range lets a range be served. There is no If-Range field, or exactly one, which is the ETag byte
/// for byte (section 13.1.5).
fn lets_range(request: &Request<'_>, tag: &Tag) -> bool
    ensures { result ≡ lets_range (values_of (codes "If-Range") request.now.fields) tag.now }
{
    match request.only(b"If-Range") {
        Some(value) => value == tag.as_bytes(),
        None => !request.has(b"If-Range"),
    }
}

/// Returns the value of the only Range field, where If-Range lets it be served (section 14.2).
fn range_to_serve<'b>(request: &Request<'b>, tag: &Tag) -> Option<&'b [u8]>
    ensures { option_copied result ≡ range_to_serve request.now tag.now }
{
    if lets_range(request, tag) {
        request.only(b"Range")
    } else {
        None
    }
}

/// Returns what the request asks for: a byte range of the file, or the whole of it (sections 14.1.2 and 14.2). The file
/// has `length` bytes and this ETag.
pub fn part_to_serve(request: &Request<'_>, tag: &Tag, length: u64) -> Resolved
    requires { 1 ≤ length }
    ensures part { result ≡ part_to_serve request.now tag.now length }
    ensures inside { IsInside result length }
{
    match range_to_serve(request, tag) {
        Some(value) => resolve(read_range(value), length),
        None => Resolved::Whole,
    }
}
