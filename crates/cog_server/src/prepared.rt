//! The answer to a message, before its text is written.
ghost use Rattle.std.specs.Prelude.{◌≡◌, ◌≤◌, None, Some, false, length, map, slice_range};
ghost use Rattle.std.specs.Rc.{rc_slice_items};
ghost use Rattle.http_range.specs.Reply.{status_of};
ghost use Rattle.http_range.specs.Response.{answer_by, refused, serve_file, serve_part};
ghost use Rattle.cog_server.specs.Catalogue.{publication};
ghost use Rattle.cog_server.specs.Place.{IsInside};
ghost use Rattle.cog_server.specs.Prepared.{IsPrepared, response_of};
ghost use Rattle.cog_server.specs.Status.{tag_of};

use crate::cases::{
    announces_body, asks_close, fails_precondition, has_other_method, has_other_version, is_head,
    is_preflight, is_unmodified, lacks_host, lacks_origin_form, part_to_serve,
};
use crate::catalogue::find_file;
use crate::placed::Prepared;
use crate::published::Published;
use http_fields::bytes::past;
use http_range::{Reply, Request, Resolved, read_request};

/// Returns the status code of a reply.
pub fn status(reply: &Reply) -> u16
    ensures { result ≡ status_of reply.now }
{
    match reply {
        Reply::R200(_, _) => 200,
        Reply::R206(_, _, _, _) => 206,
        Reply::R304(_) => 304,
        Reply::R400 => 400,
        Reply::R404 => 404,
        Reply::R405 => 405,
        Reply::R412 => 412,
        Reply::R416(_) => 416,
    }
}

/// Returns the answer to the head at the front of a message.
pub fn prepare<'f>(files: &'f [Published], message: &[u8]) -> Prepared<'f>
    ensures { IsPrepared (map publication files.now) message.now result }
{
    match read_request(message) {
        None => refuse(Reply::R400, true),
        Some(request) => {
            let mut prepared = answer_request(files, &request);
            prepared.is_preflight = is_preflight(&request);
            prepared
        }
    }
}

/// Returns an answer without a body and without an ETag.
fn refuse<'f>(reply: Reply, close: bool) -> Prepared<'f>
    requires { tag_of reply ≡ None }
    ensures answer { response_of result ≡ refused reply close }
    ensures preflight { result.is_preflight ≡ false }
{
    Prepared {
        reply,
        close,
        name: None,
        body: &[],
        file: None,
        first: 0,
        end: 0,
        tag: None,
        is_preflight: false,
    }
}

fn answer_request<'f>(files: &'f [Published], request: &Request<'_>) -> Prepared<'f>
    ensures { response_of result ≡ answer_by (map publication files.now) (Some request.now) }
{
    if has_other_version(request) || lacks_host(request) || announces_body(request) {
        return refuse(Reply::R400, true);
    }
    if has_other_method(request) {
        return refuse(Reply::R405, asks_close(request));
    }
    if lacks_origin_form(request) {
        return refuse(Reply::R400, true);
    }
    match find_file(files, past(request.target(), 1)) {
        None => refuse(Reply::R404, asks_close(request)),
        Some(file) => serve_file(file, request),
    }
}

/// Returns the answer to a request for a file that the server has.
fn serve_file<'f>(file: &'f Published, request: &Request<'_>) -> Prepared<'f>
    ensures { response_of result ≡ serve_file (Some (publication file.now)) request.now }
{
    let close = asks_close(request);
    if fails_precondition(request, &file.tag) {
        return refuse(Reply::R412, close);
    }
    if is_unmodified(request, &file.tag) {
        return serve(file, Reply::R304(file.tag.copy()), close, 0, 0);
    }
    let length = file.file.len() as u64;
    if is_head(request) {
        return serve(file, Reply::R200(file.tag.copy(), length), close, 0, 0);
    }
    serve_part(file, part_to_serve(request, &file.tag, length), close)
}

/// Returns an answer that carries the file's ETag, with its bytes from place `first` on and before `end`.
fn serve<'f>(
    file: &'f Published,
    reply: Reply,
    close: bool,
    first: usize,
    end: usize,
) -> Prepared<'f>
    requires some { first ≤ end }
    requires inside { end ≤ length (rc_slice_items file.now.file) }
    requires tag { tag_of reply ≡ Some file.now.tag }
    ensures { response_of result ≡ record {
      reply = reply;
      close = close;
      name = Some file.now.name.items;
      body = slice_range (rc_slice_items file.now.file) first end;
    } }
{
    Prepared {
        reply,
        close,
        name: Some(&file.name),
        body: &file.file[first..end],
        file: Some(&file.file),
        first,
        end,
        tag: Some(&file.tag),
        is_preflight: false,
    }
}

/// Returns the byte range that was asked for, or the whole file.
fn serve_part<'f>(file: &'f Published, part: Resolved, close: bool) -> Prepared<'f>
    requires { IsInside part (length (rc_slice_items file.now.file)) }
    ensures { response_of result ≡ serve_part part (publication file.now) close }
{
    let length = file.file.len() as u64;
    match part {
        Resolved::Whole => serve(
            file,
            Reply::R200(file.tag.copy(), length),
            close,
            0,
            file.file.len(),
        ),
        Resolved::Part(first, last) => serve(
            file,
            Reply::R206(file.tag.copy(), first, last, length),
            close,
            first as usize,
            last as usize + 1,
        ),
        Resolved::Unsatisfiable => refuse(Reply::R416(length), close),
    }
}
