//! The heads of answers, as they are written.
use super::tags::tag_1;
use assertion_support::expect_eq;
use http_range::{Reply, write_head};
use std::alloc::Global;
use std::process::Abort;
use std::test::Fail;

pub const FIRST_HEAD: &[u8] =
    b"HTTP/1.1 206 Partial Content\r\nETag: \"1-1\"\r\nAccept-Ranges: bytes\r\nContent-Type: image/tiff\r\nContent-Range: bytes 0-65535/67706\r\nContent-Length: 65536\r\nConnection: close\r\n\r\n";

#[test]
fn writes_the_head_of_a_part(rt: HostRuntime) -> Result<(), Fail> {
    let text = write_head(rt.alloc(), &Reply::R206(tag_1()?, 0, 65535, 67706), true)?;
    assert_eq!(rt; text.as_slice(), FIRST_HEAD);
    expect_eq!(rt; FIRST_HEAD.len(), 171);
    Ok(())
}

const EMPTY: &str = "Content-Length: 0\r\n";

const TAG: &str = "ETag: \"1-1\"\r\n";

/// Returns the text of a head of this status, with these fields and a last one.
fn head_text(alloc: Global, status: &str, fields: &str, last: &str) -> Result<String, Fail> {
    Ok(format!(in alloc; "HTTP/1.1 {status}\r\n{fields}{last}\r\n")?)
}

/// Expects the status and the fields of a reply.
fn expect_head(
    rt: &(impl Abort + AllocGlobal),
    (reply, close): (&Reply, bool),
    status: &str,
    fields: &str,
) -> Result<(), Fail> {
    let text = write_head(rt.alloc(), reply, close)?;
    let last = if close { "Connection: close\r\n" } else { "" };
    let want = head_text(rt.alloc(), status, fields, last)?;
    assert_eq!(rt;
        str::from_utf8(&text),
        Ok(want.as_str()),
        "{status} {last:?}"
    );
    Ok(())
}

#[test]
fn writes_the_status_and_the_fields_of_each_reply(rt: HostRuntime) -> Result<(), Fail> {
    let whole = Reply::R200(tag_1()?, 378);
    let same = Reply::R304(tag_1()?);
    let rows: [(&Reply, bool, &str, &str); 9] = [
        (
            &whole,
            false,
            "200 OK",
            "ETag: \"1-1\"\r\nAccept-Ranges: bytes\r\nContent-Type: image/tiff\r\nContent-Length: 378\r\n",
        ),
        (&Reply::R400, true, "400 Bad Request", EMPTY),
        (&Reply::R404, false, "404 Not Found", EMPTY),
        (&Reply::R404, true, "404 Not Found", EMPTY),
        (
            &Reply::R405,
            false,
            "405 Method Not Allowed",
            "Allow: GET, HEAD\r\nContent-Length: 0\r\n",
        ),
        (&same, false, "304 Not Modified", TAG),
        (&same, true, "304 Not Modified", TAG),
        (&Reply::R412, false, "412 Precondition Failed", EMPTY),
        (
            &Reply::R416(378),
            false,
            "416 Range Not Satisfiable",
            "Content-Range: bytes */378\r\nContent-Length: 0\r\n",
        ),
    ];
    for (reply, close, status, fields) in rows {
        expect_head(&rt, (reply, close), status, fields)?;
    }
    Ok(())
}
