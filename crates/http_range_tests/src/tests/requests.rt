//! Requests of a client, and what is read of requests.
use super::tags::tag_1;
use assertion_support::expect_eq;
use http_range::{Request, Span, Tag, read_request, write_open_request, write_request};
use std::process::Abort;
use std::test::Fail;

const FIRST_REQUEST: &[u8] =
    b"GET /a HTTP/1.1\r\nHost: cog.test\r\nRange: bytes=0-65535\r\nConnection: close\r\n\r\n";

const OPEN_REQUEST: &[u8] = b"GET /a HTTP/1.1\r\nHost: cog.test\r\nRange: bytes=0-65535\r\n\r\n";

const SECOND_REQUEST: &[u8] =
    b"GET /a HTTP/1.1\r\nHost: cog.test\r\nRange: bytes=65536-67705\r\nIf-Range: \"1-1\"\r\nConnection: close\r\n\r\n";

const FIRST: Span = Span {
    first: 0,
    last: 65535,
};

const SECOND: Span = Span {
    first: 65536,
    last: 67705,
};

/// Returns the request that is read.
pub fn request_of(bytes: &[u8]) -> Result<Request<'_>, Fail> {
    match read_request(bytes) {
        Some(request) => Ok(request),
        None => Err(Fail::from("no request")),
    }
}

/// Expects the text of a request for the first bytes.
fn expect_first(rt: &(impl Abort + AllocGlobal)) -> Result<(), Fail> {
    let text = write_request(rt.alloc(), b"cog.test", b"a", FIRST, None)?;
    assert_eq!(rt; (text.len(), text.as_slice()), (76, FIRST_REQUEST));
    Ok(())
}

/// Expects the text of a request for the first bytes that leaves the connection open.
fn expect_open(rt: &(impl Abort + AllocGlobal)) -> Result<(), Fail> {
    let text = write_open_request(rt.alloc(), b"cog.test", b"a", FIRST, None)?;
    assert_eq!(rt; text.as_slice(), OPEN_REQUEST);
    Ok(())
}

/// Expects what the second request says, if the file still has this tag.
fn expect_second(rt: &impl Abort, request: &Request<'_>, tag: &Tag) {
    assert_eq!(rt; request.method(), b"GET".as_slice());
    assert_eq!(rt; request.target(), b"/a".as_slice());
    expect_eq!(rt; request.minor(), 1);
    assert_eq!(rt;
        request.field(b"rANGE", 0),
        Some(b"bytes=65536-67705".as_slice())
    );
    assert!(rt; request.field(b"Range", 1).is_none());
    assert_eq!(rt; request.field(b"If-Range", 0), Some(tag.as_bytes()));
}

#[test]
fn writes_a_request_and_reads_it_again(rt: HostRuntime) -> Result<(), Fail> {
    expect_first(&rt)?;
    expect_open(&rt)?;
    let tag = tag_1()?;
    let text = write_request(rt.alloc(), b"cog.test", b"a", SECOND, Some(&tag))?;
    assert_eq!(rt; (text.len(), text.as_slice()), (97, SECOND_REQUEST));
    expect_second(&rt, &request_of(&text)?, &tag);
    Ok(())
}

#[test]
fn reads_fields_of_any_case_by_their_order(rt: HostRuntime) -> Result<(), Fail> {
    let request = request_of(b"PUT /a HTTP/1.0\r\nA: 1\r\nb:2\r\na: \t3 \r\n\r\nmore")?;
    assert_eq!(rt;
        (
            request.minor(),
            request.field(b"A", 0),
            request.field(b"A", 1),
            request.field(b"B", 0),
            request.field(b"A", 2),
        ),
        (
            0,
            Some(b"1".as_slice()),
            Some(b"3".as_slice()),
            Some(b"2".as_slice()),
            None,
        )
    );
    Ok(())
}

#[test]
fn refuses_heads_that_are_cut_or_of_another_version(rt: HostRuntime) {
    for text in [
        "",
        "GET /a HTTP/1.1\r\nHost: h\r\n",
        "GET /a HTTP/2.0\r\n\r\n",
    ] {
        assert!(rt; read_request(text.as_bytes()).is_none(), "{text:?}");
    }
}
