//! Field lines that a caller adds to a client's requests.
use super::tags::tag_1;
use http_range::{
    FieldError, RequestFields, Span, write_check_with, write_open_request, write_request_with,
};
use std::alloc::Global;
use std::test::Fail;

/// A row has a name and a value, and why they aren't added (RFC 9110, sections 5.5 and 5.6.2).
type Row = (&'static str, &'static str, FieldError);

const REFUSED: [Row; 30] = [
    ("", "v", FieldError::Name),
    ("a b", "v", FieldError::Name),
    ("a:", "v", FieldError::Name),
    ("a\r\nb", "v", FieldError::Name),
    ("(a)", "v", FieldError::Name),
    ("\u{e4}", "v", FieldError::Name),
    ("Host", "v", FieldError::Reserved),
    ("rAnGe", "v", FieldError::Reserved),
    ("if-range", "v", FieldError::Reserved),
    ("If-Match", "v", FieldError::Reserved),
    ("If-None-Match", "v", FieldError::Reserved),
    ("If-Modified-Since", "v", FieldError::Reserved),
    ("If-Unmodified-Since", "v", FieldError::Reserved),
    ("Connection", "v", FieldError::Reserved),
    ("CONTENT-LENGTH", "v", FieldError::Reserved),
    ("Transfer-Encoding", "v", FieldError::Reserved),
    ("Expect", "v", FieldError::Reserved),
    ("Upgrade", "v", FieldError::Reserved),
    ("te", "v", FieldError::Reserved),
    ("Trailer", "v", FieldError::Reserved),
    ("Keep-Alive", "v", FieldError::Reserved),
    ("Proxy-Connection", "v", FieldError::Reserved),
    ("A", " v", FieldError::Value),
    ("A", "v ", FieldError::Value),
    ("A", "v\t", FieldError::Value),
    ("A", " ", FieldError::Value),
    ("A", "v\r\nHost: h", FieldError::Value),
    ("A", "\u{7f}", FieldError::Value),
    ("A", "\u{e4}", FieldError::Value),
    // Where several refusals hold, the first one counts.
    ("a b", " v", FieldError::Name),
];

#[test]
fn refuses_lines_that_may_not_be_added(rt: HostRuntime) {
    let mut fields = RequestFields::new(rt.alloc());
    for (name, value, refusal) in &REFUSED {
        let added = fields.push(name.as_bytes(), value.as_bytes());
        assert!(rt; added == Err(*refusal), "{name:?}: {value:?}");
    }
}

#[test]
fn takes_at_most_16_lines(rt: HostRuntime) -> Result<(), Fail> {
    let mut fields = RequestFields::new(rt.alloc());
    for _ in 0..16 {
        fields.push(b"A", b"")?;
    }
    assert!(rt; fields.push(b"A", b"") == Err(FieldError::Lines));
    Ok(())
}

#[test]
fn takes_at_most_1024_bytes(rt: HostRuntime) -> Result<(), Fail> {
    let mut fields = RequestFields::new(rt.alloc());
    let value = [b'v'; 1020];
    assert!(rt; fields.push(b"A", &value) == Err(FieldError::Bytes));
    fields.push(b"A", &value[..1014])?;
    assert!(rt; fields.push(b"B", b"v") == Err(FieldError::Bytes));
    fields.push(b"B", b"")?;
    assert!(rt; fields.push(b"C", b"") == Err(FieldError::Bytes));
    Ok(())
}

/// Returns two lines that may be added.
fn two_lines(alloc: Global) -> Result<RequestFields, FieldError> {
    let mut fields = RequestFields::new(alloc);
    fields.push(b"Authorization", b"Bearer 0f.\t~")?;
    fields.push(b"X-Host", b"h, g")?;
    Ok(fields)
}

const SPAN: Span = Span {
    first: 65536,
    last: 67705,
};

#[test]
fn puts_lines_after_its_own(rt: HostRuntime) -> Result<(), Fail> {
    let tag = tag_1()?;
    let fields = two_lines(rt.alloc())?;
    let host = b"[::1]:8080";
    let name = b"year=2020/a%20b.tif?v=1";
    let text = write_request_with(rt.alloc(), host, name, &fields, SPAN, Some(&tag), true)?;
    assert_eq!(rt;
        text.as_slice(),
        b"GET /year=2020/a%20b.tif?v=1 HTTP/1.1\r\nHost: [::1]:8080\r\n\
        Range: bytes=65536-67705\r\nIf-Range: \"1-1\"\r\nAuthorization: Bearer 0f.\t~\r\nX-Host: h, g\r\n\
        Connection: close\r\n\r\n"
            .as_slice()
    );
    let text = write_check_with(rt.alloc(), host, name, &fields, &tag)?;
    assert_eq!(rt;
        text.as_slice(),
        b"HEAD /year=2020/a%20b.tif?v=1 HTTP/1.1\r\nHost: [::1]:8080\r\n\
        If-None-Match: \"1-1\"\r\nAuthorization: Bearer 0f.\t~\r\nX-Host: h, g\r\n\
        Connection: close\r\n\r\n"
            .as_slice()
    );
    Ok(())
}

#[test]
fn writes_the_same_without_lines(rt: HostRuntime) -> Result<(), Fail> {
    let none = RequestFields::new(rt.alloc());
    let with = write_request_with(rt.alloc(), b"cog.test", b"a", &none, SPAN, None, false)?;
    let without = write_open_request(rt.alloc(), b"cog.test", b"a", SPAN, None)?;
    assert_eq!(rt; with.as_slice(), without.as_slice());
    Ok(())
}
