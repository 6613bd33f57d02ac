//! Clients that are made, and those that aren't.
use assertion_support::expect_eq;
use cog_client::{Client, ClientError, RequestFields, UrlError};
use cog_reader_support::of_level;
use std::alloc::{AllocError, Global};
use std::test::Fail;

/// A row has a host, a name, a number of blocks, and the number of the refusal.
type Row = (&'static [u8], &'static [u8], u32, u8);

const REFUSED: [Row; 27] = [
    (b"", b"a", 66, 1),
    (&[b'h'; 65], b"a", 66, 1),
    (b"a b", b"a", 66, 1),
    (b"a/b", b"a", 66, 1),
    (b"a_b", b"a", 66, 1),
    (b"a@b", b"a", 66, 1),
    (b"a\r\nb", b"a", 66, 1),
    (b"[::1]", b"a", 66, 1),
    (b"\xc3\xa4", b"a", 66, 1),
    (b"h", b"", 66, 2),
    (b"h", &[b'a'; 201], 66, 2),
    (b"h", b"a b", 66, 2),
    (b"h", b"a?b", 66, 2),
    (b"h", b"a#b", 66, 2),
    (b"h", b"a%20", 66, 2),
    (b"h", b"a\r\nb", 66, 2),
    (b"h", b"a:b", 66, 2),
    (b"h", b"~", 66, 2),
    (b"h", b"a", 0, 3),
    (b"h", b"a", 65, 3),
    (b"h", b"a", 4097, 3),
    (b"h", b"a", 4294967295, 3),
    // Where several refusals hold, the first one counts.
    (b"", b"", 0, 1),
    (b"", b"a", 0, 1),
    (b"", b"", 66, 1),
    (b"h", b"", 0, 2),
    (b"h", b"a", 0, 3),
];

/// A row has a host, a name and a number of blocks with which a client is made.
const MADE: [(&[u8], &[u8], u32); 8] = [
    (b"h", b"a", 66),
    (&[b'h'; 64], b"a", 66),
    (b"az-AZ.09:8080", b"a", 66),
    (b"cog.test", &[b'a'; 200], 66),
    (b"h", b"az/AZ/09._-.tif", 66),
    (b"h", b"a", 67),
    (b"h", b"a", 4095),
    (b"h", b"a", 4096),
];

/// Returns the number of the refusal, or 0 where a client is made.
fn refusal(alloc: Global, host: &[u8], name: &[u8], blocks: u32) -> u8 {
    match Client::new(alloc, host, name, blocks) {
        Ok(_client) => 0,
        Err(refusal) => refusal.number(),
    }
}

#[test]
fn refuses_hosts_names_and_caches(rt: HostRuntime) -> Result<(), Fail> {
    let found = REFUSED
        .iter()
        .position(|row| refusal(rt.alloc(), row.0, row.1, row.2) != row.3);
    expect_eq!(rt; found, None);
    Ok(())
}

/// Returns the first request to a host for a name.
fn first_request(alloc: Global, host: &[u8], name: &[u8]) -> Result<Vec<u8>, AllocError> {
    let mut text = Vec::from_slice(alloc, b"GET /")?;
    text.extend_from_slice(name)?;
    text.extend_from_slice(b" HTTP/1.1\r\nHost: ")?;
    text.extend_from_slice(host)?;
    text.extend_from_slice(b"\r\nRange: bytes=0-65535\r\nConnection: close\r\n\r\n")?;
    Ok(text)
}

/// Returns whether a new client has nothing, and asks for the first bytes.
fn is_new(client: &mut Client, request: &[u8]) -> bool {
    let is_empty = client.asked().is_none() && client.tag().is_none() && client.report().is_none();
    client.open(of_level(0, 0, 1, 1, 0));
    match client.request() {
        Ok(Some(text)) => is_empty && text.as_slice() == request,
        _ => false,
    }
}

/// Returns whether a client is made whose first request is `request`.
fn is_made(alloc: Global, host: &[u8], name: &[u8], blocks: u32, request: &[u8]) -> bool {
    match Client::new(alloc, host, name, blocks) {
        Ok(mut client) => is_new(&mut client, request),
        Err(_refusal) => false,
    }
}

/// Returns the first of these clients that isn't made.
fn first_unmade(alloc: Global) -> Result<Option<usize>, AllocError> {
    for (i, (host, name, blocks)) in MADE.iter().enumerate() {
        let request = first_request(alloc, host, name)?;
        if !is_made(alloc, host, name, *blocks, &request) {
            return Ok(Some(i));
        }
    }
    Ok(None)
}

#[test]
fn makes_clients_within_the_limits(rt: HostRuntime) -> Result<(), Fail> {
    expect_eq!(rt; first_unmade(rt.alloc())?, None);
    Ok(())
}

#[test]
fn numbers_its_refusals(rt: HostRuntime) {
    for (refusal, number) in [
        (ClientError::Host, 1),
        (ClientError::Name, 2),
        (ClientError::Blocks, 3),
        (ClientError::Memory, 4),
    ] {
        expect_eq!(rt; refusal.number(), number);
    }
}

/// A row has an authority, a target, a number of blocks, and why no client is made (RFC 3986, section 3; RFC 9112, section 3.2.1).
const URLS_REFUSED: [(&[u8], &[u8], u32, UrlError); 12] = [
    (b"", b"/a", 66, UrlError::Authority),
    (b"u@h", b"/a", 66, UrlError::Authority),
    (b"[::1", b"/a", 66, UrlError::Authority),
    (b"h\r\nA: b", b"/a", 66, UrlError::Authority),
    (&[b'h'; 256], b"/a", 66, UrlError::Authority),
    (b"h", b"", 66, UrlError::Target),
    (b"h", b"a", 66, UrlError::Target),
    (b"h", b"/a%2", 66, UrlError::Target),
    (b"h", b"/a HTTP/1.1\r\nA: b", 66, UrlError::Target),
    (b"h", b"/a", 65, UrlError::Blocks),
    (b"h", b"/a", 4097, UrlError::Blocks),
    // Where several refusals hold, the first one counts.
    (b"", b"", 0, UrlError::Authority),
];

/// A row has an authority and a target of which a client is made.
const URLS_MADE: [(&[u8], &[u8]); 6] = [
    (b"h", b"/"),
    (b"h:", b"/a.tif?X-Amz-Signature=0f"),
    (b"[::1]:8080", b"/year=2020/a%20b+c~d.tif"),
    (b"127.0.0.1:80", b"//a"),
    (&[b'h'; 255], b"/a"),
    (b"a_b.test", b"/?"),
];

/// Returns the refusal of a client of a URL, if none is made.
fn url_refusal(alloc: Global, authority: &[u8], target: &[u8], blocks: u32) -> Option<UrlError> {
    match Client::by_url(alloc, authority, target, RequestFields::new(alloc), blocks) {
        Ok(_client) => None,
        Err(refusal) => Some(refusal),
    }
}

#[test]
fn refuses_parts_of_urls(rt: HostRuntime) {
    for (authority, target, blocks, refusal) in &URLS_REFUSED {
        let found = url_refusal(rt.alloc(), authority, target, *blocks);
        assert!(rt; found == Some(*refusal), "{authority:?} {target:?}");
    }
}

/// Returns the first request of a client of a URL, with the lines `lines`.
fn url_request(
    alloc: Global,
    authority: &[u8],
    target: &[u8],
    lines: &[u8],
) -> Result<Vec<u8>, AllocError> {
    let mut text = Vec::from_slice(alloc, b"GET ")?;
    text.extend_from_slice(target)?;
    text.extend_from_slice(b" HTTP/1.1\r\nHost: ")?;
    text.extend_from_slice(authority)?;
    text.extend_from_slice(b"\r\nRange: bytes=0-65535\r\n")?;
    text.extend_from_slice(lines)?;
    text.extend_from_slice(b"Connection: close\r\n\r\n")?;
    Ok(text)
}

#[test]
fn makes_clients_of_urls(rt: HostRuntime) -> Result<(), Fail> {
    for (authority, target) in &URLS_MADE {
        let fields = RequestFields::new(rt.alloc());
        let mut client = Client::by_url(rt.alloc(), authority, target, fields, 66)?;
        let request = url_request(rt.alloc(), authority, target, b"")?;
        assert!(rt; is_new(&mut client, &request), "{authority:?} {target:?}");
    }
    Ok(())
}

#[test]
fn asks_with_the_lines_of_its_caller(rt: HostRuntime) -> Result<(), Fail> {
    let mut fields = RequestFields::new(rt.alloc());
    fields.push(b"Authorization", b"Bearer 0f")?;
    fields.push(b"User-Agent", b"reader/1.0 (test)")?;
    let mut client = Client::by_url(rt.alloc(), b"h", b"/a?b", fields, 66)?;
    let lines = b"Authorization: Bearer 0f\r\nUser-Agent: reader/1.0 (test)\r\n";
    let request = url_request(rt.alloc(), b"h", b"/a?b", lines)?;
    assert!(rt; is_new(&mut client, &request));
    Ok(())
}
