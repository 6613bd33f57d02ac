//! Conditions of requests, and checks.
use super::requests::request_of;
use super::tags::tag_1;
use assertion_support::expect_eq;
use http_range::{CheckReading, Request, Tag, any_match, read_check, write_check};
use std::process::Abort;
use std::test::Fail;

/// A row has the value of a condition, and whether it matches the tag weakly and strongly.
const VALUES: [(&str, bool, bool); 17] = [
    ("\"1-1\"", true, true),
    ("W/\"1-1\"", true, false),
    ("\"x,y\", \"1-1\"", true, true),
    ("\"x,y\",W/\"1-1\"", true, false),
    ("*", true, true),
    (" , \t\"1-1\" ,,", true, true),
    ("\"1-2\"", false, false),
    ("\"1-1\", x", false, false),
    ("x, \"1-1\"", false, false),
    ("\"1-1\" \"1-1\"", false, false),
    ("\"1-1\", *", false, false),
    ("w/\"1-1\"", false, false),
    ("1-1", false, false),
    ("\"x,\"1-1\"\"", false, false),
    ("\"1-1", false, false),
    (",", false, false),
    ("", false, false),
];

#[test]
fn matches_a_tag_of_a_list_weakly_or_strongly(rt: HostRuntime) -> Result<(), Fail> {
    let tag = tag_1()?;
    for (value, weak, strong) in VALUES {
        let bytes = value.as_bytes();
        expect_eq!(rt;
            (any_match(bytes, &tag, false), any_match(bytes, &tag, true)),
            (weak, strong),
            "{value:?} weakly and strongly"
        );
    }
    Ok(())
}

/// Expects what the fields of a request say, and whether the tag matches them.
fn expect_fields(rt: &impl Abort, request: &Request<'_>, tag: &Tag) {
    assert!(rt; request.has_member(b"connection", b"CLOSE"));
    assert!(rt; !request.has_member(b"Connection", b"clos"));
    assert!(rt; !request.has_member(b"Host", b"close"));
    assert!(rt; request.has(b"if-MATCH"));
    assert!(rt; !request.has(b"If"));
    assert_eq!(rt; request.only(b"host"), Some(b"h".as_slice()));
    assert!(rt; request.only(b"If-Match").is_none());
    assert!(rt; request.only(b"If-Range").is_none());
    assert!(rt; !request.one_matches(b"If-Match", tag, true));
    assert!(rt; request.one_matches(b"If-None-Match", tag, false));
    assert!(rt; !request.one_matches(b"If-None-Match", tag, true));
}

#[test]
fn matches_a_condition_in_its_only_field(rt: HostRuntime) -> Result<(), Fail> {
    let request = request_of(
        b"GET /a HTTP/1.1\r\nHost: h\r\nConnection: te,\t Close \r\nIf-Match: \"1-2\"\r\nif-match: x, W/\"1-1\"\r\nIf-None-Match: \"1-2\"\r\nIf-None-Match: W/\"1-1\"\r\n\r\n",
    )?;
    expect_fields(&rt, &request, &tag_1()?);
    Ok(())
}

#[test]
fn writes_a_check_as_a_head_request(rt: HostRuntime) -> Result<(), Fail> {
    let text = write_check(rt.alloc(), b"cog.test", b"a", &tag_1()?)?;
    assert_eq!(rt;
        text.as_slice(),
        b"HEAD /a HTTP/1.1\r\nHost: cog.test\r\nIf-None-Match: \"1-1\"\r\nConnection: close\r\n\r\n".as_slice()
    );
    Ok(())
}

/// A row has an answer to a check, and the number of the reason why it isn't used, or 0 for the tag.
#[rattlefmt::skip]
const ANSWERS: [(&str, u8); 11] = [
    ("HTTP/1.1 304 Not Modified\r\nETag: \"1-1\"\r\n\r\n", 0),
    ("HTTP/1.1 200 OK\r\nETag: \"1-1\"\r\nContent-Length: 378\r\n\r\n", 0),
    ("HTTP/1.1 206 \r\nETag: \"1-1\"\r\n\r\nII*", 0),
    ("HTTP/1.1 304 Not Modified\r\nETag: \"1-1\"\r\n\r", 1),
    ("HTP/1.1 304", 2),
    ("HTTP/1.1 404 Not Found\r\nContent-Length: 0\r\n\r\n", 3),
    ("HTTP/1.1 412 Precondition Failed\r\nETag: \"1-1\"\r\n\r\n", 3),
    ("HTTP/1.1 304 Not Modified\r\n\r\n", 4),
    ("HTTP/1.1 304 Not Modified\r\nETag: W/\"1-1\"\r\n\r\n", 5),
    ("HTTP/1.1 304 Not Modified\r\nETag: \"234567890123456789012345678901234567890123456789012345678901234\"\r\n\r\n", 6),
    ("HTTP/1.1 304 Not Modified\r\nETag: \"1-1\"\r\nContent-Encoding: gzip\r\n\r\n", 9),
];

/// Returns the number of the reason why an answer to a check isn't used, or 0 for this tag.
fn told_of_check(bytes: &[u8], tag: &Tag) -> Option<u8> {
    match read_check(bytes) {
        CheckReading::Seen(seen) if seen == *tag => Some(0),
        CheckReading::Seen(_) => None,
        CheckReading::NotUsed(why) => Some(why.number()),
    }
}

#[test]
fn reads_the_tag_of_an_answer_to_a_check(rt: HostRuntime) -> Result<(), Fail> {
    let tag = tag_1()?;
    for (text, want) in ANSWERS {
        assert_eq!(rt;
            told_of_check(text.as_bytes(), &tag),
            Some(want),
            "{text:?}"
        );
    }
    Ok(())
}
