//! What a client reads of an answer.
use super::answer_heads::FIRST_HEAD;
use super::fronts::told_of_head;
use super::tags::LONGEST_TAG;
use assertion_support::expect_eq;
use http_range::{Memory, Piece, Reading, Why, read_answer, read_request};
use std::alloc::Global;
use std::process::Abort;
use std::test::Fail;

/// Returns the number of the reason why an answer isn't used, or 0 for a piece.
pub fn told(bytes: &[u8]) -> u8 {
    match read_answer(bytes) {
        Reading::Piece(_) => 0,
        Reading::NotUsed(why) => why.number(),
    }
}

fn piece(bytes: &[u8]) -> Result<Piece<'_>, Fail> {
    match read_answer(bytes) {
        Reading::Piece(piece) => Ok(piece),
        Reading::NotUsed(_) => Err(Fail::from("not used")),
    }
}

/// Expects the tag and the bytes of a piece. `numbers` has whether it is the whole file, its first position, and the length of the file.
fn expect_piece(
    rt: &impl Abort,
    piece: &Piece<'_>,
    (tag, body): (&[u8], &[u8]),
    numbers: (bool, u64, u64),
) {
    assert_eq!(rt; piece.tag.as_bytes(), tag);
    assert_eq!(rt; piece.body, body);
    expect_eq!(rt; (piece.whole, piece.first, piece.complete), numbers);
}

/// Returns the first head with the first bytes of the body.
fn first_answer(alloc: Global) -> Result<Vec<u8>, Memory> {
    let mut text = Vec::from_slice(alloc, FIRST_HEAD)?;
    text.extend_from_slice(b"II*")?;
    Ok(text)
}

/// Expects this number for a front of the first answer.
fn expect_told(rt: &impl Abort, text: &[u8], (cut, want): (usize, u8)) {
    assert!(rt; cut <= text.len(), "at {cut}");
    assert_eq!(rt; told(&text[..cut]), want, "at {cut}");
}

/// Expects that a front of the first answer brings these bytes of the body.
fn expect_body(rt: &impl Abort, text: &[u8], (cut, body): (usize, &[u8])) -> Result<(), Fail> {
    assert!(rt; cut <= text.len(), "at {cut}");
    let piece = piece(&text[..cut])?;
    expect_piece(rt, &piece, (b"\"1-1\"", body), (false, 0, 67706));
    Ok(())
}

#[test]
fn takes_the_bytes_of_the_body_that_came(rt: HostRuntime) -> Result<(), Fail> {
    let text = first_answer(rt.alloc())?;
    for row in [
        (0usize, 1u8),
        (1, 1),
        (170, 1),
        (171, 0),
        (172, 0),
        (174, 0),
    ] {
        expect_told(&rt, &text, row);
    }
    for row in [(171usize, b"".as_slice()), (172, b"I"), (174, b"II*")] {
        expect_body(&rt, &text, row)?;
    }
    Ok(())
}

const LINES: [&[u8]; 7] = [
    b"HTTP/1.1 206 Partial Content",
    b"ETag: \"1-1\"",
    b"Accept-Ranges: bytes",
    b"Content-Type: image/tiff",
    b"Content-Range: bytes 0-65535/67706",
    b"Content-Length: 65536",
    b"Connection: close",
];

/// Appends a line.
fn push_line(text: &mut Vec<u8>, line: &[u8]) -> Result<(), Memory> {
    text.extend_from_slice(line)?;
    text.extend_from_slice(b"\r\n")?;
    Ok(())
}

/// Returns the first head with another line at a place.
fn with_line(alloc: Global, place: usize, line: &[u8]) -> Result<Vec<u8>, Memory> {
    let mut text = Vec::new(alloc);
    for (i, old) in LINES.iter().enumerate() {
        push_line(&mut text, if i == place { line } else { *old })?;
    }
    push_line(&mut text, b"")?;
    Ok(text)
}

/// A row has the place of a changed line of the first head, and the line. Then comes the number of the reason why the head isn't used, or
/// 0.
#[rattlefmt::skip]
const CHANGED_LINES: [(usize, &str, u8); 28] = [
    (1, "ETag: \"1-1\"", 0),
    (0, "HTTP/1.1 304 Not Modified", 3),
    (0, "HTTP/1.1 20 Partial Content", 2),
    (1, "ETag: W/\"1-1\"", 5),
    (1, "ETag: 1-1", 4),
    (1, "ETag: \"1-1", 4),
    (1, "ETag: w/\"1-1\"", 4),
    (1, "ETag: \"1-1\"\r\neTag: \"1-1\"", 4),
    (1, "Date: Sun, 06 Nov 1994 08:49:37 GMT", 4),
    (4, "Content-Language: en", 7),
    (4, "Content-Range: bytes 0-65535/*", 7),
    (4, "Content-Range: bytes */67706", 7),
    (4, "Content-Range: Bytes 0-65535/67706", 7),
    (4, "Content-Range: bytes  0-65535/67706", 7),
    (4, "Content-Range: bytes=0-65535/67706", 7),
    (4, "Content-Range: bytes 0-65535/65535", 7),
    (4, "Content-Range: bytes 65535-0/67706", 7),
    (4, "Content-Range: bytes 0-65535/18446744073709551616", 7),
    (4, "Content-Range: bytes 0-65535/67706\r\ncontent-range: bytes 0-65535/67706", 7),
    (4, "Content-Range: bytes 00-065535/067706", 0),
    (4, "Content-Range: bytes 0-65535/18446744073709551615", 0),
    (5, "Content-Length: 65535", 8),
    (5, "Content-Length: +65536", 8),
    (5, "Content-Language: en", 8),
    (5, "Content-Length: 65536\r\nContent-Length: 65536", 8),
    (5, "Content-Length: 000000000000000000000065536", 0),
    (6, "Content-Encoding: identity", 9),
    (6, "Transfer-Encoding: chunked", 9),
];

#[test]
fn tells_why_an_answer_is_not_used(rt: HostRuntime) -> Result<(), Fail> {
    for (place, line, want) in CHANGED_LINES {
        let text = with_line(rt.alloc(), place, line.as_bytes())?;
        assert_eq!(rt;
            (told(&text), told_of_head(&text)),
            (want, want),
            "{line:?}"
        );
    }
    let same = with_line(rt.alloc(), 7, b"")?;
    assert_eq!(rt; same.as_slice(), FIRST_HEAD);
    Ok(())
}

/// A row has the length of a whole file as it is written, and the number where it is read.
const LENGTHS: [(&str, Option<u64>); 4] = [
    ("18446744073709551615", Some(18446744073709551615)),
    ("0018446744073709551614", Some(18446744073709551614)),
    ("18446744073709551616", None),
    ("36893488147419103232", None),
];

/// Returns a head with this length of a whole file.
fn with_length(alloc: Global, length: &str) -> Result<String, Fail> {
    Ok(format!(in alloc; "HTTP/1.1 200 OK\r\nETag: \"1\"\r\nContent-Length: {length}\r\n\r\n")?)
}

/// Returns the length of the file of which an answer brings a piece.
fn complete(bytes: &[u8]) -> Option<u64> {
    match read_answer(bytes) {
        Reading::Piece(piece) => Some(piece.complete),
        Reading::NotUsed(_) => None,
    }
}

#[test]
fn reads_lengths_of_64_bits(rt: HostRuntime) -> Result<(), Fail> {
    for (length, want) in LENGTHS {
        let text = with_length(rt.alloc(), length)?;
        assert_eq!(rt; complete(text.as_bytes()), want, "{length}");
    }
    Ok(())
}

/// Returns a head with this tag.
fn with_tag(alloc: Global, tag: &[u8]) -> Result<Vec<u8>, Memory> {
    let mut text = Vec::from_slice(alloc, b"HTTP/1.1 200 OK\r\nContent-Length: 0\r\nETag: ")?;
    text.extend_from_slice(tag)?;
    text.extend_from_slice(b"\r\n\r\n")?;
    Ok(text)
}

#[test]
fn takes_tags_up_to_64_bytes(rt: HostRuntime) -> Result<(), Fail> {
    let text = with_tag(rt.alloc(), LONGEST_TAG)?;
    let whole = piece(text.as_slice())?;
    assert_eq!(rt; whole.tag.as_bytes(), LONGEST_TAG);
    let text = with_tag(
        rt.alloc(),
        b"\"234567890123456789012345678901234567890123456789012345678901234\"",
    )?;
    assert_eq!(rt; told(text.as_slice()), 6);
    Ok(())
}

/// Returns the status for which an answer isn't used, or 0.
fn status(bytes: &[u8]) -> u16 {
    match read_answer(bytes) {
        Reading::NotUsed(Why::Status(code)) => code,
        _ => 0,
    }
}

#[test]
fn tells_a_status_that_is_not_used(rt: HostRuntime) {
    for (text, want) in [
        ("HTTP/1.1 304 Not Modified\r\nETag: \"1-1\"\r\n\r\n", 304u16),
        ("HTTP/1.1 404 Not Found\r\nContent-Length: 0\r\n\r\n", 404),
        (
            "HTTP/1.0 302 Found\r\nTransfer-Encoding: chunked\r\n\r\n",
            302,
        ),
    ] {
        let bytes = text.as_bytes();
        assert_eq!(rt; (status(bytes), told(bytes)), (want, 3), "{text:?}");
    }
}

#[test]
fn refuses_first_lines_of_another_form(rt: HostRuntime) {
    for text in ["HTP/1.1 200 OK", "HTTP/1.1 2000 OK\r\n\r\n"] {
        assert_eq!(rt; told(text.as_bytes()), 2, "{text:?}");
    }
}

#[test]
fn reads_heads_as_other_servers_write_them(rt: HostRuntime) -> Result<(), Fail> {
    let text =
        b"HTTP/1.1 206 \r\nDate: Sun, 06 Nov 1994 08:49:37 GMT\r\nSERVER: x/1.0 (y)\r\ncontent-length:3\r\ncontent-range: bytes 5-7/9\r\nConnection: keep-alive\r\netag:\t \"a\\b\" \r\n\r\nabcde";
    let part = piece(text)?;
    expect_piece(&rt, &part, (b"\"a\\b\"", b"abc"), (false, 5, 9));
    let text =
        b"HTTP/1.0 200\nVary: *\nContent-Range: bytes */4\nETag: \"\"\nContent-Length: 4\n\nab";
    let whole = piece(text)?;
    expect_piece(&rt, &whole, (b"\"\"", b"ab"), (true, 0, 4));
    Ok(())
}

/// Returns the front, filled up to `n` bytes, and then the back.
pub fn padded(alloc: Global, front: &[u8], n: usize, back: &[u8]) -> Result<Vec<u8>, Memory> {
    let mut text = Vec::from_slice(alloc, front)?;
    for _ in front.len()..n {
        text.push(b'x')?;
    }
    text.extend_from_slice(back)?;
    Ok(text)
}

/// Returns whether a request is read of the front, filled up to `n` bytes, and then the back.
fn is_padded_request(alloc: Global, front: &[u8], n: usize, back: &[u8]) -> Result<bool, Memory> {
    let text = padded(alloc, front, n, back)?;
    Ok(read_request(&text).is_some())
}

/// Returns the number for the front, filled up to `n` bytes, and then the back.
fn told_of_padded(alloc: Global, front: &[u8], n: usize, back: &[u8]) -> Result<u8, Memory> {
    let text = padded(alloc, front, n, back)?;
    Ok(told(&text))
}

#[test]
fn takes_heads_of_8192_and_4096_bytes_and_no_more(rt: HostRuntime) -> Result<(), Fail> {
    let front = b"GET /a HTTP/1.1\r\nA: ";
    for (n, want) in [(8188, true), (8189, false)] {
        let is_read = is_padded_request(rt.alloc(), front, n, b"\r\n\r\n")?;
        expect_eq!(rt; is_read, want, "{n}");
    }
    let front = b"HTTP/1.1 200 OK\r\nETag: \"1\"\r\nContent-Length: 0\r\nA: ";
    for (n, back, want) in [
        (4092, b"\r\n\r\n".as_slice(), 0),
        (4093, b"\r\n\r\n", 2),
        (4095, b"", 1),
        (4096, b"", 2),
    ] {
        let told = told_of_padded(rt.alloc(), front, n, back)?;
        expect_eq!(rt; told, want, "{n}");
    }
    Ok(())
}

/// Returns the front, `fields` further fields, and the back.
fn many(alloc: Global, front: &[u8], fields: u32, back: &[u8]) -> Result<Vec<u8>, Memory> {
    let mut text = Vec::from_slice(alloc, front)?;
    for _ in 0..fields {
        text.extend_from_slice(b"A: 1\r\n")?;
    }
    text.extend_from_slice(back)?;
    Ok(text)
}

/// Returns the number for a head with `fields` further fields, and then the back.
fn told_of_many(alloc: Global, fields: u32, back: &[u8]) -> Result<u8, Memory> {
    let front = b"HTTP/1.1 200 OK\r\nETag: \"1\"\r\nContent-Length: 0\r\n";
    let text = many(alloc, front, fields, back)?;
    Ok(told(&text))
}

/// Returns whether a request with `fields` fields is read.
fn is_request_of_many(alloc: Global, fields: u32) -> Result<bool, Memory> {
    let text = many(alloc, b"GET /a HTTP/1.1\r\n", fields, b"\r\n")?;
    Ok(read_request(&text).is_some())
}

#[test]
fn takes_32_fields_and_no_more(rt: HostRuntime) -> Result<(), Fail> {
    for (fields, back, want) in [
        (30, b"".as_slice(), 1),
        (30, b"A", 1),
        (30, b"\r\n", 0),
        (31, b"", 2),
        (31, b"\r\n", 2),
    ] {
        let told = told_of_many(rt.alloc(), fields, back)?;
        expect_eq!(rt; told, want, "{fields}");
    }
    for (fields, want) in [(32, true), (33, false)] {
        let is_read = is_request_of_many(rt.alloc(), fields)?;
        expect_eq!(rt; is_read, want, "{fields}");
    }
    Ok(())
}
