//! What a client reads of the head at the front of an answer that arrives in pieces.
use super::answer_heads::FIRST_HEAD;
use super::answers::{padded, told};
use assertion_support::expect_eq;
use http_range::{Head, HeadReading, Memory, read_head};
use std::alloc::Global;
use std::process::Abort;
use std::test::Fail;

fn head(bytes: &[u8]) -> Result<Head, Fail> {
    match read_head(bytes) {
        HeadReading::Head(head) => Ok(head),
        HeadReading::NotUsed(_) => Err(Fail::from("not used")),
    }
}

/// Returns the number of the reason why a head isn't used, or 0 for one that brings a piece.
pub fn told_of_head(bytes: &[u8]) -> u8 {
    match read_head(bytes) {
        HeadReading::Head(_) => 0,
        HeadReading::NotUsed(why) => why.number(),
    }
}

/// Returns what a head says: the tag, whether the answer is the whole file, and the first position. Then come the length of the file, and
/// the lengths of the body and of the head.
fn said(head: &Head) -> (&[u8], bool, u64, u64, u64, usize) {
    (
        head.tag.as_bytes(),
        head.whole,
        head.first,
        head.complete,
        head.length,
        head.size,
    )
}

/// Returns the first head with the first bytes of the body.
fn first_answer(alloc: Global) -> Result<Vec<u8>, Memory> {
    let mut text = Vec::from_slice(alloc, FIRST_HEAD)?;
    text.extend_from_slice(b"II*\0")?;
    Ok(text)
}

/// Expects this number for a front of the first answer.
fn expect_told(rt: &impl Abort, text: &[u8], (cut, want): (usize, u8)) {
    assert!(rt; cut <= text.len(), "at {cut}");
    let front = &text[..cut];
    assert_eq!(rt;
        (told_of_head(front), told(front)),
        (want, want),
        "at {cut}"
    );
}

/// Expects that a front of the first answer has the whole head.
fn expect_first_head(rt: &impl Abort, text: &[u8], cut: usize) -> Result<(), Fail> {
    assert!(rt; cut <= text.len(), "at {cut}");
    let head = head(&text[..cut])?;
    assert_eq!(rt;
        said(&head),
        (b"\"1-1\"".as_slice(), false, 0, 67706, 65536, 171),
        "at {cut}"
    );
    Ok(())
}

#[test]
fn reads_every_front_of_the_first_answer(rt: HostRuntime) -> Result<(), Fail> {
    let text = first_answer(rt.alloc())?;
    for cut in 0..text.len() + 1 {
        expect_told(&rt, &text, (cut, if cut < 171 { 1 } else { 0 }));
    }
    for cut in [171usize, 172, 175] {
        expect_first_head(&rt, &text, cut)?;
    }
    Ok(())
}

/// A head of 77 bytes, a body of three, and two bytes that follow it.
const LAST_PIECE: &[u8] =
    b"HTTP/1.1 206 OK\r\nETag: \"1\"\r\nContent-Range: bytes 5-7/9\r\nContent-Length: 3\r\n\r\nabcde";

#[test]
fn tells_the_length_of_the_body_and_not_what_follows(rt: HostRuntime) -> Result<(), Fail> {
    let part = head(LAST_PIECE)?;
    expect_eq!(rt;
        (part.first, part.complete, part.length, part.size),
        (5, 9, 3, 77)
    );
    let whole = head(b"HTTP/1.0 200\nETag: \"\"\nContent-Length: 4\n\n")?;
    assert_eq!(rt; said(&whole), (b"\"\"".as_slice(), true, 0, 4, 4, 41));
    Ok(())
}

/// Returns a head that is filled up to `n` bytes, its end, and a byte of the body.
fn padded_answer(alloc: Global, n: usize) -> Result<Vec<u8>, Memory> {
    padded(
        alloc,
        b"HTTP/1.1 200 OK\r\nETag: \"1\"\r\nContent-Length: 1\r\nA: ",
        n,
        b"\r\n\r\nI",
    )
}

/// Expects this number for a front of an answer, by its head.
fn expect_told_of_head(rt: &impl Abort, text: &[u8], (cut, want): (usize, u8)) {
    assert!(rt; cut <= text.len(), "at {cut}");
    assert_eq!(rt; told_of_head(&text[..cut]), want, "at {cut}");
}

/// Returns the length of the head of an answer.
fn size(bytes: &[u8]) -> Option<usize> {
    match read_head(bytes) {
        HeadReading::Head(head) => Some(head.size),
        HeadReading::NotUsed(_) => None,
    }
}

#[test]
fn settles_a_head_at_4096_bytes(rt: HostRuntime) -> Result<(), Fail> {
    let whole = padded_answer(rt.alloc(), 4092)?;
    expect_eq!(rt; (whole.len(), size(&whole)), (4097, Some(4096)));
    for row in [(4095usize, 1u8), (4096, 0), (4097, 0)] {
        expect_told_of_head(&rt, &whole, row);
    }
    let long = padded_answer(rt.alloc(), 4093)?;
    for row in [(4095usize, 1u8), (4096, 2), (4097, 2), (4098, 2)] {
        expect_told_of_head(&rt, &long, row);
    }
    Ok(())
}
