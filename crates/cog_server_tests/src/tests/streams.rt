//! Streams of messages, cut in every way, and what ends their answers.
use super::answers::{FIRST, LAST, Want, server_of_f1, text_of};
use super::refusals::BAD;
use cog_server::{
    AfterBytes, AfterPieces, Ended, ScriptedInlet, ScriptedOutlet, Served, Server, Stream,
};
use std::alloc::Global;
use std::process::Abort;
use std::test::Fail;

/// Requests for the first byte of `a`, and for the last.
pub const ASKS_FIRST: &[u8] = b"GET /a HTTP/1.1\r\nHost: h\r\nRange: bytes=0-0\r\n\r\n";

pub const ASKS_LAST: &[u8] = b"GET /a HTTP/1.1\r\nHost: h\r\nRange: bytes=377-\r\n\r\n";

const CLOSING: Want = Want {
    head: b"HTTP/1.1 206 Partial Content\r\nETag: \"1-1\"\r\nAccept-Ranges: bytes\r\nContent-Type: image/tiff\r\nContent-Range: bytes 0-0/378\r\nContent-Length: 1\r\nConnection: close\r\n\r\n",
    close: true,
    ..FIRST
};

/// Expects that a stream that comes in these pieces, and then whole, is answered by this text.
pub fn expect_served(
    rt: &(impl Abort + AllocGlobal),
    server: &Server,
    stream: &[u8],
    cuts: &[usize],
    text: &[u8],
    want: Served,
) -> Result<(), Fail> {
    let alloc = rt.alloc();
    let bytes = Vec::from_slice(alloc, stream)?;
    let pieces = Vec::from_slice(alloc, cuts)?;
    let mut inlet = ScriptedInlet::new(bytes, pieces, AfterBytes::End);
    let mut outlet = ScriptedOutlet::new(alloc, Vec::new(alloc), AfterPieces::All);
    let served = server.serve(&mut inlet, &mut outlet)?;
    let name = (stream.len(), cuts.first());
    assert_eq!(rt;
        (outlet.taken(), served),
        (text, want),
        "bytes and first piece {name:?}"
    );
    Ok(())
}

fn served(answers: usize, ended: Ended) -> Served {
    Served { answers, ended }
}

/// Returns two requests, and the answers to both.
pub fn two_messages(alloc: Global) -> Result<(Vec<u8>, Vec<u8>), Fail> {
    let mut stream = Vec::from_slice(alloc, ASKS_FIRST)?;
    stream.extend_from_slice(ASKS_LAST)?;
    let mut text = text_of(alloc, &FIRST)?;
    text.extend_from_slice(&text_of(alloc, &LAST)?)?;
    Ok((stream, text))
}

/// Returns the same bytes `count` times.
fn repeated(alloc: Global, bytes: &[u8], count: usize) -> Result<Vec<u8>, Fail> {
    let mut all = Vec::new(alloc);
    for _ in 0..count {
        all.extend_from_slice(bytes)?;
    }
    Ok(all)
}

#[test]
fn answers_the_same_however_a_stream_is_cut(rt: HostRuntime) -> Result<(), Fail> {
    let server = server_of_f1(rt.alloc())?;
    let (stream, text) = two_messages(rt.alloc())?;
    let both = served(2, Ended::EndOfInput);
    for cut in 1..stream.len() {
        expect_served(&rt, &server, &stream, &[cut], &text, both)?;
    }
    let ones = vec![in rt.alloc(); 1usize; stream.len()]?;
    expect_served(&rt, &server, &stream, &ones, &text, both)
}

/// Expects one answer where a stream ends in its second message, and none where it ends in its first.
#[test]
fn answers_only_the_messages_that_came_whole(rt: HostRuntime) -> Result<(), Fail> {
    let server = server_of_f1(rt.alloc())?;
    let (stream, _) = two_messages(rt.alloc())?;
    let first = text_of(rt.alloc(), &FIRST)?;
    for end in 0..stream.len() {
        let front = stream.get(..end).ok_or("no such front")?;
        let is_whole = end >= ASKS_FIRST.len();
        let text: &[u8] = if is_whole { &first } else { b"" };
        let want = served(usize::from(is_whole), Ended::EndOfInput);
        expect_served(&rt, &server, front, &[], text, want)?;
    }
    Ok(())
}

#[test]
fn refuses_8192_bytes_without_an_end(rt: HostRuntime) -> Result<(), Fail> {
    let server = server_of_f1(rt.alloc())?;
    let full = vec![in rt.alloc(); b'A'; 8192]?;
    let ones = vec![in rt.alloc(); 1usize; 8192]?;
    expect_refused_when_full(&rt, &server, &full, &[])?;
    expect_refused_when_full(&rt, &server, &full, &ones)
}

/// Expects that a stream without an end is refused, and that the same stream without its first byte has no answer.
fn expect_refused_when_full(
    rt: &(impl Abort + AllocGlobal),
    server: &Server,
    full: &[u8],
    cuts: &[usize],
) -> Result<(), Fail> {
    expect_served(rt, server, full, cuts, BAD.head, served(1, Ended::Closed))?;
    let part = full.get(1..).ok_or("no such part")?;
    expect_served(rt, server, part, cuts, b"", served(0, Ended::EndOfInput))
}

/// Expects that a hundred messages are answered, and no more. The hundredth may close.
#[test]
fn ends_after_a_hundred_answers(rt: HostRuntime) -> Result<(), Fail> {
    let server = server_of_f1(rt.alloc())?;
    let first = text_of(rt.alloc(), &FIRST)?;
    let closing = text_of(rt.alloc(), &CLOSING)?;
    expect_limit(&rt, &server, &first)?;
    expect_closed_by_the_hundredth(&rt, &server, &first, &closing)
}

/// Expects the first answer a hundred times for a hundred and one messages.
fn expect_limit(
    rt: &(impl Abort + AllocGlobal),
    server: &Server,
    first: &[u8],
) -> Result<(), Fail> {
    let stream = repeated(rt.alloc(), ASKS_FIRST, 101)?;
    let text = repeated(rt.alloc(), first, 100)?;
    let limit = served(100, Ended::Limit);
    expect_served(rt, server, &stream, &[], &text, limit)
}

/// Expects the closing answer to the hundredth message, and none to the next.
fn expect_closed_by_the_hundredth(
    rt: &(impl Abort + AllocGlobal),
    server: &Server,
    first: &[u8],
    closing: &[u8],
) -> Result<(), Fail> {
    let stream = closing_stream(rt.alloc())?;
    let mut text = repeated(rt.alloc(), first, 99)?;
    text.extend_from_slice(closing)?;
    let closed = served(100, Ended::Closed);
    expect_served(rt, server, &stream, &[], &text, closed)
}

/// Returns a hundred and one requests, the hundredth of which closes.
fn closing_stream(alloc: Global) -> Result<Vec<u8>, Fail> {
    let mut stream = repeated(alloc, ASKS_FIRST, 99)?;
    stream.extend_from_slice(
        b"GET /a HTTP/1.1\r\nHost: h\r\nRange: bytes=0-0\r\nConnection: close\r\n\r\n",
    )?;
    stream.extend_from_slice(ASKS_FIRST)?;
    Ok(stream)
}

/// Expects the same text with readers and writers of the standard library.
#[test]
fn serves_readers_and_writers_of_the_standard_library(rt: HostRuntime) -> Result<(), Fail> {
    let server = server_of_f1(rt.alloc())?;
    let (stream, text) = two_messages(rt.alloc())?;
    let mut written = Vec::new(rt.alloc());
    let mut inlet = Stream::new(stream.as_slice());
    let mut outlet = Stream::new(&mut written);
    let result = server.serve(&mut inlet, &mut outlet)?;
    assert_eq!(rt;
        (result, written.as_slice()),
        (served(2, Ended::EndOfInput), text.as_slice())
    );
    Ok(())
}
