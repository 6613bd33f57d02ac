//! The answers that the transports bring.
use assertion_support::expect_eq;
use cog_client::{Lost, Transport};
use fixtures_support::{f1, f2};
use std::process::Abort;
use std::test::Fail;
use transports::{Fate, InMemory, Scripted, server_of_one};

const REQUEST: &[u8] = b"GET /a HTTP/1.1\r\nHost: h\r\nRange: bytes=1-2\r\n\r\n";

const TEXT: &[u8] =
    b"HTTP/1.1 206 Partial Content\r\nETag: \"1-1\"\r\nAccept-Ranges: bytes\r\nContent-Type: image/tiff\r\n\
    Content-Range: bytes 1-2/378\r\nContent-Length: 2\r\n\r\nI*";

const FATES: [Fate; 6] = [
    Fate::Whole,
    Fate::Lost,
    Fate::Cut(0),
    Fate::Cut(17),
    Fate::Cut(1000),
    Fate::Whole,
];

/// How many bytes of the text come of each answer. There is one more answer than there are fates.
const LENGTHS: [Option<usize>; 7] = [
    Some(TEXT.len()),
    None,
    Some(0),
    Some(17),
    Some(TEXT.len()),
    Some(TEXT.len()),
    None,
];

/// Returns whether `length` bytes of the text came, or nothing.
fn is_front(came: &Result<Vec<u8>, Lost>, length: Option<usize>) -> bool {
    match (came, length) {
        (Err(Lost), None) => true,
        (Ok(text), Some(length)) => TEXT.get(..length) == Some(text.as_slice()),
        _ => false,
    }
}

/// Expects this of the next exchange, of seven.
fn expect_front(
    rt: &impl Abort,
    transport: &mut Scripted<'_, InMemory<'_>>,
    length: Option<usize>,
) {
    assert!(rt; transport.exchanges() < 7);
    let came = transport.exchange(REQUEST);
    assert!(rt; is_front(&came, length), "{length:?}");
}

#[test]
fn loses_and_cuts_answers_by_its_list(rt: HostRuntime) -> Result<(), Fail> {
    let server = server_of_one(rt.alloc(), 1, b"a", f1(rt.alloc())?)?;
    let mut transport = Scripted::new(InMemory::new(&server, b"a"), &FATES);
    for length in LENGTHS {
        expect_front(&rt, &mut transport, length);
    }
    expect_eq!(rt; transport.exchanges(), 7);
    Ok(())
}

/// A server of two files is asked over a transport for one of them. A row has a message, and whether its answer comes.
const MESSAGES: [(&[u8], bool); 4] = [
    (REQUEST, true),
    (b"GET /b HTTP/1.1\r\nHost: h\r\n\r\n", false),
    (b"GET /c HTTP/1.1\r\nHost: h\r\n\r\n", true),
    (b"\r\n", true),
];

/// Expects that the answer to a message comes, or doesn't, in the next exchange, of four.
fn expect_answer(rt: &impl Abort, transport: &mut InMemory<'_>, message: &[u8], comes: bool) {
    assert!(rt; transport.exchanges() < 4);
    assert_eq!(rt; transport.exchange(message).is_ok(), comes, "{message:?}");
}

#[test]
fn brings_no_answer_about_another_file(rt: HostRuntime) -> Result<(), Fail> {
    let mut server = server_of_one(rt.alloc(), 1, b"a", f1(rt.alloc())?)?;
    server.publish(b"b", f2(rt.alloc())?)?;
    let mut transport = InMemory::new(&server, b"a");
    for (message, comes) in MESSAGES {
        expect_answer(&rt, &mut transport, message, comes);
    }
    Ok(())
}
