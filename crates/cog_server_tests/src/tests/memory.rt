//! Where memory is refused, the failure reports that. Nothing has changed, and the same call succeeds later. Each test passes with ample
//! memory, and wherever one allocation is refused.
use assertion_support::expect_eq;
use cog_server::{Inlet, Outlet, PublishError, ServeError, Served, Server, Stream};
use http_range::{Memory, publication_tag};
use std::alloc::Global;
use std::process::Abort;
use std::test::Fail;

const REQUEST: &[u8] = b"GET /a HTTP/1.1\r\nHost: h\r\nRange: bytes=1-2\r\n\r\n";

const TEXT: &[u8] =
    b"HTTP/1.1 206 Partial Content\r\nETag: \"1-1\"\r\nAccept-Ranges: bytes\r\nContent-Type: image/tiff\r\n\
    Content-Range: bytes 1-2/4\r\nContent-Length: 2\r\n\r\nIL";

/// Returns the four bytes of a file. Makes them again where memory was refused.
fn file_again(alloc: Global) -> Result<Vec<u8>, Fail> {
    match Vec::from_slice(alloc, b"FILE") {
        Err(_) => Ok(Vec::from_slice(alloc, b"FILE")?),
        Ok(file) => Ok(file),
    }
}

/// Publishes the file. Publishes it a second time where memory was refused.
fn publish(rt: &(impl Abort + AllocGlobal), server: &mut Server) -> Result<(), Fail> {
    let file = file_again(rt.alloc())?;
    if let Err(refusal) = server.publish(b"a", file) {
        assert!(rt; server.file(b"a").is_none());
        publish_after(rt, server, refusal, (b"a", 1))?;
    }
    Ok(())
}

/// Publishes the file after memory was refused, as publication number `number`.
fn publish_after(
    rt: &(impl Abort + AllocGlobal),
    server: &mut Server,
    refusal: PublishError,
    (name, number): (&[u8], u32),
) -> Result<(), Fail> {
    expect_eq!(rt; refusal.number(), 6);
    let file = file_again(rt.alloc())?;
    let tag = server.publish(name, file).map_err(|_| "refused twice")?;
    assert!(rt; tag == publication_tag(1, number));
    Ok(())
}

/// Returns the text of the answer to a message. Asks again where memory was refused.
fn answer_again(server: &Server, message: &[u8]) -> Result<Vec<u8>, Memory> {
    match server.answer(message) {
        Err(Memory) => Ok(server.answer(message)?.text),
        Ok(answer) => Ok(answer.text),
    }
}

#[test]
fn answers_again_after_refused_memory(rt: HostRuntime) -> Result<(), Fail> {
    let mut server = Server::new(rt.alloc(), 1);
    publish(&rt, &mut server)?;
    let answer = match server.answer(REQUEST) {
        Ok(answer) => answer,
        Err(Memory) => server.answer(REQUEST)?,
    };
    assert_eq!(rt; (answer.text.as_slice(), answer.body), (TEXT, 2));
    Ok(())
}

/// Returns the answers to requests for two names.
fn answers_of_two(server: &Server) -> Result<(Vec<u8>, Vec<u8>), Memory> {
    Ok((
        answer_again(server, b"GET /a HTTP/1.1\r\nHost: h\r\n\r\n")?,
        answer_again(server, b"GET /b HTTP/1.1\r\nHost: h\r\n\r\n")?,
    ))
}

/// Expects that a file is answered as before where a publication under its name is refused. The requests for every other name are answered
/// as before, too.
#[test]
fn answers_as_before_a_publication_that_is_refused(rt: HostRuntime) -> Result<(), Fail> {
    let mut server = Server::new(rt.alloc(), 1);
    publish(&rt, &mut server)?;
    expect_same_answers(&rt, &mut server, (b"a", 2))?;
    expect_same_answers(&rt, &mut server, (b"b", 3))
}

/// Expects the same answers after a publication under this name is refused. Then publishes it again, as publication number `number`.
fn expect_same_answers(
    rt: &(impl Abort + AllocGlobal),
    server: &mut Server,
    (name, number): (&[u8], u32),
) -> Result<(), Fail> {
    let (a, b) = answers_of_two(server)?;
    let file = file_again(rt.alloc())?;
    if let Err(refusal) = server.publish(name, file) {
        expect_answers_of_two(rt, server, (&a, &b))?;
        publish_after(rt, server, refusal, (name, number))?;
    }
    Ok(())
}

/// Expects these answers to requests for two names.
fn expect_answers_of_two(
    rt: &(impl Abort + AllocGlobal),
    server: &Server,
    want: (&[u8], &[u8]),
) -> Result<(), Fail> {
    let (a, b) = answers_of_two(server)?;
    assert_eq!(rt; (a.as_slice(), b.as_slice()), want);
    Ok(())
}

/// Expects that one request is served a second time where memory was refused. By then nothing is written.
#[test]
fn serves_again_after_refused_memory(rt: HostRuntime) -> Result<(), Fail> {
    let mut server = Server::new(rt.alloc(), 1);
    publish(&rt, &mut server)?;
    let mut room = [0u8; 512];
    let served = serve_again(&rt, &server, room.as_mut_slice())?;
    assert_eq!(rt;
        (
            served.answers,
            room.starts_with(TEXT),
            room.get(TEXT.len()).copied()
        ),
        (1, true, Some(0))
    );
    Ok(())
}

/// Serves one request into a room. Serves it again where memory was refused: then neither end has failed.
fn serve_again(
    rt: &(impl Abort + AllocGlobal),
    server: &Server,
    room: &mut [u8],
) -> Result<Served, Fail> {
    let mut inlet = Stream::new(REQUEST);
    let mut outlet = Stream::new(&mut *room);
    let result = server.serve(&mut inlet, &mut outlet);
    let failed = (inlet.failed(), outlet.failed());
    match result {
        Ok(served) => Ok(served),
        Err(failure) => {
            expect_eq!(rt; (failure, failed), (ServeError::Memory, (false, false)));
            let mut outlet = Stream::new(room);
            Ok(server.serve(&mut Stream::new(REQUEST), &mut outlet)?)
        }
    }
}

/// The request, twice.
const TWICE: &[u8] = b"GET /a HTTP/1.1\r\nHost: h\r\nRange: bytes=1-2\r\n\r\n\
    GET /a HTTP/1.1\r\nHost: h\r\nRange: bytes=1-2\r\n\r\n";

/// Expects that whole answers to the first messages are written before memory is refused, and nothing of the next answer.
#[test]
fn serves_whole_answers_alone_before_refused_memory(rt: HostRuntime) -> Result<(), Fail> {
    let mut server = Server::new(rt.alloc(), 1);
    publish(&rt, &mut server)?;
    let mut room = [0u8; 512];
    let result = serve_twice(&rt, &server, room.as_mut_slice());
    let answers = match result {
        Ok(served) => {
            expect_eq!(rt; served.answers, 2);
            2
        }
        Err(failure) => {
            expect_eq!(rt; failure, ServeError::Memory);
            usize::from(room.starts_with(b"HTTP"))
        }
    };
    expect_written(&rt, &room, answers);
    Ok(())
}

/// Serves the request twice into a room. Expects that neither end fails.
fn serve_twice(
    rt: &(impl Abort + AllocGlobal),
    server: &Server,
    room: &mut [u8],
) -> Result<Served, ServeError> {
    let mut inlet = Stream::new(TWICE);
    let mut outlet = Stream::new(room);
    let result = server.serve(&mut inlet, &mut outlet);
    expect_eq!(rt; (inlet.failed(), outlet.failed()), (false, false));
    result
}

/// Expects `answers` answers in a room, and nothing after them.
fn expect_written(rt: &(impl Abort + AllocGlobal), room: &[u8], answers: usize) {
    let mut written = room;
    for _ in 0..answers {
        assert!(rt; written.starts_with(TEXT));
        written = written.get(TEXT.len()..).unwrap_or(&[]);
    }
    assert!(rt; written.iter().all(|byte| *byte == 0));
}
