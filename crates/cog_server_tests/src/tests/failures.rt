//! Readers and writers that fail: what was written by then, and which failure is reported.
use super::answers::{FIRST, publish, server_of_f1, text_of};
use super::streams::{ASKS_FIRST, two_messages};
use assertion_support::expect_eq;
use cog_server::{
    AfterBytes, AfterPieces, Ended, Inlet, Outlet, ScriptedInlet, ScriptedOutlet, ServeError,
    Served, Server,
};
use std::alloc::Global;
use std::process::Abort;
use std::test::Fail;

/// The head of the answer with the 65,536 bytes that are published second.
const LONG_HEAD: &[u8] =
    b"HTTP/1.1 200 OK\r\nETag: \"1-2\"\r\nAccept-Ranges: bytes\r\nContent-Type: image/tiff\r\nContent-Length: 65536\r\n\r\n";

#[test]
fn numbers_the_failures_of_a_stream(rt: HostRuntime) {
    expect_eq!(rt; ServeError::Read.number(), 1);
    expect_eq!(rt; ServeError::Write.number(), 2);
    expect_eq!(rt; ServeError::Memory.number(), 3);
}

/// The result of serving a stream, and the reader and the writer after it.
type Run = (Result<Served, ServeError>, ScriptedInlet, ScriptedOutlet);

/// The result of serving a stream, and whether the reader and the writer have failed.
type Told = (Result<Served, ServeError>, bool, bool);

/// Serves a stream to a writer that takes these pieces, and then what comes after them. `behind` is what follows the bytes of the stream.
fn serve(
    server: &Server,
    alloc: Global,
    (stream, behind): (&[u8], AfterBytes),
    (pieces, after): (Vec<usize>, AfterPieces),
) -> Result<Run, Fail> {
    let bytes = Vec::from_slice(alloc, stream)?;
    let mut inlet = ScriptedInlet::new(bytes, Vec::new(alloc), behind);
    let mut outlet = ScriptedOutlet::new(alloc, pieces, after);
    let result = server.serve(&mut inlet, &mut outlet);
    Ok((result, inlet, outlet))
}

/// Expects that reading fails after a stream, and that this text was written by then.
fn expect_read_failure(
    rt: &(impl Abort + AllocGlobal),
    server: &Server,
    stream: &[u8],
    text: &[u8],
) -> Result<(), Fail> {
    let all = (Vec::new(rt.alloc()), AfterPieces::All);
    let run = serve(server, rt.alloc(), (stream, AfterBytes::Failure), all)?;
    let told = (Err(ServeError::Read), true, false);
    expect_run(rt, &run, (told, text), (AfterPieces::All, stream.len()));
    Ok(())
}

/// Expects the result of serving, whether the reader and the writer have failed, and the text that was written. A failure prints what the
/// writer does after the pieces, and their count.
fn expect_run(
    rt: &(impl Abort + AllocGlobal),
    (served, inlet, outlet): &Run,
    (told, text): (Told, &[u8]),
    (after, count): (AfterPieces, usize),
) {
    assert_eq!(rt; outlet.taken(), text, "{after:?} after {count}");
    expect_eq!(rt;
        (*served, inlet.failed(), outlet.failed()),
        told,
        "{after:?} after {count}"
    );
}

#[test]
fn answers_the_whole_messages_before_a_failed_read(rt: HostRuntime) -> Result<(), Fail> {
    let server = server_of_f1(rt.alloc())?;
    let first = text_of(rt.alloc(), &FIRST)?;
    expect_eq!(rt; first.len(), 143);
    expect_read_failure(&rt, &server, ASKS_FIRST, &first)?;
    let (stream, text) = two_messages(rt.alloc())?;
    expect_read_failure(&rt, &server, &stream, &text)?;
    expect_read_failures(&rt, &server, &stream, &first)
}

/// Expects that reading fails after each front of two messages. The first answer is written after its message is whole.
fn expect_read_failures(
    rt: &(impl Abort + AllocGlobal),
    server: &Server,
    stream: &[u8],
    first: &[u8],
) -> Result<(), Fail> {
    for end in 0..stream.len() {
        let front = stream.get(..end).ok_or("no such front")?;
        let text: &[u8] = if end < ASKS_FIRST.len() { b"" } else { first };
        expect_read_failure(rt, server, front, text)?;
    }
    Ok(())
}

/// Expects that exactly the first `count` bytes of the text are written. The writer takes that many, one at a time, and then fails, or
/// takes nothing.
fn expect_write_failure(
    rt: &(impl Abort + AllocGlobal),
    server: &Server,
    (stream, text): (&[u8], &[u8]),
    count: usize,
    after: AfterPieces,
) -> Result<(), Fail> {
    let pieces = (vec![in rt.alloc(); 1usize; count]?, after);
    let run = serve(server, rt.alloc(), (stream, AfterBytes::End), pieces)?;
    let told = (Err(ServeError::Write), false, true);
    let front = text.get(..count).ok_or("no such front")?;
    expect_run(rt, &run, (told, front), (after, count));
    Ok(())
}

#[test]
fn writes_what_a_failing_writer_takes(rt: HostRuntime) -> Result<(), Fail> {
    let server = server_of_f1(rt.alloc())?;
    let first = text_of(rt.alloc(), &FIRST)?;
    for after in [AfterPieces::Zero, AfterPieces::Failure] {
        for count in 0..143 {
            expect_write_failure(&rt, &server, (ASKS_FIRST, first.as_slice()), count, after)?;
        }
    }
    Ok(())
}

#[test]
fn writes_what_a_failing_writer_takes_of_two_answers(rt: HostRuntime) -> Result<(), Fail> {
    let server = server_of_f1(rt.alloc())?;
    let (stream, text) = two_messages(rt.alloc())?;
    for after in [AfterPieces::Zero, AfterPieces::Failure] {
        for count in 0..text.len() {
            let both = (stream.as_slice(), text.as_slice());
            expect_write_failure(&rt, &server, both, count, after)?;
        }
    }
    Ok(())
}

/// Expects that a stream of this message is answered by this text, where the writer takes these pieces and then fails.
fn expect_pieces(
    rt: &(impl Abort + AllocGlobal),
    server: &Server,
    stream: &[u8],
    pieces: Vec<usize>,
    text: &[u8],
) -> Result<(), Fail> {
    let pieces = (pieces, AfterPieces::Failure);
    let run = serve(server, rt.alloc(), (stream, AfterBytes::End), pieces)?;
    let ended = Ended::EndOfInput;
    let told = (Ok(Served { answers: 1, ended }), false, false);
    expect_run(rt, &run, (told, text), (AfterPieces::Failure, text.len()));
    Ok(())
}

/// Expects that a short answer is one write, and that one with a long body is two. The first of the two has at most 16,384 bytes.
#[test]
fn writes_a_short_answer_at_once_and_a_long_body_in_two(rt: HostRuntime) -> Result<(), Fail> {
    let alloc = rt.alloc();
    let mut server = server_of_f1(alloc)?;
    let first = text_of(alloc, &FIRST)?;
    expect_pieces_of_the_first(&rt, &server, &first)?;
    publish(&mut server, b"b", vec![in alloc; 7u8; 65536]?)?;
    expect_two_pieces_of_the_long(&rt, &server)
}

/// Expects this text of a short answer, where the writer takes one byte at a time, and where it takes all at once.
fn expect_pieces_of_the_first(
    rt: &(impl Abort + AllocGlobal),
    server: &Server,
    text: &[u8],
) -> Result<(), Fail> {
    let ones = vec![in rt.alloc(); 1usize; 143]?;
    expect_pieces(rt, server, ASKS_FIRST, ones, text)?;
    let one = vec![in rt.alloc(); usize::MAX]?;
    expect_pieces(rt, server, ASKS_FIRST, one, text)
}

/// Expects the answer with the long body, where the writer takes two pieces.
fn expect_two_pieces_of_the_long(
    rt: &(impl Abort + AllocGlobal),
    server: &Server,
) -> Result<(), Fail> {
    let message = b"GET /b HTTP/1.1\r\nHost: h\r\n\r\n";
    let mut text = Vec::from_slice(rt.alloc(), LONG_HEAD)?;
    text.resize(LONG_HEAD.len() + 65536, 7)?;
    let two = vec![in rt.alloc(); 16384usize, usize::MAX]?;
    expect_pieces(rt, server, message, two, &text)
}
