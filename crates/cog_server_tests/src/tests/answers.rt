//! Answers to requests for ranges of f1, which is published as `a` in epoch 1.
use super::streams::expect_served;
use cog_server::{Answer, Ended, Served, Server};
use fixtures_support::f1;
use std::alloc::Global;
use std::process::Abort;
use std::test::Fail;

/// What an answer is: its head and status, whether it closes, and whether it carries the tag of `a`. Its body has the bytes of f1 from
/// `from` to before `to`.
#[derive(Clone, Copy)]
pub struct Want {
    pub head: &'static [u8],
    pub status: u16,
    pub close: bool,
    pub named: bool,
    pub from: usize,
    pub to: usize,
}

/// Makes a server that has f1.
pub fn server_of_f1(alloc: Global) -> Result<Server, Fail> {
    let mut server = Server::new(alloc, 1);
    publish(&mut server, b"a", f1(alloc)?)?;
    Ok(server)
}

/// Publishes a file that isn't refused.
pub fn publish(server: &mut Server, name: &[u8], file: Vec<u8>) -> Result<(), Fail> {
    match server.publish(name, file) {
        Ok(_) => Ok(()),
        Err(_) => Err("refused")?,
    }
}

/// A row has a message, and its answer.
pub type Row<'a> = (&'a str, Want);

/// Expects this answer to a message, by a call and on a stream of this message alone.
pub fn expect_answer(
    rt: &(impl Abort + AllocGlobal),
    server: &Server,
    (message, want): Row<'_>,
) -> Result<(), Fail> {
    expect_called(rt, server, (message, want))?;
    let text = text_of(rt.alloc(), &want)?;
    let ended = if want.close {
        Ended::Closed
    } else {
        Ended::EndOfInput
    };
    let one = Served { answers: 1, ended };
    expect_served(rt, server, message.as_bytes(), &[], &text, one)
}

/// Expects this answer to a message by a call.
pub fn expect_called(
    rt: &(impl Abort + AllocGlobal),
    server: &Server,
    (message, want): Row<'_>,
) -> Result<(), Fail> {
    let answer = server.answer(message.as_bytes())?;
    let file = f1(rt.alloc())?;
    let body = file.get(want.from..want.to).ok_or("no such part")?;
    expect_text(rt, &answer, (message, &want), body);
    expect_values(rt, &answer, (message, &want), body.len() as u64);
    Ok(())
}

/// Expects the head and this body in the text of an answer.
fn expect_text(
    rt: &(impl Abort + AllocGlobal),
    answer: &Answer,
    (message, want): (&str, &Want),
    body: &[u8],
) {
    let is_begun = answer.text.starts_with(want.head);
    let rest = answer.text.get(want.head.len()..);
    assert_eq!(rt; (is_begun, rest), (true, Some(body)), "to {message:?}");
}

/// Expects all of an answer but its text. Its body has `body` bytes.
fn expect_values(
    rt: &(impl Abort + AllocGlobal),
    answer: &Answer,
    (message, want): (&str, &Want),
    body: u64,
) {
    let named = if want.named { NAME_OF_F1 } else { None };
    assert_eq!(rt;
        (answer.status, answer.close, answer.body, name_of(answer)),
        (want.status, want.close, body, named),
        "to {message:?}"
    );
}

/// The name under which a server has f1.
const NAME_OF_F1: Option<&[u8]> = Some(b"a");

/// Returns the name of the file whose tag an answer carries.
fn name_of(answer: &Answer) -> Option<&[u8]> {
    match &answer.name {
        Some(name) => Some(name.as_slice()),
        None => None,
    }
}

/// Returns the bytes of an answer.
pub fn text_of(alloc: Global, want: &Want) -> Result<Vec<u8>, Fail> {
    let file = f1(alloc)?;
    let mut text = Vec::from_slice(alloc, want.head)?;
    text.extend_from_slice(file.get(want.from..want.to).ok_or("no such part")?)?;
    Ok(text)
}

/// An answer with all bytes of the file as a range.
const ALL: Want = Want {
    head: b"HTTP/1.1 206 Partial Content\r\nETag: \"1-1\"\r\nAccept-Ranges: bytes\r\nContent-Type: image/tiff\r\nContent-Range: bytes 0-377/378\r\nContent-Length: 378\r\n\r\n",
    status: 206,
    close: false,
    named: true,
    from: 0,
    to: 378,
};

/// An answer with the whole file, without a range.
pub const WHOLE: Want = Want {
    head: b"HTTP/1.1 200 OK\r\nETag: \"1-1\"\r\nAccept-Ranges: bytes\r\nContent-Type: image/tiff\r\nContent-Length: 378\r\n\r\n",
    status: 200,
    ..ALL
};

/// An answer with the first byte.
pub const FIRST: Want = Want {
    head: b"HTTP/1.1 206 Partial Content\r\nETag: \"1-1\"\r\nAccept-Ranges: bytes\r\nContent-Type: image/tiff\r\nContent-Range: bytes 0-0/378\r\nContent-Length: 1\r\n\r\n",
    to: 1,
    ..ALL
};

/// An answer with the last byte.
pub const LAST: Want = Want {
    head: b"HTTP/1.1 206 Partial Content\r\nETag: \"1-1\"\r\nAccept-Ranges: bytes\r\nContent-Type: image/tiff\r\nContent-Range: bytes 377-377/378\r\nContent-Length: 1\r\n\r\n",
    from: 377,
    ..ALL
};

/// An answer to a range of which the file has no byte.
const UNSATISFIED: Want = Want {
    head: b"HTTP/1.1 416 Range Not Satisfiable\r\nContent-Range: bytes */378\r\nContent-Length: 0\r\n\r\n",
    status: 416,
    named: false,
    to: 0,
    ..ALL
};

/// Expects this answer to a GET of `/a` with these field lines after Host.
fn expect_get(
    rt: &(impl Abort + AllocGlobal),
    server: &Server,
    (lines, want): Row<'_>,
) -> Result<(), Fail> {
    let message = format!(in rt.alloc(); "GET /a HTTP/1.1\r\nHost: h\r\n{lines}\r\n")?;
    expect_answer(rt, server, (message.as_str(), want))
}

/// Expects the same for each row, from a server that has f1.
fn expect_gets(rt: &(impl Abort + AllocGlobal), rows: &[Row<'_>]) -> Result<(), Fail> {
    let server = server_of_f1(rt.alloc())?;
    for row in rows {
        expect_get(rt, &server, *row)?;
    }
    Ok(())
}

/// Rows of field lines of a GET of f1, and its answer: ranges about its end.
#[rattlefmt::skip]
const ABOUT_THE_END: [Row<'static>; 2] = [
    ("Range: bytes=378-\r\n", UNSATISFIED),
    ("Range: bytes=377-\r\n", LAST),
];

/// Rows of ranges of the last bytes.
#[rattlefmt::skip]
const SUFFIXES: [Row<'static>; 2] = [
    ("Range: bytes=-0\r\n", UNSATISFIED),
    ("Range: bytes=-1000\r\n", ALL),
];

/// Rows of ranges in other letters and in many digits.
#[rattlefmt::skip]
const OTHER_FORMS: [Row<'static>; 3] = [
    ("rAnGe:\t BYTES=0-0 \r\n", FIRST),
    ("Range: bytes=0-999999999999999999999999999999\r\n", ALL),
    ("Range: bytes=999999999999999999999999999999-99999999999999999999999999999\r\n", WHOLE),
];

/// Rows without a range of bytes, and with more than one.
#[rattlefmt::skip]
const NOT_ONE_RANGE: [Row<'static>; 5] = [
    ("", WHOLE),
    ("Range: bytes=5-4\r\n", WHOLE),
    ("Range: bytes=0-0,5-6\r\n", WHOLE),
    ("Range: lines=0-1\r\n", WHOLE),
    ("Range: bytes=0-0\r\nRange: bytes=0-0\r\n", WHOLE),
];

/// Rows of ranges on the condition of a tag.
#[rattlefmt::skip]
const IF_RANGE: [Row<'static>; 5] = [
    ("Range: bytes=0-0\r\nIf-Range: W/\"1-1\"\r\n", WHOLE),
    ("Range: bytes=0-0\r\nIf-Range: \"1-1\"\r\n", FIRST),
    ("Range: bytes=0-0\r\nIf-Range: \"1-1\"\r\nIf-Range: \"1-1\"\r\n", WHOLE),
    ("Range: bytes=378-\r\nIf-Range: \"1-2\"\r\n", WHOLE),
    ("If-Range: \"1-1\"\r\n", WHOLE),
];

#[test]
fn refuses_a_range_from_the_end_on(rt: HostRuntime) -> Result<(), Fail> {
    expect_gets(&rt, &ABOUT_THE_END)
}

#[test]
fn answers_a_suffix_range_with_the_end_of_the_file(rt: HostRuntime) -> Result<(), Fail> {
    expect_gets(&rt, &SUFFIXES)
}

#[test]
fn reads_ranges_in_any_case_and_of_any_length(rt: HostRuntime) -> Result<(), Fail> {
    expect_gets(&rt, &OTHER_FORMS)
}

#[test]
fn ignores_a_value_that_is_not_one_range(rt: HostRuntime) -> Result<(), Fail> {
    expect_gets(&rt, &NOT_ONE_RANGE)
}

#[test]
fn answers_the_range_only_if_the_tag_is_the_same(rt: HostRuntime) -> Result<(), Fail> {
    expect_gets(&rt, &IF_RANGE)
}

/// Expects that the file of another name changes no answer, and that a new file of the name changes them all.
#[test]
fn answers_anew_only_where_the_name_is_published_again(rt: HostRuntime) -> Result<(), Fail> {
    let alloc = rt.alloc();
    let mut server = server_of_f1(alloc)?;
    publish(&mut server, b"b", Vec::from_slice(alloc, b"b")?)?;
    expect_get(&rt, &server, ("Range: bytes=377-\r\n", LAST))?;
    publish(&mut server, b"a", f1(alloc)?)?;
    expect_the_third_whole(&rt, &server)
}

/// Expects that a range of the first publication is answered by the whole file of the third.
fn expect_the_third_whole(rt: &(impl Abort + AllocGlobal), server: &Server) -> Result<(), Fail> {
    let answer = server.answer(
        b"GET /a HTTP/1.1\r\nHost: h\r\nRange: bytes=0-0\r\nIf-Range: \"1-1\"\r\n\r\n",
    )?;
    let front = b"HTTP/1.1 200 OK\r\nETag: \"1-3\"\r\n";
    assert_eq!(rt;
        (answer.status, answer.text.starts_with(front)),
        (200, true)
    );
    Ok(())
}
