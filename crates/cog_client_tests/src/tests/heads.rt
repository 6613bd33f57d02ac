//! Answers that our server never sends.
use super::expect;
use assertion_support::expect_eq;
use cog_client_support::Answer::{self, Bytes, LongPart, Part, PartOf, Text, WholeOf};
use cog_client_support::Step::{Asks, Ignores, IsSilent, Opens, Refuses, Reports, Stands, Takes};
use cog_client_support::{
    ASKS_END, ASKS_FRONT, END, F2_TWICE, FIRST, NotDone, OLD, Positions, Step, otherwise,
};
use cog_reader_support::Want;
use std::alloc::{AllocError, Global};
use std::test::Fail;
use tiff_dir::FileFault;

/// A row has a head, and the number under which it is ignored.
#[rattlefmt::skip]
const REFUSED: [(&str, u8); 14] = [
    ("HTTP/1.1 206 Partial Content\r\nETag: \"1-1\"\r\nContent-Range: bytes 0-9/5\r\nContent-Length: 10\r\n\r\n", 7),
    ("HTTP/1.1 206 Partial Content\r\nETag: \"1-1\"\r\nContent-Range: bytes 9-0/50\r\nContent-Length: 10\r\n\r\n", 7),
    ("HTTP/1.1 206 Partial Content\r\nETag: \"1-1\"\r\nContent-Length: 10\r\n\r\n", 7),
    ("HTTP/1.1 206 Partial Content\r\nETag: \"1-1\"\r\nContent-Range: bytes 0-9/50\r\nContent-Length: 99999999999999999999\r\n\r\n", 8),
    ("HTTP/1.1 206 Partial Content\r\nETag: \"1-1\"\r\nContent-Range: bytes 0-9/50\r\nContent-Length: 9\r\n\r\n", 8),
    ("HTTP/1.1 200 OK\r\nETag: \"1-1\"\r\nContent-Length: 99999999999999999999\r\n\r\n", 8),
    ("HTTP/1.1 200 OK\r\nETag: \"1-1\"\r\n\r\n", 8),
    ("HTTP/1.1 200 OK\r\nETag: W/\"1-1\"\r\nContent-Length: 0\r\n\r\n", 5),
    ("HTTP/1.1 200 OK\r\nETag: 1-1\r\nContent-Length: 0\r\n\r\n", 4),
    ("HTTP/1.1 200 OK\r\nETag: \"1-1\"\r\nETag: \"1-1\"\r\nContent-Length: 0\r\n\r\n", 4),
    ("HTTP/1.1 200 OK\r\nETag: \"234567890123456789012345678901234567890123456789012345678901234\"\r\nContent-Length: 0\r\n\r\n", 6),
    ("HTTP/1.1 200 OK\r\nETag: \"1-1\"\r\nContent-Length: 0\r\nTransfer-Encoding: chunked\r\n\r\n", 9),
    ("HTTP/1.1 200 OK\r\nETag: \"1-1\"\r\nContent-Length: 0\r\nContent-Encoding: gzip\r\n\r\n", 9),
    ("HTTP 200 OK\r\n\r\n", 2),
];

/// Answers of other statuses, with their numbers.
#[rattlefmt::skip]
const STATUSES: [(&str, u8); 7] = [
    ("HTTP/1.1 304 Not Modified\r\nETag: \"1-1\"\r\nConnection: close\r\n\r\n", 3),
    ("HTTP/1.1 400 Bad Request\r\nContent-Length: 0\r\nConnection: close\r\n\r\n", 3),
    ("HTTP/1.1 404 Not Found\r\nContent-Length: 0\r\nConnection: close\r\n\r\n", 3),
    ("HTTP/1.1 405 Method Not Allowed\r\nAllow: GET, HEAD\r\nContent-Length: 0\r\nConnection: close\r\n\r\n", 3),
    ("HTTP/1.1 412 Precondition Failed\r\nContent-Length: 0\r\nConnection: close\r\n\r\n", 3),
    ("HTTP/1.1 416 Range Not Satisfiable\r\nContent-Range: bytes */67706\r\nContent-Length: 0\r\nConnection: close\r\n\r\n", 3),
    ("HTTP/1.1 201 Created\r\nETag: \"1-1\"\r\nContent-Length: 0\r\n\r\n", 3),
];

/// The greatest length of a file. The last byte has position 18446744073709551614.
const GREATEST: usize = 18446744073709551615;

const LAST: usize = 18446744073709551614;

/// The positions that are missing after the first bytes of the greatest file.
const SIXTH: Positions = (65536, 81919);

/// A head of 32 fields.
const MOST_FIELDS: &[u8] = b"HTTP/1.1 200 OK\r\nETag: \"1\"\r\nContent-Length: 0\r\n\
    A: 1\r\nA: 1\r\nA: 1\r\nA: 1\r\nA: 1\r\nA: 1\r\nA: 1\r\nA: 1\r\nA: 1\r\nA: 1\r\nA: 1\r\nA: 1\r\n\
    A: 1\r\nA: 1\r\nA: 1\r\nA: 1\r\nA: 1\r\nA: 1\r\nA: 1\r\nA: 1\r\nA: 1\r\nA: 1\r\nA: 1\r\nA: 1\r\n\
    A: 1\r\nA: 1\r\nA: 1\r\nA: 1\r\nA: 1\r\nA: 1\r\n\
    \r\n";

/// A head of 33 fields.
const MORE_FIELDS: &str = "HTTP/1.1 200 OK\r\nETag: \"1\"\r\nContent-Length: 0\r\n\
    A: 1\r\nA: 1\r\nA: 1\r\nA: 1\r\nA: 1\r\nA: 1\r\nA: 1\r\nA: 1\r\nA: 1\r\nA: 1\r\nA: 1\r\nA: 1\r\n\
    A: 1\r\nA: 1\r\nA: 1\r\nA: 1\r\nA: 1\r\nA: 1\r\nA: 1\r\nA: 1\r\nA: 1\r\nA: 1\r\nA: 1\r\nA: 1\r\n\
    A: 1\r\nA: 1\r\nA: 1\r\nA: 1\r\nA: 1\r\nA: 1\r\nA: 1\r\n\
    \r\n";

const FIELDS: [Step<'static>; 2] = [Refuses(&[(MORE_FIELDS, 2)]), Takes(Text(MOST_FIELDS), 0)];

/// Steps where the rest of the file comes after the announced bytes.
const LONG_BODIES: [Step<'static>; 5] = [
    Takes(LongPart(0, 0, 16382, 67705), 0),
    Asks((0, 16383), Some(OLD)),
    Takes(LongPart(0, 0, 16383, 67705), 1),
    Opens(0, 99, 1, 1),
    Asks((16384, 32767), Some(OLD)),
];

const LONG_FIRST_BODY: [Step<'static>; 3] = [
    Takes(LongPart(0, 0, 16383, 67705), 1),
    Opens(0, 99, 1, 1),
    Asks((16384, 32767), Some(OLD)),
];

/// Steps with refused heads before the first revision and with one, whether something is asked or not.
const REFUSED_HEADS: [Step<'static>; 13] = [
    Opens(240, 240, 16, 16),
    Refuses(&REFUSED),
    Refuses(&STATUSES),
    Asks(FIRST, None),
    Refuses(&REFUSED),
    Refuses(&STATUSES),
    Takes(Part(0, 0, 65535), 4),
    Refuses(&REFUSED),
    Refuses(&STATUSES),
    Asks(END, Some(OLD)),
    Refuses(&REFUSED),
    Refuses(&STATUSES),
    Asks(END, Some(OLD)),
];

/// Steps with a file without bytes, and so without a header.
const NO_BYTES: [Step<'static>; 2] = [
    Takes(WholeOf("\"0\"", b""), 0),
    Reports("\"0\"", Want::Fault(FileFault::PastEnd)),
];

const GREATEST_LENGTH: [Step<'static>; 5] = [
    Takes(PartOf(0, 0, 65535, GREATEST), 4),
    Asks(SIXTH, Some(OLD)),
    Ignores(Bytes(OLD, LAST, b"x", GREATEST), 12),
    Takes(PartOf(0, 65536, 67705, GREATEST), 0),
    Asks(SIXTH, Some(OLD)),
];

#[test]
fn reads_heads_of_at_most_32_fields(rt: HostRuntime) -> Result<(), Fail> {
    expect(&rt, &F2_TWICE, &[&ASKS_FRONT, &FIELDS])
}

#[test]
fn passes_over_bytes_that_are_not_announced(rt: HostRuntime) -> Result<(), Fail> {
    expect(&rt, &F2_TWICE, &[&ASKS_FRONT, &LONG_BODIES])
}

#[test]
fn passes_over_them_in_a_first_answer(rt: HostRuntime) -> Result<(), Fail> {
    expect(&rt, &F2_TWICE, &[&ASKS_FRONT, &LONG_FIRST_BODY])
}

#[test]
fn ignores_heads_that_it_cannot_use(rt: HostRuntime) -> Result<(), Fail> {
    expect(&rt, &F2_TWICE, &[&REFUSED_HEADS])
}

#[test]
fn reports_a_fault_of_a_file_without_bytes(rt: HostRuntime) -> Result<(), Fail> {
    expect(&rt, &F2_TWICE, &[&ASKS_FRONT, &NO_BYTES])
}

#[test]
fn reads_a_file_of_the_greatest_length(rt: HostRuntime) -> Result<(), Fail> {
    expect(&rt, &F2_TWICE, &[&ASKS_FRONT, &GREATEST_LENGTH])
}

/// Parts of a first revision that bring no byte that is asked.
const BESIDE: [Answer<'static>; 3] = [
    Bytes(OLD, LAST, b"x", GREATEST),
    Part(0, 65536, 67705),
    Text(b"HTTP/1.1 200 OK\r\nETag: \"1-1\"\r\nContent-Length: 67706\r\n\r\n"),
];

#[test]
fn adopts_a_revision_of_which_it_gets_no_block(rt: HostRuntime) -> Result<(), Fail> {
    for answer in BESIDE {
        let steps = [
            Takes(answer, 0),
            IsSilent,
            Stands(Some(FIRST), Some(OLD)),
            Asks((0, 16383), Some(OLD)),
        ];
        let found = F2_TWICE.otherwise(rt.alloc(), &[&ASKS_FRONT, &steps])?;
        expect_eq!(rt; found, None, "{answer:?}");
    }
    Ok(())
}

/// Returns a head that has `len` bytes before its end.
fn long_line(alloc: Global, len: usize, end: &[u8]) -> Result<Vec<u8>, AllocError> {
    let front = b"HTTP/1.1 200 OK\r\nETag: \"1\"\r\nContent-Length: 0\r\nA: ";
    let mut text = Vec::from_slice(alloc, front)?;
    text.resize(len, b'x')?;
    text.extend_from_slice(end)?;
    Ok(text)
}

/// A row has the number of bytes of a head before its end, and the end. Then comes the number under which the head is ignored, if it is.
const LONG_LINES: [(usize, &[u8], Option<u8>); 5] = [
    (4095, b"", Some(1)),
    (4096, b"", Some(2)),
    (4096, b"\r\n\r\n", Some(2)),
    (4093, b"\r\n\r\n", Some(2)),
    (4092, b"\r\n\r\n", None),
];

/// Returns the number of the first step that doesn't go as expected, where a new client is answered with a head alone.
fn head_otherwise(
    alloc: Global,
    head: &[u8],
    number: Option<u8>,
) -> Result<Option<usize>, NotDone> {
    let step = match number {
        Some(number) => Ignores(Text(head), number),
        None => Takes(Text(head), 0),
    };
    otherwise(alloc, &[], &[&ASKS_FRONT, &[step]])
}

/// Returns the first of these heads that isn't taken as expected.
fn line_otherwise(alloc: Global) -> Result<Option<usize>, NotDone> {
    for (len, end, number) in LONG_LINES {
        let head = long_line(alloc, len, end)?;
        if head_otherwise(alloc, &head, number)?.is_some() {
            return Ok(Some(len));
        }
    }
    Ok(None)
}

#[test]
fn reads_heads_of_at_most_4096_bytes(rt: HostRuntime) -> Result<(), Fail> {
    expect_eq!(rt; line_otherwise(rt.alloc())?, None);
    Ok(())
}
