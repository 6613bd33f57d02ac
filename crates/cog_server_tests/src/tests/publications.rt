//! Publications, their refusals, and the files that a server has.
use assertion_support::expect_eq;
use cog_server::{PublishError, Server};
use fixtures_support::f1;
use http_range::publication_tag;
use std::alloc::Global;
use std::process::Abort;
use std::test::Fail;

/// The most bytes of a file.
const LARGEST: usize = 67108864;

/// A row has a name, the number of zero bytes of its file, and the number under which the publication is refused.
type Refused<'a> = (&'a [u8], usize, u8);

/// Expects that a publication is refused.
fn expect_refused(
    rt: &(impl Abort + AllocGlobal),
    server: &mut Server,
    (name, count, want): Refused<'_>,
) -> Result<(), Fail> {
    let file = zeros(rt.alloc(), count)?;
    let number = match server.publish(name, file) {
        Ok(_) => None,
        Err(refusal) => Some(refusal.number()),
    };
    assert_eq!(rt; number, Some(want), "{count} bytes of {name:?}");
    Ok(())
}

/// Expects that a publication gets the tag of epoch 1 and this number.
fn expect_published(
    rt: &(impl Abort + AllocGlobal),
    server: &mut Server,
    name: &[u8],
    file: Vec<u8>,
    number: u32,
) -> Result<(), Fail> {
    let tag = server.publish(name, file).map_err(|_| "refused")?;
    assert!(rt; tag == publication_tag(1, number));
    Ok(())
}

/// Expects the same of a file of `count` zero bytes.
fn expect_zeros_published(
    rt: &(impl Abort + AllocGlobal),
    server: &mut Server,
    (name, count, number): (&[u8], usize, u32),
) -> Result<(), Fail> {
    let file = zeros(rt.alloc(), count)?;
    expect_published(rt, server, name, file, number)
}

/// Expects the length of the file of a name, or no file.
fn expect_length(
    rt: &(impl Abort + AllocGlobal),
    server: &Server,
    (name, want): (&[u8], Option<usize>),
) {
    let length = match server.file(name) {
        Some(file) => Some(file.len()),
        None => None,
    };
    expect_eq!(rt; length, want, "{name:?}");
}

/// Returns `count` zero bytes.
fn zeros(alloc: Global, count: usize) -> Result<Vec<u8>, Fail> {
    let mut file = Vec::new(alloc);
    file.resize(count, 0)?;
    Ok(file)
}

#[test]
fn numbers_the_refusals_of_a_publication(rt: HostRuntime) {
    let table = [
        (PublishError::Name, 1),
        (PublishError::Empty, 2),
        (PublishError::TooLarge, 3),
        (PublishError::TooManyNames, 4),
        (PublishError::Exhausted, 5),
        (PublishError::Memory, 6),
    ];
    for (refusal, want) in table {
        expect_eq!(rt; refusal.number(), want, "{refusal:?}");
    }
}

/// Rows of publications that a server without files refuses.
const REFUSED: [Refused<'static>; 4] = [
    (b"~", 0, 1),
    (b"", 1, 1),
    (b"a", 0, 2),
    (b"a", LARGEST + 1, 3),
];

#[test]
fn refuses_names_before_files_and_changes_nothing(rt: HostRuntime) -> Result<(), Fail> {
    let mut server = Server::new(rt.alloc(), 1);
    for row in REFUSED {
        expect_refused(&rt, &mut server, row)?;
    }
    expect_length(&rt, &server, (b"a", None));
    expect_zeros_published(&rt, &mut server, (b"a", 1, 1))
}

#[test]
fn publishes_a_file_of_67108864_bytes(rt: HostRuntime) -> Result<(), Fail> {
    let mut server = Server::new(rt.alloc(), 1);
    expect_zeros_published(&rt, &mut server, (b"a", LARGEST, 1))?;
    expect_length(&rt, &server, (b"a", Some(LARGEST)));
    Ok(())
}

#[test]
fn refuses_the_65th_name(rt: HostRuntime) -> Result<(), Fail> {
    let mut server = Server::new(rt.alloc(), 1);
    for i in 0..64u8 {
        let name = [b'a', b'0' + i / 10, b'0' + i % 10];
        expect_zeros_published(&rt, &mut server, (&name, 1, i as u32 + 1))?;
    }
    expect_refused(&rt, &mut server, (b"b", 1, 4))?;
    expect_refused(&rt, &mut server, (b"b", 0, 2))?;
    expect_zeros_published(&rt, &mut server, (b"a63", 2, 65))?;
    expect_length(&rt, &server, (b"a63", Some(2)));
    expect_length(&rt, &server, (b"a62", Some(1)));
    expect_length(&rt, &server, (b"b", None));
    Ok(())
}

#[test]
fn gives_the_last_file_of_each_name(rt: HostRuntime) -> Result<(), Fail> {
    let mut server = Server::new(rt.alloc(), 1);
    assert_eq!(rt; (server.epoch(), server.file(b"a")), (1, None));
    expect_published(&rt, &mut server, b"a", f1(rt.alloc())?, 1)?;
    expect_zeros_published(&rt, &mut server, (b"b", 3, 2))?;
    let file = f1(rt.alloc())?;
    expect_files(&rt, &server, &file, b"\0\0\0");
    expect_length(&rt, &server, (b"A", None));
    expect_zeros_published(&rt, &mut server, (b"a", 2, 3))?;
    expect_files(&rt, &server, b"\0\0", b"\0\0\0");
    Ok(())
}

/// Expects these files of two names.
fn expect_files(rt: &(impl Abort + AllocGlobal), server: &Server, a: &[u8], b: &[u8]) {
    assert_eq!(rt; (server.file(b"a"), server.file(b"b")), (Some(a), Some(b)));
}
