//! Each test passes with ample memory, and wherever one allocation is refused. The call that runs out of memory is made again, and goes on
//! to the same report. An answer that ran out of memory begins again.
use assertion_support::expect_eq;
use cog_client::{Client, ClientError, Delivered, Query, Tag};
use cog_client_support::Answer::{Part, Whole};
use cog_client_support::Step::{Asks, AsksNothing, Checks, Copies, Open, Opens, Reports, Uses};
use cog_client_support::{
    Answer, F2_REPLACED, FIRST, NEW, NotDone, OLD, Publication, Revisions, Session, Step,
    client_of_a,
};
use cog_reader_support::{FACTS_OF_F3, Fixture, Want};
use std::alloc::{AllocError, Global};
use std::process::Abort;
use std::test::Fail;
use tiff_dir::Pick;

/// Builds a file. Builds it again where memory ran out.
fn file_again(alloc: Global, fixture: Fixture) -> Result<Vec<u8>, AllocError> {
    match fixture.file(alloc) {
        Err(AllocError) => fixture.file(alloc),
        file => file,
    }
}

/// Makes a client. Makes it again where memory ran out.
fn client_again(alloc: Global) -> Result<Client, ClientError> {
    match client_of_a(alloc, 66) {
        Err(ClientError::Memory) => client_of_a(alloc, 66),
        client => client,
    }
}

/// Returns whether the client's call that ran out of memory has left what it should. After a request nothing is asked, and the revision is
/// as before. After an answer something is still asked, and there is a revision. No report stands after either.
fn is_left(client: &Client, step: Step<'_>, tag: Option<&Tag>) -> bool {
    match step {
        Asks(..) | AsksNothing => {
            client.asked().is_none() && client.report().is_none() && client.tag() == tag
        }
        Uses(_) => {
            client.asked().is_some() && client.report().is_none() && client.tag().is_some()
        }
        _ => true,
    }
}

/// Does a step. Does it again where memory ran out.
fn step_again(alloc: Global, session: &mut Session<'_>, step: Step<'_>) -> Result<bool, NotDone> {
    let tag = session.client.tag().map(|tag| tag.copy());
    match session.step(alloc, step) {
        Err(NotDone::NoRoom) => session.step(alloc, step),
        Err(NotDone::Memory) if is_left(&session.client, step, tag.as_ref()) => {
            session.step(alloc, step)
        }
        done => done,
    }
}

/// Returns the number of the first step that doesn't go as expected.
fn step_otherwise(
    alloc: Global,
    session: &mut Session<'_>,
    steps: &[Step<'_>],
) -> Result<Option<usize>, NotDone> {
    for (i, step) in steps.iter().enumerate() {
        if !step_again(alloc, session, *step)? {
            return Ok(Some(i));
        }
    }
    Ok(None)
}

/// Returns the number of the first step of a new client that doesn't go as expected. Answers come whole, or in pieces of `piece` bytes.
fn otherwise(
    alloc: Global,
    revisions: &Revisions<'_>,
    steps: &[Step<'_>],
    piece: Option<usize>,
) -> Result<Option<usize>, NotDone> {
    let [old, new] = revisions.files;
    let [tag, next_tag] = revisions.tags;
    let (old, new) = (file_again(alloc, old)?, file_again(alloc, new)?);
    let files = Publication::in_turn(tag, &old, next_tag, &new);
    let client = client_again(alloc)?;
    let mut session = Session::new(client, &files, piece);
    step_otherwise(alloc, &mut session, steps)
}

/// Expects that a new client goes through these steps, with answers that come whole, and in pieces.
fn expect(
    rt: &(impl Abort + AllocGlobal),
    revisions: &Revisions<'_>,
    steps: &[Step<'_>],
) -> Result<(), Fail> {
    for piece in [None, Some(1_000)] {
        expect_eq!(rt;
            otherwise(rt.alloc(), revisions, steps, piece)?,
            None,
            "by {piece:?}"
        );
    }
    Ok(())
}

const F1_TWICE: Revisions<'static> = Revisions {
    files: [Fixture::F1, Fixture::F1],
    ..F2_REPLACED
};

const ONE_WINDOW: [Step<'static>; 4] = [
    Opens(2, 1, 3, 2),
    Asks(FIRST, None),
    Uses(Part(0, 0, 377)),
    Reports(
        OLD,
        Want::Window(3, 2, 1, 8, &[0x12, 0x13, 0x14, 0x22, 0x23, 0x24]),
    ),
];

#[test]
fn goes_on_after_refused_memory_with_one_window(rt: HostRuntime) -> Result<(), Fail> {
    expect(&rt, &F1_TWICE, &ONE_WINDOW)
}

const TWO_EXCHANGES: [Step<'static>; 6] = [
    Opens(240, 240, 16, 16),
    Asks(FIRST, None),
    Uses(Part(0, 0, 65535)),
    Asks((65536, 67705), Some(OLD)),
    Uses(Part(0, 65536, 67705)),
    Reports(OLD, Want::Window(16, 16, 1, 8, &[255; 256])),
];

#[test]
fn goes_on_after_refused_memory_between_two_exchanges(rt: HostRuntime) -> Result<(), Fail> {
    expect(&rt, &F2_REPLACED, &TWO_EXCHANGES)
}

/// Steps whose last window is read from blocks that are there: the call `request` alone goes on.
const REPLACED: [Step<'static>; 12] = [
    Opens(240, 240, 16, 16),
    Asks(FIRST, None),
    Uses(Part(0, 0, 65535)),
    Asks((65536, 67705), Some(OLD)),
    Uses(Whole(1)),
    Asks((65536, 67705), Some(NEW)),
    Uses(Part(1, 65536, 67705)),
    Reports(NEW, Want::Window(16, 16, 1, 8, &[0; 256])),
    Copies,
    Opens(0, 0, 1, 1),
    AsksNothing,
    Reports(NEW, Want::Window(1, 1, 1, 8, &[255])),
];

#[test]
fn goes_on_after_refused_memory_where_the_file_is_replaced(rt: HostRuntime) -> Result<(), Fail> {
    expect(&rt, &F2_REPLACED, &REPLACED)
}

/// Makes the text of an answer. Makes it again where memory ran out.
fn text_again(
    alloc: Global,
    answer: Answer,
    files: &[Publication<'_>],
) -> Result<Vec<u8>, NotDone> {
    match answer.text(alloc, files) {
        Err(NotDone::NoRoom) => answer.text(alloc, files),
        text => text,
    }
}

/// Returns whether the rest of an answer is dropped after one of its blocks ran out of memory. The answer is fed once more after that, and
/// changes nothing.
fn drops_rest(alloc: Global) -> Result<bool, NotDone> {
    let file = file_again(alloc, Fixture::F1)?;
    let [tag, next_tag] = F1_TWICE.tags;
    let files = Publication::in_turn(tag, &file, next_tag, &file);
    let text = text_again(alloc, Part(0, 0, 377), &files)?;
    let mut client = client_again(alloc)?;
    client.open(Query::Info);
    if client.request().is_err() {
        client.request()?;
    }
    client.begin();
    let fed = client.feed(&text);
    let fed_again = client.feed(&text);
    Ok(match (fed, client.end()) {
        (Ok(()), Ok(Delivered::Took(1)) | Err(_)) => true,
        (Err(_), Ok(Delivered::Ignored(why))) => fed_again.is_ok() && why.number() == 1,
        _ => false,
    })
}

#[test]
fn drops_the_rest_after_refused_memory(rt: HostRuntime) -> Result<(), Fail> {
    assert!(rt; drops_rest(rt.alloc())?);
    Ok(())
}

/// The file f3, published twice.
const F3_TWICE: Revisions<'static> = Revisions {
    files: [Fixture::F3, Fixture::F3],
    ..F2_REPLACED
};

const CHECK: &str =
    "HEAD /a HTTP/1.1\r\nHost: cog.test\r\nIf-None-Match: \"1-1\"\r\nConnection: close\r\n\r\n";

/// A window of the packed level of f3.
const THIN: Query = Query::Window {
    x: 3,
    y: 4,
    w: 1,
    h: 3,
    pick: Pick::Level(1),
};

const INFO: [Step<'static>; 16] = [
    Open(Query::Info),
    Asks(FIRST, None),
    Uses(Part(0, 0, 1455)),
    Reports(OLD, Want::Info(FACTS_OF_F3)),
    Copies,
    Checks(Some(CHECK)),
    Opens(15, 15, 2, 1),
    AsksNothing,
    Reports(OLD, Want::Window(2, 1, 1, 8, &[0x10, 0x11])),
    Copies,
    Open(THIN),
    AsksNothing,
    Reports(OLD, Want::Window(1, 3, 1, 8, &[4, 5, 6])),
    Open(Query::Info),
    AsksNothing,
    Reports(OLD, Want::Info(FACTS_OF_F3)),
];

#[test]
fn goes_on_after_refused_memory_between_info_and_windows(rt: HostRuntime) -> Result<(), Fail> {
    expect(&rt, &F3_TWICE, &INFO)
}

/// A window of the smallest level of f3 with at least one column, rounded outwards.
const COLUMNS: Query = Query::Window {
    x: 5,
    y: 0,
    w: 3,
    h: 1,
    pick: Pick::Columns(1),
};

const BY_COLUMNS: [Step<'static>; 4] = [
    Open(COLUMNS),
    Asks(FIRST, None),
    Uses(Part(0, 0, 1455)),
    Reports(OLD, Want::Window(2, 1, 1, 8, &[0, 0])),
];

#[test]
fn goes_on_after_refused_memory_with_a_window_by_columns(rt: HostRuntime) -> Result<(), Fail> {
    expect(&rt, &F3_TWICE, &BY_COLUMNS)
}
