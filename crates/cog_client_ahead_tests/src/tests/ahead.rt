//! Windows that are read by requests that look ahead. The outcomes are the same as without. The requests are fewer where a gap between
//! tiles is smaller than a block. No more bytes come.
use assertion_support::expect_eq;
use cog_client::{Client, Query};
use cog_client_support::{AHEAD, NotDone, OLD, Publication, client_of_a, cog};
use cog_reader_support::{Fixture, Plain, WINDOWS, Want, is_wanted, of_level, window};
use fixtures_support::f5;
use std::alloc::Global;
use std::process::Abort;
use std::test::Fail;
use tiff_dir::Span;

/// The numbers of blocks that clients keep.
const CAPACITIES: [u32; 2] = [66, 4096];

/// How a window was read: the number of requests, and the number of bytes in the bodies of their answers.
#[derive(Clone, Copy, Debug, PartialEq, Eq)]
struct Traffic {
    requests: u32,
    bytes: u64,
}

/// Returns how many bytes of a file a span has.
fn bytes_in(span: Span, file: &[u8]) -> u64 {
    let end = span.last.saturating_add(1).min(file.len() as u64);
    end.saturating_sub(span.first)
}

/// Makes a request, if there is one, and answers it. Returns the number of bytes in the answer's body.
fn exchange(
    alloc: Global,
    client: &mut Client,
    published: Publication<'_>,
) -> Result<Option<u64>, NotDone> {
    if client.request()?.is_none() {
        return Ok(None);
    }
    let span = client.asked().ok_or(NotDone::NoSuchPart)?;
    let answer = published.asked(alloc, span)?;
    client.deliver(&answer)?;
    Ok(Some(bytes_in(span, published.file)))
}

/// Reads a window by whole answers, and returns how. Returns `None` where no report comes by the hundredth request.
fn read(
    alloc: Global,
    client: &mut Client,
    published: Publication<'_>,
    query: Query,
) -> Result<Option<Traffic>, NotDone> {
    client.open(query);
    let mut bytes = 0u64;
    for requests in 0..100u32 {
        match exchange(alloc, client, published)? {
            None => return Ok(Some(Traffic { requests, bytes })),
            Some(count) => bytes = bytes.saturating_add(count),
        }
    }
    Ok(None)
}

/// Makes a client that keeps `blocks` blocks and looks `ahead` blocks ahead.
fn looking(alloc: Global, blocks: u32, ahead: u32) -> Result<Client, NotDone> {
    let mut client = client_of_a(alloc, blocks)?;
    client.look_ahead(ahead);
    Ok(client)
}

/// Returns whether such a client reads a window of a fixture right.
fn is_read(
    alloc: Global,
    fixture: Fixture,
    (query, want): (Query, Want<'_>),
    (blocks, ahead): (u32, u32),
) -> Result<bool, NotDone> {
    let file = fixture.file(alloc)?;
    let mut client = looking(alloc, blocks, ahead)?;
    let published = Publication {
        tag: OLD,
        file: &file,
    };
    read(alloc, &mut client, published, query)?;
    Ok(is_wanted(client.report().map(|report| &report.outcome), want))
}

/// Returns the number of the first window of the tables that such a client doesn't read right.
fn wrong_row(alloc: Global, blocks: u32, ahead: u32) -> Result<Option<usize>, NotDone> {
    for (row, (fixture, numbers, want)) in WINDOWS.iter().enumerate() {
        if !is_read(alloc, *fixture, (window(*numbers), *want), (blocks, ahead))? {
            return Ok(Some(row));
        }
    }
    Ok(None)
}

#[test]
fn reads_the_windows_of_the_tables_however_far_it_looks(rt: HostRuntime) -> Result<(), Fail> {
    for blocks in CAPACITIES {
        for ahead in AHEAD {
            let wrong = wrong_row(rt.alloc(), blocks, ahead)?;
            expect_eq!(rt; wrong, None, "{blocks} {ahead}");
        }
    }
    Ok(())
}

/// A window of the largest level: column, row, width and height.
type Place = (u32, u32, u32, u32);

fn query_at((x, y, w, h): Place) -> Query {
    of_level(x, y, w, h, 0)
}

/// Windows of f5: the whole image, and parts of some tiles.
const LARGE: [Place; 3] = [(0, 0, 1280, 1024), (200, 100, 600, 700), (1023, 767, 2, 2)];

/// Returns whether a client reads a window right.
fn is_read_by(
    alloc: Global,
    client: &mut Client,
    plain: &Plain,
    place: Place,
) -> Result<bool, NotDone> {
    let (query, file) = (query_at(place), &plain.file);
    read(alloc, client, Publication { tag: OLD, file }, query)?;
    match client.report() {
        None => Ok(false),
        Some(report) => Ok(plain.is_answer(alloc, query, &report.outcome)?),
    }
}

/// Returns the first of these windows that such a client doesn't read right.
fn wrong_window(
    alloc: Global,
    plain: &Plain,
    places: &[Place],
    (blocks, ahead): (u32, u32),
) -> Result<Option<Place>, NotDone> {
    let mut client = looking(alloc, blocks, ahead)?;
    for place in places {
        if !is_read_by(alloc, &mut client, plain, *place)? {
            return Ok(Some(*place));
        }
    }
    Ok(None)
}

/// Expects that these windows are read right, however many blocks a client keeps, and however far it looks ahead.
fn expect_right(
    rt: &(impl Abort + AllocGlobal),
    plain: &Plain,
    places: &[Place],
) -> Result<(), Fail> {
    for blocks in CAPACITIES {
        for ahead in AHEAD {
            let wrong = wrong_window(rt.alloc(), plain, places, (blocks, ahead))?;
            expect_eq!(rt; wrong, None, "{blocks} {ahead}");
        }
    }
    Ok(())
}

#[test]
fn reads_large_windows_however_far_it_looks(rt: HostRuntime) -> Result<(), Fail> {
    let plain = Plain::new(rt.alloc(), f5(rt.alloc())?)?;
    expect_right(&rt, &plain, &LARGE)
}

/// Windows of an image of 8 by 8 tiles. A row has the place, and the number of requests without looking ahead and with it.
///
/// Without looking ahead, each tile takes a request, and the first bytes take one. With looking far ahead, each row of tiles takes one,
/// since the tiles of the window stand 8 bytes apart in it.
const ROWS: [(Place, u32, u32); 4] = [
    ((1000, 1000, 16, 16), 2, 2),
    ((1016, 1016, 16, 16), 5, 3),
    ((300, 300, 256, 256), 5, 3),
    ((300, 300, 1024, 1024), 26, 6),
];

/// Returns how a new client reads a window.
fn measured(alloc: Global, file: &[u8], query: Query, ahead: u32) -> Result<Traffic, Fail> {
    let mut client = looking(alloc, 66, ahead)?;
    let traffic = read(alloc, &mut client, Publication { tag: OLD, file }, query)?;
    Ok(traffic.ok_or("no report")?)
}

/// Expects the two numbers of requests for a window, without looking ahead and with it. Expects the same number of bytes for both.
fn expect_requests(
    rt: &(impl Abort + AllocGlobal),
    file: &[u8],
    place: Place,
    wanted: (u32, u32),
) -> Result<(), Fail> {
    let first = measured(rt.alloc(), file, query_at(place), 0)?;
    let then = measured(rt.alloc(), file, query_at(place), 64)?;
    let requests = (first.requests, then.requests);
    expect_eq!(rt; (requests, first.bytes), (wanted, then.bytes), "{place:?}");
    Ok(())
}

#[test]
fn asks_a_row_of_tiles_at_once(rt: HostRuntime) -> Result<(), Fail> {
    let file = cog(rt.alloc(), 8, false)?;
    for (place, near, far) in ROWS {
        expect_requests(&rt, &file, place, (near, far))?;
    }
    Ok(())
}

/// Windows of an image of 3 by 3 tiles: all of it, and the last two rows. Between them stands one tile in the middle, with a pixel of each
/// tile beside it.
const APART: [Place; 3] = [(0, 0, 768, 768), (255, 255, 258, 258), (0, 766, 768, 2)];

#[test]
fn reads_tiles_that_stand_apart_however_far_it_looks(rt: HostRuntime) -> Result<(), Fail> {
    let plain = Plain::new(rt.alloc(), cog(rt.alloc(), 3, false)?)?;
    expect_right(&rt, &plain, &APART)
}
