//! The early requests of a client are the ones that it makes afterwards, where answers come whole.
use assertion_support::expect_eq;
use cog_client::{Client, Query};
use cog_client_support::{AHEAD, NotDone, OLD, Publication, client_of_a, cog};
use cog_reader_support::{Fixture, WINDOWS, of_level, window};
use fixtures_support::f5;
use std::alloc::Global;
use std::test::Fail;

/// The most early requests at once.
const MOST: u32 = 8;

/// Returns the early requests that weren't made yet, the next one first.
fn told(early: &[Vec<u8>], at: usize) -> &[Vec<u8>] {
    early.get(at..).unwrap_or(&[])
}

/// How a client's request compares with the early requests.
#[derive(Clone, Copy)]
enum Made {
    /// There is no request.
    Nothing,
    /// The request is the first early request, and the other early requests stay the same.
    Told,
    /// There was no early request.
    First,
    /// The first early request is another one, or the early requests are others an answer later.
    Otherwise,
}

/// Returns how a request compares with the early requests.
fn becomes(early: &[Vec<u8>], request: &Vec<u8>) -> Made {
    match early.first() {
        None => Made::First,
        Some(first) if *first == *request => Made::Told,
        Some(_) => Made::Otherwise,
    }
}

/// Returns whether the early requests of now begin with those that weren't made yet. Puts them into `early`.
fn tells_on(client: &mut Client, early: &mut Vec<Vec<u8>>) -> Result<bool, NotDone> {
    let then = client.early_requests(MOST)?;
    let is_same = then.starts_with(told(early, 1));
    *early = then;
    Ok(is_same)
}

/// Answers the request of the client.
fn answer(alloc: Global, client: &mut Client, published: Publication<'_>) -> Result<(), NotDone> {
    let span = client.asked().ok_or(NotDone::NoSuchPart)?;
    let answer = published.asked(alloc, span)?;
    client.deliver(&answer)?;
    Ok(())
}

/// Makes a request, if there is one, and answers it.
fn exchange(
    alloc: Global,
    client: &mut Client,
    published: Publication<'_>,
    early: &mut Vec<Vec<u8>>,
) -> Result<Made, NotDone> {
    let Some(request) = client.request()? else {
        return Ok(Made::Nothing);
    };
    let made = becomes(early, &request);
    if !tells_on(client, early)? {
        return Ok(Made::Otherwise);
    }
    answer(alloc, client, published)?;
    Ok(made)
}

/// Reads a window by whole answers. Returns how many of its requests had been early requests. Returns `None` where an early request was
/// another one than was then made, or where the early requests are others an answer later.
fn told_of(
    alloc: Global,
    client: &mut Client,
    published: Publication<'_>,
    query: Query,
) -> Result<Option<u32>, NotDone> {
    client.open(query);
    let mut early: Vec<Vec<u8>> = Vec::new(alloc);
    let mut count = 0u32;
    for _ in 0..100u32 {
        match exchange(alloc, client, published, &mut early)? {
            Made::Nothing => return Ok(Some(count)),
            Made::Told => count = count.saturating_add(1),
            Made::First => {}
            Made::Otherwise => return Ok(None),
        }
    }
    Ok(None)
}

/// Makes a client that keeps `blocks` blocks, looks `ahead` blocks ahead, and keeps its connection.
fn keeping(alloc: Global, blocks: u32, ahead: u32) -> Result<Client, NotDone> {
    let mut client = client_of_a(alloc, blocks)?;
    client.look_ahead(ahead);
    client.keep_open();
    Ok(client)
}

/// Windows of an image of 8 by 8 tiles, whose rows of tiles are asked for one after another. A row has the window, and the number of its
/// early requests. Each row of tiles but the first has one.
const ROWS: [((u32, u32, u32, u32), u32); 4] = [
    ((1000, 1000, 16, 16), 0),
    ((1016, 1016, 16, 16), 1),
    ((300, 300, 256, 256), 1),
    ((300, 300, 1024, 1024), 4),
];

/// Returns how many early requests a window has for a client that keeps its connection.
fn told_to_new(
    alloc: Global,
    file: &[u8],
    (x, y, w, h): (u32, u32, u32, u32),
) -> Result<Option<u32>, NotDone> {
    let mut client = keeping(alloc, 256, 64)?;
    let published = Publication { tag: OLD, file };
    told_of(alloc, &mut client, published, of_level(x, y, w, h, 0))
}

#[test]
fn tells_each_row_of_tiles_but_the_first(rt: HostRuntime) -> Result<(), Fail> {
    let file = cog(rt.alloc(), 8, false)?;
    for (place, wanted) in ROWS {
        let count = told_to_new(rt.alloc(), &file, place)?;
        expect_eq!(rt; count, Some(wanted), "{place:?}");
    }
    Ok(())
}

/// Returns whether the early requests of a window of a fixture are right for such a client.
fn is_told(
    alloc: Global,
    fixture: Fixture,
    query: Query,
    (blocks, ahead): (u32, u32),
) -> Result<bool, NotDone> {
    let file = fixture.file(alloc)?;
    let mut client = keeping(alloc, blocks, ahead)?;
    let published = Publication {
        tag: OLD,
        file: &file,
    };
    Ok(told_of(alloc, &mut client, published, query)?.is_some())
}

/// Returns the number of the first window of the tables with a wrong early request for such a client.
fn wrong_row(alloc: Global, blocks: u32, ahead: u32) -> Result<Option<usize>, NotDone> {
    for (row, (fixture, numbers, _)) in WINDOWS.iter().enumerate() {
        if !is_told(alloc, *fixture, window(*numbers), (blocks, ahead))? {
            return Ok(Some(row));
        }
    }
    Ok(None)
}

#[test]
fn tells_nothing_else_of_the_windows_of_the_tables(rt: HostRuntime) -> Result<(), Fail> {
    for blocks in [66, 4096] {
        for ahead in AHEAD {
            let wrong = wrong_row(rt.alloc(), blocks, ahead)?;
            expect_eq!(rt; wrong, None, "{blocks} {ahead}");
        }
    }
    Ok(())
}

/// Returns how many early requests a window has for a client that doesn't keep its connection.
fn told_to_closing(alloc: Global, file: &[u8]) -> Result<Option<u32>, NotDone> {
    let mut client = client_of_a(alloc, 256)?;
    client.look_ahead(64);
    let query = of_level(300, 300, 1024, 1024, 0);
    told_of(alloc, &mut client, Publication { tag: OLD, file }, query)
}

#[test]
fn tells_nothing_where_connections_are_closed(rt: HostRuntime) -> Result<(), Fail> {
    let file = cog(rt.alloc(), 8, false)?;
    expect_eq!(rt; told_to_closing(rt.alloc(), &file)?, Some(0));
    Ok(())
}

/// Returns how many requests a window makes after its first one. Returns `None` unless they are the early requests of that time, in order,
/// and no others.
fn made_as_told(
    alloc: Global,
    client: &mut Client,
    published: Publication<'_>,
    query: Query,
) -> Result<Option<usize>, NotDone> {
    client.open(query);
    client.request()?;
    let told = client.early_requests(MOST)?;
    for count in 0..100usize {
        answer(alloc, client, published)?;
        match (client.request()?, told.get(count)) {
            (None, None) => return Ok(Some(count)),
            (Some(request), Some(text)) if request == *text => {}
            _ => return Ok(None),
        }
    }
    Ok(None)
}

/// Returns how many requests a window of f5 makes after its first one, compared as above. The client has the tile in the second row and the
/// second column. Returns `None` where no report stands at the end.
fn made_behind(alloc: Global, query: Query) -> Result<Option<usize>, NotDone> {
    let file = f5(alloc)?;
    let published = Publication {
        tag: OLD,
        file: &file,
    };
    let mut client = keeping(alloc, 4096, 64)?;
    told_of(alloc, &mut client, published, of_level(300, 300, 16, 16, 0))?;
    let count = made_as_told(alloc, &mut client, published, query)?;
    if client.report().is_none() {
        return Ok(None);
    }
    Ok(count)
}

/// Expects two requests after that of the first of two rows of tiles. The tile in the second row and the second column is there. The two
/// are for what the second row lacks before it and after it, and both are early requests.
#[test]
fn tells_what_a_row_lacks_behind_a_tile_that_is_there(rt: HostRuntime) -> Result<(), Fail> {
    let query = of_level(0, 0, 1000, 500, 0);
    expect_eq!(rt; made_behind(rt.alloc(), query)?, Some(2));
    Ok(())
}

/// Expects one early request for the second row of tiles alone. The first request is for what the row lacks before that tile, and the early
/// one for what it lacks after it.
#[test]
fn tells_what_the_present_row_lacks_behind_a_tile(rt: HostRuntime) -> Result<(), Fail> {
    let query = of_level(0, 300, 1000, 100, 0);
    expect_eq!(rt; made_behind(rt.alloc(), query)?, Some(1));
    Ok(())
}
