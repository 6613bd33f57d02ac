//! Faithful stretches: a client opens a query and then exchanges, with nothing between. Whatever was before, it has its report at the
//! latest with the exchange after as many as the query costs.
use super::log_of;
use assertion_support::expect_eq;
use fixtures_support::{f1, f1m, f2, f2b, f3, f4, f6, f6m};
use reference_support::cost;
use std::alloc::Global;
use std::test::Fail;
use tiff_dir::{Pick, Query};
use world::{Event, Log, run};

/// The last tile of f2 or f2b, which costs 6 blocks: the header, a count and a table, two arrays and the tile.
const STRETCH: &str = "\
open 0 level 0 240 240 16 16
exchange 0
exchange 0
exchange 0
exchange 0
exchange 0
exchange 0
exchange 0
";

/// Scripts before the stretch, after which `a` is f2 or f2b.
const BEFORE: [&str; 16] = [
    // Nothing but the file.
    "epoch 1\npublish a f2.tif\nclient a 66\n",
    "epoch 1\npublish a f2b.tif\nclient a 4096\n",
    // One exchange, and both.
    "epoch 1\npublish a f2.tif\nclient a 66\nopen 0 level 0 240 240 16 16\nexchange 0\n",
    "epoch 1\npublish a f2.tif\nclient a 66\nopen 0 level 0 240 240 16 16\nexchange 0\nexchange 0\n",
    // Replaced between: before the next exchange, after the restart, with the late answer ignored, and after the report.
    "epoch 1\npublish a f2.tif\nclient a 66\nopen 0 level 0 240 240 16 16\nexchange 0\npublish a f2b.tif\n",
    "epoch 1\npublish a f2.tif\nclient a 66\nopen 0 level 0 240 240 16 16\nexchange 0\npublish a f2b.tif\nexchange 0\n",
    "epoch 1\npublish a f2.tif\nclient a 66\nopen 0 level 0 240 240 16 16\nexchange 0\npublish a f2b.tif\nexchange 0\ndeliver 0 0 -\n",
    "epoch 1\npublish a f2.tif\nclient a 66\nopen 0 level 0 240 240 16 16\nexchange 0\npublish a f2b.tif\nexchange 0\nexchange 0\n",
    // Cut in its head, before the end of its first block, and after it.
    "epoch 1\npublish a f2.tif\nclient a 66\nopen 0 level 0 240 240 16 16\naskfrom 0\ndeliver 0 0 170\n",
    "epoch 1\npublish a f2.tif\nclient a 66\nopen 0 level 0 240 240 16 16\naskfrom 0\ndeliver 0 0 16554\n",
    "epoch 1\npublish a f2.tif\nclient a 66\nopen 0 level 0 240 240 16 16\naskfrom 0\ndeliver 0 0 16555\n",
    // A later epoch, before and after the restart.
    "epoch 1\nepoch 1\npublish a f2.tif\nclient a 66\nopen 0 level 0 240 240 16 16\nexchange 0\nepoch 2\npublish a f2.tif\n",
    "epoch 1\nepoch 1\npublish a f2.tif\nclient a 66\nopen 0 level 0 240 240 16 16\nexchange 0\nepoch 2\npublish a f2.tif\nexchange 0\n",
    // Forgotten, and another query with the first answer again.
    "epoch 1\npublish a f2.tif\nclient a 66\nopen 0 level 0 240 240 16 16\nexchange 0\nforget 0\n",
    "epoch 1\npublish a f2.tif\nclient a 66\nopen 0 level 0 240 240 16 16\nexchange 0\nopen 0 level 0 0 0 1 1\ndeliver 0 0 -\n",
    // Answers to requests that others made, after the revision was replaced.
    "epoch 1\npublish a f2.tif\nclient a 66\nopen 0 level 0 240 240 16 16\nexchange 0\nask 474554202f6120485454502f312e310d0a486f73743a20680d0a0d0a\npublish a f2b.tif\naskfrom 0\ndeliver 0 2 -\naskfrom 0\ndeliver 0 1 -\ndeliver 0 3 -\nexchange 0\n",
];

/// Returns whether one of the last `count` entries has a report.
fn is_told(log: &Log, count: usize) -> bool {
    log.entries
        .iter()
        .rev()
        .take(count)
        .any(|entry| entry.report.is_some())
}

/// Returns whether the report comes in the stretch after a script.
fn is_reached_after(alloc: Global, before: &str) -> Result<bool, Fail> {
    let mut text = Vec::from_slice(alloc, before.as_bytes())?;
    text.extend_from_slice(STRETCH.as_bytes())?;
    let text = str::from_utf8(&text).map_err(|_| "no text")?;
    let log = log_of(alloc, text)?;
    Ok(is_told(&log, 7))
}

#[test]
fn reports_within_the_cost_whatever_was_before(rt: HostRuntime) -> Result<(), Fail> {
    for before in BEFORE {
        assert!(rt; is_reached_after(rt.alloc(), before)?, "after {before:?}");
    }
    Ok(())
}

/// Windows of level 0: left, top, columns and rows.
const WINDOWS: [[u32; 4]; 9] = [
    [0, 0, 1, 1],
    [0, 0, 16, 16],
    [15, 15, 1, 1],
    [2, 1, 3, 2],
    [15, 15, 2, 2],
    [0, 0, 32, 32],
    [240, 240, 16, 16],
    [0, 0, 256, 256],
    [4294967295, 0, 2, 1],
];

/// Returns whether a client's report of a file comes in time. That is at the latest with the exchange after as many as the query costs by
/// the plain program.
fn is_reached(alloc: Global, file: &[u8], query: Query, blocks: u32) -> Result<bool, Fail> {
    let cost = cost(alloc, file, query)?.ok_or("no cost")?;
    let mut events = Vec::new(alloc);
    events.push(Event::Publish {
        name: Vec::from_slice(alloc, b"a")?,
        file: Vec::from_slice(alloc, file)?,
    })?;
    events.push(Event::NewClient {
        name: Vec::from_slice(alloc, b"a")?,
        blocks,
    })?;
    events.push(Event::Open { client: 0, query })?;
    for _ in 0..cost.saturating_add(1) {
        events.push(Event::Exchange(0))?;
    }
    let mut log = Log::new(alloc);
    run(alloc, &events, &mut log)?;
    Ok(is_told(&log, events.len()))
}

/// Returns the first of ten windows of a file and Info that isn't reached.
fn unreached(alloc: Global, file: &[u8]) -> Result<Option<Query>, Fail> {
    for [x, y, w, h] in WINDOWS {
        let pick = Pick::Level(0);
        let query = Query::Window { pick, x, y, w, h };
        if !is_reached(alloc, file, query, 66)? {
            return Ok(Some(query));
        }
    }
    let smallest = Query::Window {
        pick: Pick::Columns(1),
        x: 0,
        y: 0,
        w: 16,
        h: 16,
    };
    for (query, blocks) in [(smallest, 4096), (Query::Info, 66)] {
        if !is_reached(alloc, file, query, blocks)? {
            return Ok(Some(query));
        }
    }
    Ok(None)
}

#[test]
fn reports_each_window_within_its_cost(rt: HostRuntime) -> Result<(), Fail> {
    let alloc = rt.alloc();
    let files = [
        ("f1", f1(alloc)?),
        ("f1m", f1m(alloc)?),
        ("f2", f2(alloc)?),
        ("f2b", f2b(alloc)?),
        ("f3", f3(alloc)?),
        ("f4", f4(alloc)?),
        ("f6", f6(alloc)?),
        ("f6m", f6m(alloc)?),
    ];
    for (name, file) in &files {
        expect_eq!(rt; unreached(alloc, file)?, None, "of {name:?}");
    }
    Ok(())
}

#[test]
fn reports_the_largest_window_within_its_cost(rt: HostRuntime) -> Result<(), Fail> {
    let file = fixtures_support::f5(rt.alloc())?;
    let whole = Query::Window {
        pick: Pick::Level(0),
        x: 0,
        y: 0,
        w: 1280,
        h: 1024,
    };
    for blocks in [66, 4096] {
        assert!(rt;
            is_reached(rt.alloc(), &file, whole, blocks)?,
            "{blocks} blocks"
        );
    }
    Ok(())
}
