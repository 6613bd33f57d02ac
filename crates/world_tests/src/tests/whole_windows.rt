//! Whole windows beside the plain program: of a file that is replaced between requests, and of one larger than a small cache.
use super::log_however_cut;
use cog_reader_support::Plain;
use fixtures_support::{f2b, f5};
use std::alloc::Global;
use std::test::Fail;
use tiff_dir::Span;
use world::{Delivered, Effect, Log};

/// The range that an exchange asked for, and what came of it.
#[derive(Clone, Copy, Debug, PartialEq, Eq)]
struct Step {
    first: u64,
    last: u64,
    status: u16,
    body: u64,
    delivered: Delivered,
}

/// Makes an exchange for these bytes, whose answer has this status, and `body` bytes of body.
fn step_of(first: u64, last: u64, status: u16, body: u64, delivered: Delivered) -> Step {
    Step {
        first,
        last,
        status,
        body,
        delivered,
    }
}

/// Returns the exchanges of a client, in order.
fn exchanges(alloc: Global, log: &Log, client: u32) -> Result<Vec<Step>, Fail> {
    let mut steps = Vec::new(alloc);
    for entry in &log.entries {
        match &entry.effect {
            Effect::Exchanged { asked, delivered } if asked.client == client => {
                let Span { first, last } = asked.span;
                steps.push(Step {
                    first,
                    last,
                    status: asked.answer.status,
                    body: asked.answer.body,
                    delivered: *delivered,
                })?;
            }
            _ => {}
        }
    }
    Ok(steps)
}

/// Returns how many reports of the log are what the plain program reads in the file. Returns `None` where one isn't, or has another tag.
fn right_reports(
    alloc: Global,
    log: &Log,
    plain: &Plain,
    tag: &[u8],
) -> Result<Option<usize>, Fail> {
    let mut count = 0usize;
    for entry in &log.entries {
        let Some(report) = &entry.report else {
            continue;
        };
        if report.tag.as_bytes() != tag || !plain.is_answer(alloc, report.query, &report.outcome)? {
            return Ok(None);
        }
        count = count.saturating_add(1);
    }
    Ok(Some(count))
}

#[test]
fn restarts_where_the_file_is_replaced_between_requests(rt: HostRuntime) -> Result<(), Fail> {
    let alloc = rt.alloc();
    let log = log_however_cut(
        &rt,
        "epoch 1\npublish a f2.tif\nclient a 66\nopen 0 level 0 0 0 256 256\nexchange 0\npublish a f2b.tif\nexchange 0\nexchange 0\n",
    )?;
    let want = [
        step_of(0, 65535, 206, 65536, Delivered::Took(4)),
        step_of(65536, 67705, 200, 67706, Delivered::Restarted),
        step_of(65536, 67705, 206, 2170, Delivered::Took(1)),
    ];
    let steps = exchanges(alloc, &log, 0)?;
    assert_eq!(rt; steps.as_slice(), want.as_slice());
    let plain = Plain::new(alloc, f2b(alloc)?)?;
    assert_eq!(rt; right_reports(alloc, &log, &plain, b"\"1-2\"")?, Some(1));
    Ok(())
}

/// The whole window of f5, with a cache that doesn't hold the file and with one that does.
const LARGE: &str = "\
epoch 1
publish a f5.tif
client a 66
client a 4096
open 0 level 0 0 0 1280 1024
open 1 level 0 0 0 1280 1024
exchange 0
exchange 0
exchange 0
exchange 1
exchange 1
exchange 1
open 0 level 0 0 0 1 1
open 1 level 0 0 0 1 1
exchange 0
exchange 1
";

/// Returns the three exchanges of a whole window of f5.
fn whole_window() -> [Step; 3] {
    [
        step_of(0, 65535, 206, 65536, Delivered::Took(4)),
        step_of(65536, 1064959, 206, 999_424, Delivered::Took(61)),
        step_of(1064960, 1327103, 206, 262_144, Delivered::Took(16)),
    ]
}

/// The range that the client of 66 blocks asks for again.
const AGAIN: Step = Step {
    first: 16384,
    last: 81919,
    status: 206,
    body: 65536,
    delivered: Delivered::Took(4),
};

#[test]
fn asks_again_for_blocks_that_a_small_cache_let_go(rt: HostRuntime) -> Result<(), Fail> {
    let alloc = rt.alloc();
    let log = log_however_cut(&rt, LARGE)?;
    let first = exchanges(alloc, &log, 0)?;
    let second = exchanges(alloc, &log, 1)?;
    let whole = whole_window();
    assert_eq!(rt; first.get(..3), Some(whole.as_slice()), "client 0");
    assert_eq!(rt; first.get(3..), Some([AGAIN].as_slice()), "client 0");
    assert_eq!(rt; second.as_slice(), whole.as_slice(), "client 1");
    let plain = Plain::new(alloc, f5(alloc)?)?;
    assert_eq!(rt; right_reports(alloc, &log, &plain, b"\"1-1\"")?, Some(4));
    Ok(())
}
