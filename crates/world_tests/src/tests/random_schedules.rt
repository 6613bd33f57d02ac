//! Random schedules of several clients and names. Files are replaced, servers are restarted, and answers are lost, cut, repeated or late.
//!
//! Each report is what the plain program reads in the file of its tag. In a faithful stretch at the end a report comes at the latest with
//! the exchange after as many as the query costs. Answers that come in pieces give the same log.
ghost use Rattle.std.specs.Prelude.{◌<◌};

use super::is_log_of_pieces;
use cog_reader_support::Plain;
use fixtures_support::{Numbers, f1, f1m, f2, f2b, f3, f6};
use reference_support::cost;
use std::alloc::Global;
use std::process::Abort;
use std::test::Fail;
use tiff_dir::{Pick, Query};
use world::{Effect, Event, Log, Report, run};

/// Returns the files that are published, with what the plain program reads in them.
fn plain_files(alloc: Global) -> Result<Vec<Plain>, Fail> {
    let files = [
        f1(alloc)?,
        f1m(alloc)?,
        f2(alloc)?,
        f2b(alloc)?,
        f3(alloc)?,
        f6(alloc)?,
    ];
    let mut plain = Vec::with_capacity(alloc, files.len())?;
    for file in files {
        plain.push(Plain::new(alloc, file)?)?;
    }
    Ok(plain)
}

fn query(numbers: &mut Numbers) -> Query {
    let pick = match numbers.below(6) {
        0 => return Query::Info,
        1 => Pick::Level(1),
        2 => Pick::Columns(numbers.below(300) as u32),
        _ => Pick::Level(0),
    };
    Query::Window {
        pick,
        x: numbers.below(260) as u32,
        y: numbers.below(260) as u32,
        w: numbers.below(20) as u32,
        h: numbers.below(20) as u32,
    }
}

fn name(alloc: Global, numbers: &mut Numbers) -> Result<Vec<u8>, Fail> {
    let name = if numbers.below(3) == 0 { b"b" } else { b"a" };
    Ok(Vec::from_slice(alloc, name)?)
}

fn publication(alloc: Global, numbers: &mut Numbers, files: &[Plain]) -> Result<Event, Fail> {
    let plain = files.get(numbers.below(6)).ok_or("no file")?;
    Ok(Event::Publish {
        name: name(alloc, numbers)?,
        file: Vec::from_slice(alloc, &plain.file)?,
    })
}

/// Returns how many bytes of an answer are delivered: all, or a number that may cut it.
fn cut(numbers: &mut Numbers) -> Option<u32> {
    match numbers.below(3) {
        0 => Some(numbers.below(70_000) as u32),
        _ => None,
    }
}

/// Returns an event of one of four clients, one of which may not exist.
fn call(numbers: &mut Numbers) -> Event {
    let client = numbers.below(4) as u32;
    match numbers.below(12) {
        0..=2 => Event::Open {
            client,
            query: query(numbers),
        },
        3 => Event::Forget(client),
        4 => Event::Check(client),
        5..=6 => Event::AskFrom(client),
        7..=8 => Event::Deliver {
            client,
            answer: numbers.below(16) as u32,
            cut: cut(numbers),
        },
        _ => Event::Exchange(client),
    }
}

fn event(alloc: Global, numbers: &mut Numbers, files: &[Plain]) -> Result<Event, Fail> {
    match numbers.below(16) {
        0 | 1 => publication(alloc, numbers, files),
        2 => Ok(Event::Epoch(numbers.below(6) as u32)),
        3 => Ok(Event::NewClient {
            name: name(alloc, numbers)?,
            blocks: [66, 4096, 65][numbers.below(3)],
        }),
        _ => Ok(call(numbers)),
    }
}

/// Returns a schedule: two files, three clients of the least or the most blocks, and thirty events at random.
fn schedule(alloc: Global, numbers: &mut Numbers, files: &[Plain]) -> Result<Vec<Event>, Fail> {
    let mut events = Vec::new(alloc);
    events.push(publication(alloc, numbers, files)?)?;
    events.push(publication(alloc, numbers, files)?)?;
    for _ in 0..3 {
        events.push(Event::NewClient {
            name: name(alloc, numbers)?,
            blocks: [66, 4096][numbers.below(2)],
        })?;
    }
    for client in 0..3 {
        events.push(Event::Open {
            client,
            query: query(numbers),
        })?;
    }
    for _ in 0..30 {
        events.push(event(alloc, numbers, files)?)?;
    }
    Ok(events)
}

/// Adds a faithful stretch of the first client: its file is published, it opens a query, and it exchanges. There is one exchange more than
/// the query costs by the plain program. Returns the place of the first exchange.
fn push_stretch(
    alloc: Global,
    events: &mut Vec<Event>,
    numbers: &mut Numbers,
    files: &[Plain],
) -> Result<usize, Fail> {
    let Some(Event::NewClient { name, .. }) = events.get(2) else {
        return Err(Fail::new("no client"));
    };
    let name = Vec::from_slice(alloc, name)?;
    let plain = files.get(numbers.below(6)).ok_or("no file")?;
    let query = query(numbers);
    let cost = cost(alloc, &plain.file, query)?.ok_or("no cost")?;
    events.push(Event::Publish {
        name,
        file: Vec::from_slice(alloc, &plain.file)?,
    })?;
    events.push(Event::Open { client: 0, query })?;
    let first = events.len();
    for _ in 0..cost.saturating_add(1) {
        events.push(Event::Exchange(0))?;
    }
    Ok(first)
}

/// Returns the file that was published under a tag.
fn published<'a>(events: &'a [Event], log: &Log, tag: &[u8]) -> Option<&'a [u8]> {
    for (event, entry) in events.iter().zip(log.entries.iter()) {
        match (event, &entry.effect) {
            (Event::Publish { file, .. }, Effect::Published(other)) if other.as_bytes() == tag => {
                return Some(file);
            }
            _ => {}
        }
    }
    None
}

/// Returns whether a report is what the plain program reads in the file of its tag.
fn is_right(
    alloc: Global,
    events: &[Event],
    log: &Log,
    files: &[Plain],
    report: &Report,
) -> Result<bool, Fail> {
    let file = published(events, log, report.tag.as_bytes()).ok_or("no such tag")?;
    let plain = files
        .iter()
        .find(|plain| plain.file.as_slice() == file)
        .ok_or("no such file")?;
    Ok(plain.is_answer(alloc, report.query, &report.outcome)?)
}

/// Returns a size of pieces: of a part of a head, of a block, or of an answer.
fn size_of_pieces(numbers: &mut Numbers) -> usize {
    match numbers.below(3) {
        0 => 1 + numbers.below(171),
        1 => 1 + numbers.below(16_384),
        _ => 1 + numbers.below(100_000),
    }
}

/// Runs a schedule, and returns the number of its reports. Returns `None` where one of them isn't right, or none comes in the stretch. It
/// also does where answers in pieces of the size `piece` give another log.
fn right_reports(
    alloc: Global,
    events: &[Event],
    stretch: usize,
    piece: usize,
    files: &[Plain],
) -> Result<Option<usize>, Fail> {
    let mut log = Log::new(alloc);
    run(alloc, events, &mut log)?;
    let exchanges = log.entries.get(stretch..).unwrap_or(&[]);
    if exchanges.iter().all(|entry| entry.report.is_none()) {
        return Ok(None);
    }
    if !is_log_of_pieces(alloc, events, piece, &log)? {
        return Ok(None);
    }
    let mut count = 0usize;
    for report in log.entries.iter().filter_map(|entry| entry.report.as_ref()) {
        if !is_right(alloc, events, &log, files, report)? {
            return Ok(None);
        }
        count = count.saturating_add(1);
    }
    Ok(Some(count))
}

/// Expects that the reports of 125 schedules are right, that one comes in the stretch after each, and that enough come.
fn expect_right(rt: &(impl Abort + AllocGlobal), seed: u64) -> Result<(), Fail> {
    let alloc = rt.alloc();
    let files = plain_files(alloc)?;
    let mut numbers = Numbers::new(seed);
    let mut reports = 0usize;
    for schedule_number in 0..125usize {
        let mut events = schedule(alloc, &mut numbers, &files)?;
        let stretch = push_stretch(alloc, &mut events, &mut numbers, &files)?;
        let piece = size_of_pieces(&mut numbers);
        let right = right_reports(alloc, &events, stretch, piece, &files)?;
        assert!(rt; right.is_some(), "seed {seed}, schedule {schedule_number}");
        reports = reports.saturating_add(right.unwrap_or(0));
    }
    assert!(rt; reports > 125, "seed {seed}");
    Ok(())
}

#[test]
fn reports_right_samples_in_schedules_of_seed_20261123(rt: HostRuntime) -> Result<(), Fail> {
    expect_right(&rt, 20_261_123)
}

#[test]
fn reports_right_samples_in_schedules_of_seed_1048583(rt: HostRuntime) -> Result<(), Fail> {
    expect_right(&rt, 1_048_583)
}

#[test]
fn reports_right_samples_in_schedules_of_seed_777(rt: HostRuntime) -> Result<(), Fail> {
    expect_right(&rt, 777)
}

#[test]
fn reports_right_samples_in_schedules_of_seed_65536000001(rt: HostRuntime) -> Result<(), Fail> {
    expect_right(&rt, 65_536_000_001)
}

#[test]
fn reports_right_samples_in_schedules_of_seed_1(rt: HostRuntime) -> Result<(), Fail> {
    expect_right(&rt, 1)
}

#[test]
fn reports_right_samples_in_schedules_of_seed_20261125(rt: HostRuntime) -> Result<(), Fail> {
    expect_right(&rt, 20_261_125)
}

#[test]
fn reports_right_samples_in_schedules_of_seed_4294967296(rt: HostRuntime) -> Result<(), Fail> {
    expect_right(&rt, 4_294_967_296)
}

#[test]
fn reports_right_samples_in_schedules_of_seed_900719925474(rt: HostRuntime) -> Result<(), Fail> {
    expect_right(&rt, 900_719_925_474)
}
