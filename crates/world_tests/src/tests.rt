//! Tests of schedules.
mod deliveries;
mod faithful_stretches;
mod random_schedules;
mod whole_windows;

use fixtures_support::{f1, f1m, f2, f2b, f3, f5};
use scripts::{Loaded, log_text, script};
use std::alloc::Global;
use std::process::Abort;
use std::test::Fail;
use world::{Event, Log, run, run_cut};

/// Returns the file f3, whose packed tile ends with fifteen copies instead of sixteen.
fn damaged(alloc: Global) -> Result<Vec<u8>, Fail> {
    let mut file = f3(alloc)?;
    if let Some(place) = file.get_mut(1454) {
        *place = 0xf2;
    }
    Ok(file)
}

/// Returns the events of a script, whose files are fixtures.
fn events_of(alloc: Global, text: &str) -> Result<Vec<Event>, Fail> {
    let mut files = Loaded::new(alloc);
    files.add(b"f1.tif", f1(alloc)?)?;
    files.add(b"f1m.tif", f1m(alloc)?)?;
    files.add(b"f2.tif", f2(alloc)?)?;
    files.add(b"f2b.tif", f2b(alloc)?)?;
    files.add(b"f3.tif", f3(alloc)?)?;
    files.add(b"damaged.tif", damaged(alloc)?)?;
    files.add(b"f5.tif", f5(alloc)?)?;
    Ok(script(alloc, text.as_bytes(), &mut files)?)
}

/// Returns the log of a script.
fn log_of(alloc: Global, text: &str) -> Result<Log, Fail> {
    let events = events_of(alloc, text)?;
    let mut log = Log::new(alloc);
    run(alloc, &events, &mut log)?;
    Ok(log)
}

/// Sizes of the pieces in which answers come. The head of an answer has about 171 bytes, and a block has 16,384.
const PIECES: [usize; 5] = [1, 7, 171, 16_384, 100_000];

/// Returns whether the log is that of the events with answers in pieces of the size `piece`.
fn is_log_of_pieces(
    alloc: Global,
    events: &[Event],
    piece: usize,
    log: &Log,
) -> Result<bool, Fail> {
    let mut cut = Log::new(alloc);
    run_cut(alloc, events, piece, &mut cut)?;
    Ok(log_text(alloc, &cut)? == log_text(alloc, log)?)
}

/// Returns the log of a script. Expects the same one whether answers come whole or in pieces.
fn log_however_cut(rt: &(impl Abort + AllocGlobal), text: &str) -> Result<Log, Fail> {
    let log = log_of(rt.alloc(), text)?;
    let events = events_of(rt.alloc(), text)?;
    for piece in PIECES {
        assert!(rt;
            is_log_of_pieces(rt.alloc(), &events, piece, &log)?,
            "of the script {text:?} by {piece}"
        );
    }
    Ok(log)
}

/// Expects a script's log, whether answers come whole or in pieces.
fn expect(rt: &(impl Abort + AllocGlobal), text: &str, want: &str) -> Result<(), Fail> {
    let log = log_however_cut(rt, text)?;
    let found = log_text(rt.alloc(), &log)?;
    assert_eq!(rt; str::from_utf8(&found), Ok(want), "of the script {text:?}");
    Ok(())
}

/// A file that is published as `a` in epoch 1, and the events of a script after that, each with its lines in the log.
type Course = (&'static str, &'static [(&'static str, &'static str)]);

/// Returns the text of a script, and that of its log.
fn texts_of(alloc: Global, (file, steps): Course) -> Result<(String, String), Fail> {
    let mut script = format!(in alloc; "epoch 1\npublish a {file}\n")?;
    let mut log = String::from_str(alloc, "epoch 1\npublished \"1-1\"\n")?;
    for step in steps {
        let (event, lines) = *step;
        script.push_str(event)?;
        script.push_str("\n")?;
        log.push_str(lines)?;
        log.push_str("\n")?;
    }
    Ok((script, log))
}

/// Expects the log of a script step by step.
fn expect_course(rt: &(impl Abort + AllocGlobal), course: Course) -> Result<(), Fail> {
    let (script, log) = texts_of(rt.alloc(), course)?;
    expect(rt, script.as_str(), log.as_str())
}
