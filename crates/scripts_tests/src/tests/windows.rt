//! Windows of f1 after one exchange: their samples alone and beside the plain program, and windows outside the level.
use assertion_support::expect_eq;
use fixtures_support::{f1, f1m};
use reference_support::sample;
use std::alloc::Global;
use std::process::Abort;
use std::test::Fail;
use tiff_dir::{FileFault, Pick, Query};
use world::{Event, Log, Outcome, Window, run};

/// Returns the log of one exchange for a window of level 0 of a file that is published as `a` in epoch 1.
fn read(alloc: Global, file: &[u8], sides: [u32; 4]) -> Result<Log, Fail> {
    let [x, y, w, h] = sides;
    let pick = Pick::Level(0);
    let query = Query::Window { x, y, w, h, pick };
    let events = vec![in alloc;
        Event::Epoch(1),
        Event::Publish {
            name: Vec::from_slice(alloc, b"a")?,
            file: Vec::from_slice(alloc, file)?
        },
        Event::NewClient {
            name: Vec::from_slice(alloc, b"a")?,
            blocks: 66
        },
        Event::Open { client: 0, query },
        Event::Exchange(0),
    ]?;
    let mut log = Log::new(alloc);
    run(alloc, &events, &mut log)?;
    Ok(log)
}

/// What a report says of a window: its tag, sides and samples.
type Told<'a> = (&'a [u8], u32, u32, &'a [u8]);

/// Returns the last report, where it is a window of one sample of 8 bits to a pixel.
fn last_window(log: &Log) -> Option<Told<'_>> {
    let report = log.entries.last()?.report.as_ref()?;
    match &report.outcome {
        Outcome::Window(
            Window {
                w,
                h,
                samples: 1,
                bits: 8,
                pixels,
            },
        ) => Some((report.tag.as_bytes(), *w, *h, pixels)),
        _ => None,
    }
}

fn last_fault(log: &Log) -> Option<FileFault> {
    match log.entries.last()?.report.as_ref()?.outcome {
        Outcome::Fault(fault) => Some(fault),
        _ => None,
    }
}

/// Returns the sample in this column and row by the plain program.
fn plain_sample(alloc: Global, file: &[u8], column: u32, row: u32) -> Result<u8, Fail> {
    let value = sample(alloc, file, 0, column, row, 0)?.ok_or("no sample")?;
    Ok(u8::try_from(value).ok().ok_or("more than a byte")?)
}

/// Returns the samples of the rectangle by the plain program, row by row.
fn samples(alloc: Global, file: &[u8], sides: [u32; 4]) -> Result<Vec<u8>, Fail> {
    let [x, y, w, h] = sides;
    let mut samples = Vec::new(alloc);
    for row in y..y.saturating_add(h) {
        for column in x..x.saturating_add(w) {
            samples.push(plain_sample(alloc, file, column, row)?)?;
        }
    }
    Ok(samples)
}

/// Rows of columns, rows and sides: the whole tile, one sample, a row, a column, each corner, and some inside.
const WINDOWS: [[u32; 4]; 10] = [
    [0, 0, 16, 16],
    [7, 9, 1, 1],
    [0, 5, 16, 1],
    [5, 0, 1, 16],
    [0, 0, 3, 2],
    [12, 0, 4, 5],
    [0, 13, 2, 3],
    [11, 12, 5, 4],
    [3, 4, 7, 5],
    [15, 15, 1, 1],
];

/// Returns whether this is a window of the first revision, with these sides and samples.
fn is_window(told: Option<Told<'_>>, sides: [u32; 4], want: &[u8]) -> bool {
    match told {
        Some((tag, w, h, pixels)) => {
            tag == b"\"1-1\"".as_slice() && (w, h) == (sides[2], sides[3]) && pixels == want
        }
        None => false,
    }
}

/// Expects a log of five entries, the last of which reports a window with these sides and samples.
fn expect_log(
    rt: &impl Abort,
    log: &Log,
    (name, sides): (&str, [u32; 4]),
    want: &[u8],
) -> Result<(), Fail> {
    assert_eq!(rt; log.entries.len(), 5, "{sides:?} of {name}");
    let told = last_window(log);
    assert!(rt;
        is_window(told, sides, want),
        "{sides:?} of {name}: {told:?}"
    );
    Ok(())
}

/// Expects the samples of a window of this file.
fn expect_window(
    rt: &(impl Abort + AllocGlobal),
    (name, file): (&str, &[u8]),
    sides: [u32; 4],
    want: &[u8],
) -> Result<(), Fail> {
    let log = read(rt.alloc(), file, sides)?;
    expect_log(rt, &log, (name, sides), want)
}

#[test]
fn reports_the_samples_of_a_window(rt: HostRuntime) -> Result<(), Fail> {
    let alloc = rt.alloc();
    let want: [u8; 6] = [0x12, 0x13, 0x14, 0x22, 0x23, 0x24];
    expect_window(&rt, ("f1", &f1(alloc)?), [2, 1, 3, 2], &want)?;
    expect_window(&rt, ("f1m", &f1m(alloc)?), [2, 1, 3, 2], &want)?;
    expect_window(&rt, ("f1", &f1(alloc)?), [15, 15, 1, 1], &[0xff])
}

/// Expects the samples of each window that the plain program reads.
fn expect_windows(rt: &(impl Abort + AllocGlobal), name: &str, file: &[u8]) -> Result<(), Fail> {
    for sides in WINDOWS {
        let want = samples(rt.alloc(), file, sides)?;
        expect_window(rt, (name, file), sides, &want)?;
    }
    Ok(())
}

#[test]
fn reports_the_samples_that_the_plain_program_reads(rt: HostRuntime) -> Result<(), Fail> {
    expect_windows(&rt, "f1", &f1(rt.alloc())?)?;
    expect_windows(&rt, "f1m", &f1m(rt.alloc())?)
}

/// Expects that a window is a fault.
fn expect_outside(
    rt: &(impl Abort + AllocGlobal),
    file: &[u8],
    sides: [u32; 4],
) -> Result<(), Fail> {
    let log = read(rt.alloc(), file, sides)?;
    expect_eq!(rt; last_fault(&log), Some(FileFault::Outside), "{sides:?}");
    Ok(())
}

#[test]
fn reports_windows_outside_the_level_as_a_fault(rt: HostRuntime) -> Result<(), Fail> {
    let file = f1(rt.alloc())?;
    expect_outside(&rt, &file, [16, 0, 1, 1])?;
    expect_outside(&rt, &file, [0, 0, 0, 1])?;
    expect_outside(&rt, &file, [u32::MAX, 0, 2, 1])
}
