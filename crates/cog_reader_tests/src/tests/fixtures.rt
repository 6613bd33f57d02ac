//! Worked windows of the fixtures.
use super::image::{Answer, Image};
use assertion_support::expect_eq;
use cog_reader::{Outcome, Window, read_file};
use cog_reader_support::{
    CHANGED, Fixture, Numbers, WINDOWS, WindowRow, change, is_wanted, window,
};
use std::alloc::Global;
use std::process::Abort;
use std::test::Fail;
use tiff_dir::{Memory, Pick};

/// Returns whether a reader of the file has this outcome for a window, range by range.
fn reads(alloc: Global, file: Vec<u8>, numbers: Numbers, want: &Outcome) -> Result<bool, Memory> {
    let mut image = Image::new(alloc, file);
    has_outcome(alloc, &mut image, numbers, want)
}

fn has_outcome(
    alloc: Global,
    image: &mut Image,
    numbers: Numbers,
    want: &Outcome,
) -> Result<bool, Memory> {
    let Answer { outcome, .. } = image.answer(alloc, window(numbers))?;
    Ok(outcome == Some(want))
}

/// Returns whether the outcome of a row comes from the whole file, and range by range.
fn is_right(alloc: Global, (fixture, changed, numbers, want): WindowRow) -> Result<bool, Memory> {
    let mut file = fixture.file(alloc)?;
    change(&mut file, changed.0, changed.1);
    let whole = read_file(alloc, &file, window(numbers))?;
    if !is_wanted(Some(&whole), want) {
        return Ok(false);
    }
    reads(alloc, file, numbers, &whole)
}

fn expect(rt: &(impl Abort + AllocGlobal), row: WindowRow) -> Result<(), Fail> {
    let right = is_right(rt.alloc(), row).ok().ok_or("no memory")?;
    let (fixture, changed, numbers, _) = row;
    assert!(rt; right, "{fixture:?} {changed:?} {numbers:?}");
    Ok(())
}

#[test]
fn reads_the_windows_of_the_fixtures(rt: HostRuntime) -> Result<(), Fail> {
    for (fixture, numbers, want) in WINDOWS {
        expect(&rt, (fixture, (0, b""), numbers, want))?;
    }
    Ok(())
}

#[test]
fn reads_windows_of_changed_fixtures(rt: HostRuntime) -> Result<(), Fail> {
    for row in CHANGED {
        expect(&rt, row)?;
    }
    Ok(())
}

/// Returns the window `numbers` of f3.
fn pixels_of_f3(rt: &impl AllocGlobal, numbers: Numbers) -> Result<Window, Fail> {
    let file = Fixture::F3.file(rt.alloc())?;
    match read_file(rt.alloc(), &file, window(numbers)) {
        Ok(Outcome::Window(window)) => Ok(window),
        _ => Err(Fail::new("no window")),
    }
}

#[test]
fn reads_whole_levels(rt: HostRuntime) -> Result<(), Fail> {
    let small = pixels_of_f3(&rt, (0, 0, 32, 32, Pick::Columns(16)))?;
    expect_eq!(rt; (small.w, small.h, small.pixels.len()), (16, 16, 256));
    for (i, byte) in small.pixels.iter().enumerate() {
        expect_eq!(rt; usize::from(*byte), i / 16, "at {i}");
    }
    let large = pixels_of_f3(&rt, (0, 0, 32, 32, Pick::Columns(17)))?;
    expect_eq!(rt; (large.w, large.h, large.pixels.len()), (32, 32, 1024));
    for (i, byte) in large.pixels.iter().enumerate() {
        let tile = i / 512 * 2 + i % 32 / 16;
        expect_eq!(rt; usize::from(*byte), 16 + tile, "at {i}");
    }
    Ok(())
}
