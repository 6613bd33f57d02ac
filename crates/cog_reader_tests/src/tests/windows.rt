//! Windows beside the plain program's samples.
ghost use Rattle.std.specs.Prelude.{◌<◌};

use super::image::{Answer, Image};
use cog_reader::Outcome;
use cog_reader_support::{Fixture, Plain, of_level, window};
use fixtures_support::Numbers;
use std::alloc::{AllocError, Global};
use std::process::Abort;
use std::test::Fail;
use tiff_dir::{Pick, Query};

/// A file with its reader, and what the plain program reads in it.
#[derive(Drop)]
struct Compared {
    image: Image,
    plain: Plain,
}

impl Compared {
    fn new(alloc: Global, fixture: Fixture) -> Result<Compared, AllocError> {
        let image = Image::new(alloc, fixture.file(alloc)?);
        let plain = Plain::new(alloc, fixture.file(alloc)?)?;
        Ok(Compared { image, plain })
    }

    /// Returns whether the reader's outcome is a window, and the one that the plain program reads.
    fn is_same(&mut self, alloc: Global, query: Query) -> Result<bool, Fail> {
        let Answer { outcome, .. } = self.image.answer(alloc, query).ok().ok_or("no memory")?;
        match outcome {
            Some(outcome) if matches!(outcome, Outcome::Window(_)) => {
                Ok(self.plain.is_answer(alloc, query, outcome)?)
            }
            _ => Ok(false),
        }
    }
}

/// Compares the windows of `w` columns from `x` on, in level `n` of `length` rows.
fn compare_columns(
    rt: &(impl Abort + AllocGlobal),
    compared: &mut Compared,
    n: u32,
    (x, w): (u32, u32),
    length: u32,
) -> Result<(), Fail> {
    for y in 0..length {
        for h in 1..=length - y {
            let query = of_level(x, y, w, h, n);
            assert!(rt; compared.is_same(rt.alloc(), query)?, "{query:?}");
        }
    }
    Ok(())
}

/// Compares every window of a level.
fn compare_all(
    rt: &(impl Abort + AllocGlobal),
    compared: &mut Compared,
    n: u32,
    width: u32,
    length: u32,
) -> Result<(), Fail> {
    for x in 0..width {
        for w in 1..=width - x {
            compare_columns(rt, compared, n, (x, w), length)?;
        }
    }
    Ok(())
}

#[test]
fn reads_every_window_of_packed_tiles(rt: HostRuntime) -> Result<(), Fail> {
    let mut compared = Compared::new(rt.alloc(), Fixture::F4)?;
    compare_all(&rt, &mut compared, 0, 20, 18)
}

#[test]
fn reads_every_window_of_a_small_level(rt: HostRuntime) -> Result<(), Fail> {
    let mut compared = Compared::new(rt.alloc(), Fixture::F3)?;
    compare_all(&rt, &mut compared, 1, 16, 16)
}

/// Returns where a window begins along a side, and its length there.
fn stretch(numbers: &mut Numbers, side: u32) -> (u32, u32)
    requires { 0 < side }
{
    let len = 1 + numbers.below(side as usize);
    let first = numbers.below(side as usize - len + 1);
    (first as u32, len as u32)
}

/// The seed of the random windows.
const SEED: u64 = 1;

/// Compares 1,000 windows of level 0 with each pick: the level by its number, and the least one that has a random number of columns.
fn compare_some(
    rt: &(impl Abort + AllocGlobal),
    compared: &mut Compared,
    width: u32,
    length: u32,
) -> Result<(), Fail>
    requires width { 0 < width }
    requires length { 0 < length }
{
    let mut numbers = Numbers::new(SEED);
    for _ in 0..1000 {
        let (x, w) = stretch(&mut numbers, width);
        let (y, h) = stretch(&mut numbers, length);
        let (_first, columns) = stretch(&mut numbers, width);
        for pick in [Pick::Level(0), Pick::Columns(columns)] {
            let query = window((x, y, w, h, pick));
            assert!(rt;
                compared.is_same(rt.alloc(), query)?,
                "seed {SEED}: {query:?}"
            );
        }
    }
    Ok(())
}

#[test]
fn reads_random_windows_of_two_levels(rt: HostRuntime) -> Result<(), Fail> {
    let mut compared = Compared::new(rt.alloc(), Fixture::F3)?;
    compare_some(&rt, &mut compared, 32, 32)
}

#[test]
fn reads_random_windows_of_large_tiles(rt: HostRuntime) -> Result<(), Fail> {
    let mut compared = Compared::new(rt.alloc(), Fixture::F5)?;
    compare_some(&rt, &mut compared, 1280, 1024)
}
