//! The ranges that a reader wants, beside those that the plain program needs.
use super::image::{Answer, Image};
use cog_reader::Outcome;
use cog_reader_support::{Fixture, Numbers, window};
use reference_support::{Extent, needs};
use std::process::Abort;
use std::test::Fail;
use tiff_dir::{FileFault, Pick, Query, Span};

const FIXTURES: [Fixture; 9] = [
    Fixture::F1,
    Fixture::F1m,
    Fixture::F2,
    Fixture::F2b,
    Fixture::F3,
    Fixture::F4,
    Fixture::F5,
    Fixture::F6,
    Fixture::F6m,
];

const WINDOWS: [Numbers; 18] = [
    (0, 0, 1, 1, Pick::Level(0)),
    (15, 15, 1, 1, Pick::Level(0)),
    (15, 15, 2, 2, Pick::Level(0)),
    (1, 2, 3, 14, Pick::Level(0)),
    (0, 0, 16, 16, Pick::Level(0)),
    (0, 0, 20, 18, Pick::Level(0)),
    (16, 0, 1, 18, Pick::Level(0)),
    (0, 0, 256, 256, Pick::Level(0)),
    (240, 240, 16, 16, Pick::Level(0)),
    (100, 7, 33, 80, Pick::Level(0)),
    (255, 767, 2, 2, Pick::Level(0)),
    (0, 0, 1280, 1024, Pick::Level(0)),
    (0, 0, 16, 16, Pick::Level(1)),
    (0, 0, 1, 0, Pick::Level(0)),
    (0, 0, 1, 1, Pick::Columns(1)),
    (5, 0, 3, 1, Pick::Columns(1)),
    (0, 0, 32, 32, Pick::Columns(16)),
    (0, 0, 32, 32, Pick::Columns(17)),
];

/// Returns whether these are the same ranges in the same order.
fn are_same(spans: &[Span], ranges: &[Extent]) -> bool {
    spans.len() == ranges.len()
        && spans
            .iter()
            .zip(ranges.iter())
            .all(|(span, range)| range.span() == Some(*span))
}

/// Returns whether the whole query was read. The fixtures have no fault, so the only fault is that the window lies outside.
fn is_complete(outcome: Option<&Outcome>) -> bool {
    match outcome {
        Some(Outcome::Window(_)) | Some(Outcome::Info(_)) => true,
        Some(Outcome::Fault(fault)) => *fault == FileFault::Outside,
        None => false,
    }
}

/// Compares the ranges that a new reader wants for the query with those that it needs.
fn compare(rt: &(impl Abort + AllocGlobal), image: &mut Image, query: Query) -> Result<(), Fail> {
    let ranges = needs(rt.alloc(), &image.file, query)?.ok_or("no ranges")?;
    image.renew(rt.alloc());
    let Answer { wanted, outcome } = image.answer(rt.alloc(), query).ok().ok_or("no memory")?;
    assert!(rt; is_complete(outcome), "{query:?}: {outcome:?}");
    assert!(rt;
        are_same(&wanted, &ranges),
        "{query:?}: {wanted:?} and not {ranges:?}"
    );
    Ok(())
}

#[test]
fn wants_the_needed_ranges_in_order(rt: HostRuntime) -> Result<(), Fail> {
    for fixture in FIXTURES {
        let mut image = Image::new(rt.alloc(), fixture.file(rt.alloc())?);
        compare(&rt, &mut image, Query::Info)?;
        for numbers in WINDOWS {
            compare(&rt, &mut image, window(numbers))?;
        }
    }
    Ok(())
}
