//! Queries in turn on one reader. It wants only what it doesn't keep.
use super::image::{Answer, Image};
use super::{Range, are_ranges};
use cog_reader::{Outcome, read_file};
use cog_reader_support::{Fixture, Numbers, Want, change, is_wanted, window};
use std::alloc::{AllocError, Global};
use std::test::Fail;
use tiff_dir::{FileFault, Memory, Pick, Query};

/// The header of f3, and its directories.
const DIRECTORIES: [Range; 5] = [(0, 8), (8, 2), (10, 160), (170, 2), (172, 124)];

/// The tile arrays of the first level of f3.
const FIRST: [Range; 2] = [(296, 16), (312, 16)];

/// The tile arrays of the second level of f3, which stand in their entries.
const SECOND: [Range; 2] = [(276, 4), (288, 4)];

/// The geo fields of f3.
const GEO: [Range; 4] = [(352, 32), (384, 8), (392, 8), (328, 24)];

/// Returns the ranges one after another.
fn joined(alloc: Global, parts: &[&[Range]]) -> Result<Vec<Range>, AllocError> {
    let mut ranges = Vec::new(alloc);
    for part in parts {
        ranges.extend_from_slice(part)?;
    }
    Ok(ranges)
}

/// What is done with a reader, and what is expected of it.
#[derive(Clone, Copy)]
enum Step<'a> {
    /// A window wants these ranges, and has this outcome.
    Answers(Numbers, &'a [&'a [Range]], Want<'a>),
    /// Info wants these ranges, and has the outcome of a new reader.
    Informs(&'a [&'a [Range]]),
    /// A window is asked, and the first ranges of this count are given.
    Begins(Numbers, usize),
    /// This range is wanted next, or none is.
    Needs(Option<Range>),
    /// This outcome is taken out, or there is none.
    Yields(Option<Want<'a>>),
}

/// Returns whether the answer to a query wants these ranges, and has this outcome.
fn answers(
    alloc: Global,
    image: &mut Image,
    numbers: Numbers,
    parts: &[&[Range]],
    want: Want<'_>,
) -> Result<bool, Memory> {
    let ranges = joined(alloc, parts)?;
    let Answer { wanted, outcome } = image.answer(alloc, window(numbers))?;
    Ok(are_ranges(&wanted, &ranges) && is_wanted(outcome, want))
}

/// Returns whether Info wants these ranges, and has the outcome of a new reader.
fn informs(alloc: Global, image: &mut Image, parts: &[&[Range]]) -> Result<bool, Memory> {
    let ranges = joined(alloc, parts)?;
    let whole = read_file(alloc, &image.file, Query::Info)?;
    let Answer { wanted, outcome } = image.answer(alloc, Query::Info)?;
    Ok(
        matches!(&whole, Outcome::Info(_))
            && are_ranges(&wanted, &ranges)
            && outcome == Some(&whole),
    )
}

/// Returns whether this range is wanted next, or none is.
fn needs(image: &mut Image, range: Option<Range>) -> Result<bool, Memory> {
    match (image.need()?, range) {
        (Some(span), Some(range)) => Ok(are_ranges(&[span], &[range])),
        (None, None) => Ok(true),
        _ => Ok(false),
    }
}

/// Returns whether this outcome is taken out, or there is none.
fn yields(image: &mut Image, want: Option<Want<'_>>) -> bool {
    match (image.take_outcome(), want) {
        (Some(outcome), Some(want)) => is_wanted(Some(&outcome), want),
        (None, None) => true,
        _ => false,
    }
}

/// Does a step. Returns whether it went as expected.
fn goes(alloc: Global, image: &mut Image, step: Step<'_>) -> Result<bool, Memory> {
    match step {
        Step::Answers(numbers, parts, want) => answers(alloc, image, numbers, parts, want),
        Step::Informs(parts) => informs(alloc, image, parts),
        Step::Begins(numbers, count) => {
            image.begin(window(numbers), count)?;
            Ok(true)
        }
        Step::Needs(range) => needs(image, range),
        Step::Yields(want) => Ok(yields(image, want)),
    }
}

/// Returns the number of the first step that didn't go as expected.
fn first_otherwise(
    alloc: Global,
    image: &mut Image,
    steps: &[Step<'_>],
) -> Result<Option<usize>, Memory> {
    for (i, step) in steps.iter().enumerate() {
        if !goes(alloc, image, *step)? {
            return Ok(Some(i));
        }
    }
    Ok(None)
}

/// Returns the same for a new reader of a file.
fn otherwise(alloc: Global, file: Vec<u8>, steps: &[Step<'_>]) -> Result<Option<usize>, Memory> {
    let mut image = Image::new(alloc, file);
    first_otherwise(alloc, &mut image, steps)
}

const CORNER: Numbers = (15, 15, 2, 2, Pick::Level(0));

const CORNER_SAMPLES: Want<'static> = Want::Window(2, 2, 1, 8, &[0x10, 0x11, 0x12, 0x13]);

/// The groups of windows of the two levels.
const ALL_TILES: [Range; 1] = [(400, 1024)];

const FIRST_TILE: [Range; 1] = [(400, 256)];

const SECOND_TILE: [Range; 1] = [(656, 256)];

const PACKED_TILE: [Range; 1] = [(1424, 32)];

/// The ranges that a new reader wants for a window of all tiles of the first level.
const ALL_OF_FIRST: [&[Range]; 3] = [&DIRECTORIES, &FIRST, &ALL_TILES];

/// A sample of the second level.
const SMALL: Numbers = (0, 0, 1, 1, Pick::Level(1));

const OUTSIDE: Want<'static> = Want::Fault(FileFault::Outside);

const PACKET: Want<'static> = Want::Fault(FileFault::Packet);

const LEVELS_IN_TURN: [Step<'static>; 8] = [
    Step::Answers(CORNER, &ALL_OF_FIRST, CORNER_SAMPLES),
    Step::Answers(
        (0, 0, 1, 1, Pick::Level(0)),
        &[&FIRST_TILE],
        Want::Window(1, 1, 1, 8, &[0x10]),
    ),
    Step::Answers(
        (3, 15, 2, 1, Pick::Level(1)),
        &[&SECOND, &PACKED_TILE],
        Want::Window(2, 1, 1, 8, &[15, 15]),
    ),
    Step::Answers(
        (3, 0, 1, 3, Pick::Level(1)),
        &[&PACKED_TILE],
        Want::Window(1, 3, 1, 8, &[0, 1, 2]),
    ),
    Step::Answers(
        (31, 0, 1, 1, Pick::Level(0)),
        &[&FIRST, &SECOND_TILE],
        Want::Window(1, 1, 1, 8, &[0x11]),
    ),
    Step::Answers((0, 0, 1, 1, Pick::Level(2)), &[], OUTSIDE),
    Step::Answers((16, 0, 1, 1, Pick::Level(1)), &[], OUTSIDE),
    Step::Answers(
        (1, 2, 2, 1, Pick::Level(0)),
        &[&FIRST_TILE],
        Want::Window(2, 1, 1, 8, &[0x10, 0x10]),
    ),
];

/// Info between two windows of a level wants the geo fields alone, and the arrays of the level are kept.
const INFO_BETWEEN: [Step<'static>; 4] = [
    Step::Answers(CORNER, &ALL_OF_FIRST, CORNER_SAMPLES),
    Step::Informs(&[&GEO]),
    Step::Informs(&[&GEO]),
    Step::Answers(CORNER, &[&ALL_TILES], CORNER_SAMPLES),
];

/// Before the end there is no outcome to take out, and the query goes on. After an outcome is taken out nothing is asked, and the
/// directories and arrays are kept.
const TAKEN_OUT: [Step<'static>; 8] = [
    Step::Begins(CORNER, 6),
    Step::Yields(None),
    Step::Needs(Some((312, 16))),
    Step::Answers(CORNER, &[&[(312, 16)], &ALL_TILES], CORNER_SAMPLES),
    Step::Yields(Some(CORNER_SAMPLES)),
    Step::Yields(None),
    Step::Needs(None),
    Step::Answers(CORNER, &[&ALL_TILES], CORNER_SAMPLES),
];

/// A row has what a course shows, and its steps on a new reader of f3.
type Course = (&'static str, &'static [Step<'static>]);

const COURSES: [Course; 3] = [
    ("levels in turn", &LEVELS_IN_TURN),
    ("Info between two windows", &INFO_BETWEEN),
    ("an outcome that is taken out", &TAKEN_OUT),
];

#[test]
fn wants_only_what_it_has_not_kept(rt: HostRuntime) -> Result<(), Fail> {
    for (name, steps) in COURSES {
        let file = Fixture::F3.file(rt.alloc())?;
        let found = otherwise(rt.alloc(), file, steps);
        assert_eq!(rt;
            found.ok().ok_or("no memory")?,
            None,
            "{name}, by its first other step"
        );
    }
    Ok(())
}

/// Leaves a query after `count` of its ranges. The next queries want the rest of the directories, and the rest of the arrays. Returns the
/// number of the first step that didn't go as expected.
fn left_after(alloc: Global, count: usize) -> Result<Option<usize>, Memory> {
    let file = Fixture::F3.file(alloc)?;
    let directories = DIRECTORIES.get(count..).unwrap_or(&[]);
    let arrays = FIRST.get(count.saturating_sub(5)..).unwrap_or(&[]);
    let steps = [
        Step::Begins(CORNER, count),
        Step::Informs(&[directories, &GEO]),
        Step::Answers(CORNER, &[arrays, &ALL_TILES], CORNER_SAMPLES),
    ];
    otherwise(alloc, file, &steps)
}

#[test]
fn keeps_what_a_query_read_that_was_left(rt: HostRuntime) -> Result<(), Fail> {
    for count in 0..8usize {
        let found = left_after(rt.alloc(), count);
        assert_eq!(rt; found.ok().ok_or("no memory")?, None, "{count}");
    }
    Ok(())
}

/// Steps after a fault of a tile: the arrays are kept.
const AFTER_A_FAULT: [Step<'static>; 3] = [
    Step::Answers(SMALL, &[&DIRECTORIES, &SECOND, &PACKED_TILE], PACKET),
    Step::Answers(SMALL, &[&PACKED_TILE], PACKET),
    Step::Answers(CORNER, &[&FIRST, &ALL_TILES], CORNER_SAMPLES),
];

#[test]
fn keeps_the_arrays_after_a_fault(rt: HostRuntime) -> Result<(), Fail> {
    let mut file = Fixture::F3.file(rt.alloc())?;
    change(&mut file, 1454, &[0xf2]);
    let found = otherwise(rt.alloc(), file, &AFTER_A_FAULT);
    assert_eq!(rt; found.ok().ok_or("no memory")?, None);
    Ok(())
}
