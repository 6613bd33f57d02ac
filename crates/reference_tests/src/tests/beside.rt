//! A walk over a file, beside the results of the plain program.
use assertion_support::expect_eq;
use faults_support::faults_of_directories;
use reference_support::{
    Course, Extent, Grid, Level as PlainLevel, level_of, needs_of_directories, walk_over,
};
use std::process::Abort;
use std::test::Fail;
use tiff_dir::{Level, Span};

/// Returns the level in the form of the plain program.
fn plain_of(level: &Level) -> PlainLevel {
    PlainLevel {
        grid: Grid {
            width: level.width,
            length: level.length,
            tile_width: level.tile_width,
            tile_length: level.tile_length,
        },
        samples: level.samples,
        bits: level.bits,
        compression: level.compression,
        offsets: level.offsets,
        counts: level.counts,
    }
}

fn compare_levels<R: Abort + AllocGlobal>(
    rt: &R,
    file: &[u8],
    levels: &[Level],
    name: &str,
) -> Result<(), Fail> {
    for (n, level) in levels.iter().enumerate() {
        match level_of(rt.alloc(), file, n)? {
            Some(plain) => assert!(rt; plain == plain_of(level), "{name}: level {n}"),
            None => panic!(rt; "{name}: no level {n}"),
        }
    }
    assert!(rt;
        level_of(rt.alloc(), file, levels.len())?.is_none(),
        "{name}"
    );
    Ok(())
}

/// Returns whether the walk took the first of the ranges that are needed, in their order.
fn are_first(taken: &[Span], needs: &[Extent]) -> bool {
    taken.len() <= needs.len()
        && taken
            .iter()
            .zip(needs.iter())
            .all(|(span, range)| range.span() == Some(*span))
}

/// Compares a walk over the file with the plain program. Returns whether the walk ended. A failure prints the file's name.
///
/// The walk takes ranges that are needed, in their order. Where it ends, it took all of them and has the plain program's levels, and no
/// fault of the directories stands. Where it refuses, its fault is one of those that stand.
pub fn compare<R: Abort + AllocGlobal>(rt: &R, file: &[u8], name: &str) -> Result<bool, Fail> {
    let needs = needs_of_directories(rt.alloc(), file)?;
    let faults = faults_of_directories(rt.alloc(), file)?;
    let Course { ranges, end } = walk_over(rt.alloc(), file).ok().ok_or("no memory")?;
    assert!(rt;
        are_first(&ranges, &needs),
        "{name}: another range is taken"
    );
    match end {
        Ok(walk) => {
            assert!(rt; faults.is_empty(), "{name}: {faults:?} stand");
            expect_eq!(rt; ranges.len(), needs.len(), "{name}");
            compare_levels(rt, file, walk.levels(), name)?;
            Ok(true)
        }
        Err(fault) => {
            assert!(rt;
                faults.contains(&fault),
                "{name}: {fault:?} is none of {faults:?}"
            );
            Ok(false)
        }
    }
}
