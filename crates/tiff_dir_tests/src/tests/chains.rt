//! Chains of directories: levels, and directories that are passed over.
use super::{Entry, begun, course_of, end_of, fault_of, fields, file_with, put_directory};
use assertion_support::expect_eq;
use reference_support::Course;
use std::process::Abort;
use std::test::Fail;
use tiff_dir::{FileFault, Order};

/// Returns a file with a level of 32 by 32 samples, and then `count` directories with these entries.
fn followed_by(
    rt: &impl AllocGlobal,
    entries: &[Entry],
    count: u32,
    next: u32,
) -> Result<Vec<u8>, Fail> {
    let order = Order::Little;
    let mut file = begun(rt, order, 8)?;
    let first = [
        (256, 3, 1, 32),
        (257, 3, 1, 32),
        (324, 4, 4, 0),
        (325, 4, 4, 0),
    ];
    put_directory(&mut file, order, fields(rt, &first)?.as_slice(), 122)?;
    for i in 0..count {
        let here = (file.len() % 65536) as u32 + 6 + 12 * (entries.len() % 65536) as u32;
        put_directory(
            &mut file,
            order,
            entries,
            if i + 1 < count { here } else { next },
        )?;
    }
    Ok(file)
}

#[test]
fn takes_up_to_16_directories(rt: HostRuntime) -> Result<(), Fail> {
    let passed: [Entry; 2] = [(254, 4, 1, 4), (256, 7, 9, 9)];
    for (count, next, want) in [
        (15, 0, None),
        (15, 9, Some(FileFault::TooManyDirs)),
        (15, 8, Some(FileFault::TooManyDirs)),
        (14, 9, Some(FileFault::DirPlace)),
        (1, 122, Some(FileFault::TooManyDirs)),
    ] {
        let file = followed_by(&rt, &passed, count, next)?;
        assert_eq!(rt; fault_of(&rt, file.as_slice())?, want, "at {count} {next}");
    }
    let file = followed_by(&rt, &passed, 15, 0)?;
    match end_of(&rt, &file)? {
        Ok(walk) => {
            expect_eq!(rt; walk.given(), 33);
            expect_eq!(rt; walk.levels().len(), 1);
        }
        Err(_) => return Err(Fail::new("a fault")),
    }
    let file = file_with(&rt, Order::Little, &[], 8, &[])?;
    let Course { ranges, end } = course_of(&rt, &file)?;
    expect_eq!(rt; end.err(), Some(FileFault::TooManyDirs));
    expect_eq!(rt; ranges.len(), 32);
    Ok(())
}

#[test]
fn refuses_a_level_not_smaller_than_the_one_before(rt: HostRuntime) -> Result<(), Fail> {
    for (width, length, want) in [
        (32, 32, Some(FileFault::LevelShape)),
        (33, 16, Some(FileFault::LevelShape)),
        (16, 33, Some(FileFault::LevelShape)),
        (32, 31, None),
        (31, 32, None),
        (16, 16, None),
    ] {
        let tiles = if width > 16 && length > 16 {
            4
        } else if width > 16 || length > 16 {
            2
        } else {
            1
        };
        let entries = fields(
            &rt,
            &[
                (254, 4, 1, 1),
                (256, 3, 1, width),
                (257, 3, 1, length),
                (324, 4, tiles, 0),
                (325, 4, tiles, 0),
            ],
        )?;
        let file = followed_by(&rt, entries.as_slice(), 1, 0)?;
        assert_eq!(rt;
            fault_of(&rt, file.as_slice())?,
            want,
            "at {width} {length}"
        );
    }
    Ok(())
}

/// Expects the fault of a level and a directory of these entries after it.
fn expect_second<R: Abort + AllocGlobal>(
    rt: &R,
    entries: &[Entry],
    next: u32,
    want: FileFault,
) -> Result<(), Fail> {
    let file = followed_by(rt, entries, 1, next)?;
    expect_eq!(rt; fault_of(rt, &file)?, Some(want), "at {entries:?}");
    Ok(())
}

// Each file also has a fault that comes later in the order of the checks.
#[test]
fn checks_order_and_subfile_alone_of_other_directories(rt: HostRuntime) -> Result<(), Fail> {
    let double = [(254, 4, 1, 4), (254, 4, 1, 4)];
    expect_second(&rt, &double, 9, FileFault::TagOrder)?;
    let falling = [(256, 7, 9, 9), (254, 3, 1, 4)];
    expect_second(&rt, &falling, 9, FileFault::TagOrder)?;
    let short = [(254, 3, 1, 4), (256, 7, 9, 9)];
    expect_second(&rt, &short, 9, FileFault::FieldType(254))?;
    let pair = [(254, 4, 2, 4), (256, 7, 9, 9)];
    expect_second(&rt, &pair, 9, FileFault::FieldType(254))?;
    expect_second(&rt, &[], 9, FileFault::DirCount)?;
    expect_second(&rt, &[(254, 4, 1, 4); 257], 9, FileFault::DirCount)?;
    let mut file = followed_by(&rt, &double, 1, 0)?;
    file.pop();
    expect_eq!(rt; fault_of(&rt, &file)?, Some(FileFault::PastEnd));
    file.truncate(123);
    expect_eq!(rt; fault_of(&rt, &file)?, Some(FileFault::PastEnd));
    Ok(())
}

#[test]
fn tells_level_shape_before_tile_size(rt: HostRuntime) -> Result<(), Fail> {
    let equal = fields(
        &rt,
        &[
            (254, 4, 1, 1),
            (256, 3, 1, 32),
            (257, 3, 1, 32),
            (322, 3, 1, 24),
        ],
    )?;
    expect_second(&rt, &equal, 0, FileFault::LevelShape)
}
