//! Values in the known bytes of a file, beside the plain program's.
ghost use Rattle.std.specs.Prelude.{◌≡◌, ◌+◌, nat_le, length, min};

use assertion_support::expect_eq;
use fixtures_support::{f1, f1m, f2, f2b, f3, f4, f6, f6m};
use known_fields::{KnownBytes, WholeFile, known_directories, known_sum, known_value};
use reference_support::{place, value};
use std::test::Fail;
use tiff_dir::{Kind, Place};

/// A file of which only the first bytes are known.
#[derive(Clone, Copy)]
struct Front<'f> {
    file: &'f [u8],
    known: usize,
}

impl KnownBytes for Front<'_> {
    ghost is_of = { λ w f. f ≡ w.file.now };

    ghost is_known = { λ w first len. nat_le (first + len) (min w.known (length w.file.now)) };

    fn copy_known(&self, first: u64, out: &mut [u8]) -> bool {
        let first = first as usize;
        let end = first + out.len();
        if end > self.known || end > self.file.len() {
            return false;
        }
        out.copy_from_slice(&self.file[first..end]);
        true
    }
}

/// Tags of fields that some file has, and one that none has.
const TAGS: [u16; 16] = [
    254, 256, 257, 258, 259, 262, 277, 284, 322, 324, 325, 339, 33550, 33922, 34735, 42113,
];

/// The numbers of the values of a field that are compared.
const INDICES: [u32; 4] = [0, 2, 15, u32::MAX];

/// Returns the first directory, tag and index where the value of the whole file isn't the plain program's.
fn first_difference(file: &[u8]) -> Option<(u16, u16, u32)> {
    for directory in 0u16..3 {
        for tag in TAGS {
            for index in INDICES {
                let want = value(file, u32::from(directory), tag, u64::from(index));
                if known_value(&WholeFile(file), directory, tag, index) != want {
                    return Some((directory, tag, index));
                }
            }
        }
    }
    None
}

/// Returns the first front, by its number of bytes, and the tag where the known value isn't the plain program's.
fn first_false_front(file: &[u8]) -> Option<(usize, u16)> {
    for known in (0..file.len().min(400)).step_by(13) {
        let front = Front { file, known };
        for tag in TAGS {
            let found = known_value(&front, 0, tag, 0);
            if found.is_some() && found != value(file, 0, tag, 0) {
                return Some((known, tag));
            }
        }
    }
    None
}

/// Expects the plain program's values in files, and the number of directories of each.
#[test]
fn reads_values_of_known_bytes(rt: HostRuntime) -> Result<(), Fail> {
    let alloc = rt.alloc();
    let files = [
        (f1(alloc)?, 1),
        (f1m(alloc)?, 1),
        (f2(alloc)?, 1),
        (f2b(alloc)?, 1),
        (f3(alloc)?, 2),
        (f4(alloc)?, 1),
        (f6(alloc)?, 1),
        (f6m(alloc)?, 1),
    ];
    for (file, directories) in &files {
        expect_eq!(rt; first_difference(file), None);
        expect_eq!(rt; first_false_front(file), None);
        expect_eq!(rt; known_directories(&WholeFile(file)), Some(*directories));
    }
    Ok(())
}

/// Expects the number of directories of f3, for each number of its known bytes.
#[test]
fn counts_directories_that_are_known(rt: HostRuntime) -> Result<(), Fail> {
    let file = f3(rt.alloc())?;
    for (known, want) in [(8, None), (120, None), (1456, Some(2))] {
        let front = Front { file: &file, known };
        expect_eq!(rt; known_directories(&front), want);
    }
    Ok(())
}

/// Returns the sum of TileByteCounts in a directory, where that field is in the file.
fn tile_bytes(file: &[u8], directory: u32) -> Option<u64> {
    let place = place(file, directory, 325)?;
    if place.first < 1 << 33 {
        known_sum(&WholeFile(file), place)
    } else {
        None
    }
}

#[test]
fn sums_the_bytes_of_tiles(rt: HostRuntime) -> Result<(), Fail> {
    let alloc = rt.alloc();
    let files = [
        (f1m(alloc)?, 0, Some(256)),
        (f2(alloc)?, 0, Some(65536)),
        (f3(alloc)?, 0, Some(1024)),
        (f3(alloc)?, 1, Some(32)),
        (f3(alloc)?, 2, None),
    ];
    for (file, directory, want) in &files {
        expect_eq!(rt; tile_bytes(file, *directory), *want);
    }
    Ok(())
}

#[test]
fn sums_nothing_past_the_end(rt: HostRuntime) -> Result<(), Fail> {
    let file = f1(rt.alloc())?;
    for (first, want) in [(376, Some(65534)), (377, None), (378, None)] {
        let place = Place {
            first,
            len: 2,
            count: 1,
            kind: Kind::Short,
        };
        assert!(rt; first < 1 << 33);
        expect_eq!(rt; known_sum(&WholeFile(&file), place), want, "{first}");
    }
    Ok(())
}
