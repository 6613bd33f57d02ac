//! What is wrong with the header and the directories, for every query.
use crate::levels::add_shape_faults;
use crate::rules::{LEVEL, SUBFILE, add_rule_faults};
use crate::stands::{add_if, any_ends_past};
use crate::values::add_value_faults;
use reference_support::{
    all_directories, directory, entry_count, has_directory, is_level, needs_of_directories, number,
    order_of, value,
};
use std::alloc::{AllocError, Global};
use tiff_dir::FileFault;
use tiff_dir::limits::{MAX_DIRECTORIES, MAX_ENTRIES};
use tiff_dir::tags::NEW_SUBFILE_TYPE;

/// Returns whether the bytes that name the order are there and are neither pair, or the number after them isn't 42.
fn is_bad_header(file: &[u8]) -> bool {
    let version = number(file, 2, 2);
    (file.len() >= 2 && order_of(file).is_none()) || (version.is_some() && version != Some(42))
}

/// Returns the tags of the entries of directory `k` that are in the file, in order.
fn tags(alloc: Global, file: &[u8], k: u32) -> Result<Vec<u64>, AllocError> {
    let mut tags = Vec::new(alloc);
    let (Some(at), Some(entries)) = (directory(file, k), entry_count(file, k)) else {
        return Ok(tags);
    };
    for i in 0..u64::from(entries) {
        if let Some(tag) = number(file, u64::from(at) + 2 + 12 * i, 2) {
            tags.push(tag)?;
        }
    }
    Ok(tags)
}

/// Returns whether each number is greater than the one before.
fn ascends(numbers: &[u64]) -> bool {
    let after = numbers.iter().skip(1);
    numbers.iter().zip(after).all(|(a, b)| a < b)
}

/// Adds what is wrong with directory `k`, whether it is a level or not.
fn add_directory_faults(
    alloc: Global,
    faults: &mut Vec<FileFault>,
    file: &[u8],
    k: u32,
) -> Result<(), AllocError> {
    let misplaced = match directory(file, k) {
        Some(at) => at < 8 || at % 2 != 0,
        None => false,
    };
    add_if(faults, misplaced, FileFault::DirPlace)?;
    let miscounted = match entry_count(file, k) {
        Some(count) => count == 0 || count > MAX_ENTRIES,
        None => false,
    };
    add_if(faults, miscounted, FileFault::DirCount)?;
    let tags = tags(alloc, file, k)?;
    add_if(faults, !ascends(&tags), FileFault::TagOrder)?;
    add_rule_faults(faults, file, k, &[SUBFILE])?;
    // The first directory is no reduced-resolution image.
    let reduced = match value(file, k, NEW_SUBFILE_TYPE, 0) {
        Some(subfile) => k == 0 && subfile % 2 == 1,
        None => false,
    };
    add_if(faults, reduced, FileFault::LevelShape)
}

/// Returns the faults of the header and of the directories, each once. They stand for every query.
pub fn faults_of_directories(alloc: Global, file: &[u8]) -> Result<Vec<FileFault>, AllocError> {
    let mut faults = Vec::new(alloc);
    add_if(&mut faults, is_bad_header(file), FileFault::Header)?;
    let ranges = needs_of_directories(alloc, file)?;
    let past = any_ends_past(file, &ranges);
    add_if(&mut faults, past, FileFault::PastEnd)?;
    let more = has_directory(file, MAX_DIRECTORIES);
    add_if(&mut faults, more, FileFault::TooManyDirs)?;
    for k in all_directories(alloc, file)? {
        add_directory_faults(alloc, &mut faults, file, k)?;
        if is_level(file, k) {
            add_rule_faults(&mut faults, file, k, &LEVEL)?;
            add_value_faults(alloc, &mut faults, file, k)?;
            add_shape_faults(&mut faults, file, k)?;
        }
    }
    Ok(faults)
}
