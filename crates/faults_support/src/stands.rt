//! The faults that stand in a file for a query.
use crate::directories::faults_of_directories;
use crate::infos::add_info_faults;
use crate::windows::add_window_faults;
use reference_support::{Extent, needs};
use std::alloc::{AllocError, Global};
use tiff_dir::{FileFault, Query};

/// Adds a fault that stands, unless it is there already.
pub fn add_if(
    faults: &mut Vec<FileFault>,
    stands: bool,
    fault: FileFault,
) -> Result<(), AllocError> {
    if stands && !faults.contains(&fault) {
        faults.push(fault)?;
    }
    Ok(())
}

/// Returns whether one of the ranges ends after the file.
pub fn any_ends_past(file: &[u8], ranges: &[Extent]) -> bool {
    ranges.iter().any(|range| range.first.saturating_add(range.len) > file.len() as u64)
}

/// Returns the faults that stand in the file for the query, each once. These are the faults of its directories, and those of the window or
/// of Info.
///
/// Returns `None` where the plain program doesn't read the level of the window. Such a level has a side of 2^30 pixels or more, or tiles
/// with a side of 0, or of 2^24 or more.
///
/// ```
/// let found = faults(alloc, &file, Query::Info)?;
/// assert!(found.is_some_and(|faults| faults.contains(&FileFault::TagOrder)));
/// ```
pub fn faults(
    alloc: Global,
    file: &[u8],
    query: Query,
) -> Result<Option<Vec<FileFault>>, AllocError> {
    let mut faults = faults_of_directories(alloc, file)?;
    let Some(ranges) = needs(alloc, file, query)? else {
        return Ok(None);
    };
    add_if(
        &mut faults,
        any_ends_past(file, &ranges),
        FileFault::PastEnd,
    )?;
    match query {
        Query::Window { .. } => add_window_faults(alloc, &mut faults, file, query)?,
        Query::Info => add_info_faults(&mut faults, file)?,
    }
    Ok(Some(faults))
}
