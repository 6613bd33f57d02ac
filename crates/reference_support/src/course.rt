//! Walks over files in memory.
ghost use Rattle.std.specs.Prelude.{IfOk};
ghost use Rattle.tiff_dir.specs.Walk.{WalkAgrees};
ghost use Rattle.reference_support.specs.Walked.{IsNext, IsWalked};

use std::alloc::Global;
use tiff_dir::{FileFault, Memory, Span, Walk, WalkError};

/// What the next range of a file did to a walk.
#[derive(Clone, Copy, Debug, PartialEq, Eq)]
pub enum Next {
    /// The walk took this range.
    Went(Span),
    /// The walk has ended.
    Ended,
    /// The file has this fault.
    Refused(FileFault),
}

/// Gives the walk the next range of the file.
pub fn take_next(walk: &mut Walk, file: &[u8]) -> Result<Next, Memory>
    ensures { WalkAgrees walk.old file.now → IfOk result (IsNext file.now walk.old walk.new) }
{
    let span = match walk.need(file.len() as u64) {
        Ok(Some(span)) => span,
        Ok(None) => return Ok(Next::Ended),
        Err(fault) => return Ok(Next::Refused(fault)),
    };
    match walk.give(&file[span.first as usize..span.last as usize + 1]) {
        Ok(()) => Ok(Next::Went(span)),
        Err(WalkError::File(fault)) => Ok(Next::Refused(fault)),
        Err(WalkError::Memory) => Err(Memory),
    }
}

/// The ranges that a walk took, in turn, and the walk at its end, or the fault at which it stopped.
#[derive(Drop)]
pub struct Course {
    pub ranges: Vec<Span>,
    pub end: Result<Walk, FileFault>,
}

/// Walks over all directories of the file.
pub fn walk_over(alloc: Global, file: &[u8]) -> Result<Course, Memory>
    ensures { IfOk result (λ course. IsWalked file.now course.end) }
{
    let mut ranges = Vec::new(alloc);
    let mut walk = Walk::new(alloc);
    loop {
        match take_next(&mut walk, file)? {
            Next::Went(span) => ranges.push(span)?,
            Next::Ended => {
                return Ok(Course {
                    ranges,
                    end: Ok(walk),
                });
            }
            Next::Refused(fault) => {
                return Ok(Course {
                    ranges,
                    end: Err(fault),
                });
            }
        }
    }
}
