//! A query of a file that is all in memory.
ghost use Rattle.std.specs.Prelude.{IfOk};
ghost use Rattle.cog_reader.specs.Outcome.{IsTrueOf};

use crate::{Outcome, Reader};
use extents::Memory;
use std::alloc::Global;
use tiff_dir::Query;

/// Returns the answer to `query` of the TIFF file `file`, which is in memory. A fault of the file is an answer, too.
/// Fails with `Memory` alone.
///
/// ```
/// let query = Query::Window { x: 0, y: 0, w: 16, h: 16, pick: Pick::Level(0) };
/// if let Outcome::Window(window) = read_file(rt.alloc(), &file, query)? {
///     println!(rt; "{} by {} pixels", window.w, window.h)?;
/// }
/// ```
pub fn read_file(alloc: Global, file: &[u8], query: Query) -> Result<Outcome, Memory>
    ensures { IfOk result (IsTrueOf file.now query) }
{
    let mut reader = Reader::new(alloc, file.len() as u64);
    reader.open(query);
    while let Some(span) = reader.need()? {
        reader.give(&file[span.first as usize..=span.last as usize])?;
    }
    match reader.take_outcome() {
        Some(outcome) => Ok(outcome),
        None => unreachable!(),
    }
}
