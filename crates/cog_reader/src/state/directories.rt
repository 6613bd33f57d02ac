//! Reads the directories.
ghost use Rattle.std.specs.Prelude.{◌≡◌, ◌≢◌, IfOk, OnErr, length};
ghost use Rattle.tiff_dir.specs.declared.query.Query.TheVariants as queries;
ghost use Rattle.tiff_dir.specs.Walk as walks;
ghost use Rattle.tiff_dir.specs.Walk.{HasEnded};
ghost use Rattle.cog_reader.specs.declared.kept_arrays.KeptArrays.{KeptArrays as Keeps};
ghost use Rattle.cog_reader.specs.declared.state.State.TheVariants as state;
ghost use Rattle.cog_reader.specs.Give.{AcceptsDirectories};
ghost use Rattle.cog_reader.specs.KeptArrays.{IsKeptOf};
ghost use Rattle.cog_reader.specs.ReaderStep.{ComesNext, IsStep};

use crate::Outcome;
use crate::fields::GeoFields;
use crate::state::{FileView, ReaderStep, State, arrays, fields};
use extents::{Memory, Span};
use tiff_dir::{FileFault, Query, Walk, WalkError, law_levels_are_described, law_what_comes};
use tile_plan::{TileCache, rect};

/// Returns what comes next: a range of the directories, or, where all are read, what the query needs of its own. Fails
/// with `Memory` alone.
pub fn next(
    file: &FileView<'_>,
    tile_cache: &mut TileCache,
    query: Query,
) -> Result<ReaderStep, Memory>
    requires { IsKeptOf file.now.walk.now file.now.kept.now }
    ensures same { tile_cache.new ≡ tile_cache.old }
    ensures step { IfOk result (IsStep file.now.file_length file.now.walk.now file.now.kept.now query state.Directories) }
{
    match file.walk.need(file.file_length) {
        Ok(Some(span)) => Ok(ReaderStep::Read(State::Directories, span)),
        Err(fault) => Ok(ReaderStep::Answer(Outcome::Fault(fault))),
        Ok(None) => match query {
            Query::Info => begin_info(file),
            Query::Window { .. } => begin_window(file, tile_cache, query),
        },
    }
}

/// Returns the next byte range of the directories.
pub fn wanted(file: &FileView<'_>) -> Option<Span>
    ensures { (k : Keeps) → ComesNext file.now.file_length file.now.walk.now k state.Directories result }
{
    match file.walk.need(file.file_length) {
        Ok(span) => span,
        Err(_past) => None,
    }
}

/// Returns what comes first for Info, after all directories were read.
fn begin_info(file: &FileView<'_>) -> Result<ReaderStep, Memory>
    requires { HasEnded file.now.walk.now }
    ensures { IfOk result (λ step. (k : Keeps) → IsStep file.now.file_length file.now.walk.now k queries.Info state.Directories step) }
{
    law_what_comes();
    let places = match file.walk.geo_places() {
        Ok(places) => places,
        Err(fault) => return Ok(ReaderStep::Answer(Outcome::Fault(fault))),
    };
    let fields = GeoFields::new(file.alloc, places);
    match fields::next(file, fields) {
        Ok(step) => Ok(step),
        Err(_fields) => Err(Memory),
    }
}

/// Returns what comes first for a window, after all directories were read.
fn begin_window(
    file: &FileView<'_>,
    tile_cache: &mut TileCache,
    query: Query,
) -> Result<ReaderStep, Memory>
    requires ended { HasEnded file.now.walk.now }
    requires kept { IsKeptOf file.now.walk.now file.now.kept.now }
    requires window { query ≢ queries.Info }
    ensures same { tile_cache.new ≡ tile_cache.old }
    ensures step { IfOk result (IsStep file.now.file_length file.now.walk.now file.now.kept.now query state.Directories) }
{
    law_what_comes();
    law_levels_are_described();
    match rect(file.walk.levels(), query) {
        Ok(rect) => arrays::next(file, tile_cache, rect),
        Err(fault) => Ok(ReaderStep::Answer(Outcome::Fault(fault))),
    }
}

/// Gives the walk a range of the directories, and returns the fault that it has, if any. Fails with `Memory` alone, and
/// then changes nothing.
pub fn accept(walk: &mut Walk, bytes: &[u8]) -> Result<Option<FileFault>, Memory>
    requires { walks.IsWanted walk.old (length bytes.now) }
    ensures directories { IfOk result (AcceptsDirectories bytes.now walk.old walk.new) }
    ensures err { OnErr result (walk.new ≡ walk.old) }
{
    match walk.give(bytes) {
        Ok(()) => Ok(None),
        Err(WalkError::File(fault)) => Ok(Some(fault)),
        Err(WalkError::Memory) => Err(Memory),
    }
}
