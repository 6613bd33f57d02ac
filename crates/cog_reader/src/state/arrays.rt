//! Reads the tile arrays of a window's level.
ghost use Rattle.std.specs.Prelude.{◌≡◌, ℕ, List, IfOk, IsSomeAnd, OnErr, OnOk, length, slice_get};
ghost use Rattle.tiff_dir.specs.declared.query.Query.{Query as Asks};
ghost use Rattle.tiff_dir.specs.Walk.{levels_of, HasEnded};
ghost use Rattle.tile_plan.specs.Levels.{IsSmall};
ghost use Rattle.cog_reader.specs.declared.state.State.TheVariants as state;
ghost use Rattle.cog_reader.specs.Give.{Advances};
ghost use Rattle.cog_reader.specs.KeptArrays.{IsKeptOf};
ghost use Rattle.cog_reader.specs.Reader.{wanted_by, IsState};
ghost use Rattle.cog_reader.specs.ReaderStep.{ComesLater, ComesNext, IsStep};
ghost use Rattle.tile_plan.specs.TileCache.{KeptTiles};

use crate::Outcome;
use crate::kept_arrays::{KeptArrays, NextArray};
use crate::state::{FileView, ReaderStep, State, span_of, tiles};
use extents::{Memory, Span};
use std::alloc::Global;
use tiff_dir::{FileFault, Walk, law_levels_are_described, law_what_comes};
use tile_plan::{PlanError, Rectangle, TileCache, WindowBuilder};

/// Returns what comes next: an array, or, where both are kept, the window's tiles. Fails with `Memory` alone.
pub fn next(
    file: &FileView<'_>,
    tile_cache: &mut TileCache,
    rect: Rectangle,
) -> Result<ReaderStep, Memory>
    requires ended { HasEnded file.now.walk.now }
    requires kept { IsKeptOf file.now.walk.now file.now.kept.now }
    requires small { IsSomeAnd (slice_get (levels_of file.now.walk.now) rect.level) (λ l. IsSmall l rect) }
    ensures same { tile_cache.new ≡ tile_cache.old }
    ensures step { IfOk result (λ step. (q : Asks)
        → IsStep file.now.file_length file.now.walk.now file.now.kept.now q (state.Arrays rect) step) }
{
    law_what_comes();
    law_levels_are_described();
    let level = &file.walk.levels()[rect.level];
    match file.kept.next(rect.level, level) {
        NextArray::Read(place) => match span_of(place, file.file_length) {
            Some(span) => Ok(ReaderStep::Read(State::Arrays(rect), span)),
            None => Ok(ReaderStep::Answer(Outcome::Fault(FileFault::PastEnd))),
        },
        NextArray::Both(arrays) => match WindowBuilder::new(
            file.alloc,
            arrays,
            tile_cache,
            rect,
            file.file_length,
        ) {
            Ok(builder) => Ok(tiles::next(arrays, tile_cache, builder)),
            Err(PlanError::File(fault)) => Ok(ReaderStep::Answer(Outcome::Fault(fault))),
            Err(PlanError::Memory) => Err(Memory),
        },
    }
}

/// Returns the byte range of the next array.
pub fn wanted(file: &FileView<'_>, rect: Rectangle) -> Option<Span>
    requires ended { HasEnded file.now.walk.now }
    requires small { IsSomeAnd (slice_get (levels_of file.now.walk.now) rect.level) (λ l. IsSmall l rect) }
    ensures { ComesNext file.now.file_length file.now.walk.now file.now.kept.now (state.Arrays rect) result }
{
    law_what_comes();
    law_levels_are_described();
    let level = &file.walk.levels()[rect.level];
    match file.kept.next(rect.level, level) {
        NextArray::Read(place) => span_of(place, file.file_length),
        NextArray::Both(_) => None,
    }
}

/// Returns the byte range of the array after the next one.
pub fn upcoming(file: &FileView<'_>, rect: Rectangle) -> Option<Span>
    requires ended { HasEnded file.now.walk.now }
    requires small { IsSomeAnd (slice_get (levels_of file.now.walk.now) rect.level) (λ l. IsSmall l rect) }
    ensures { ComesLater file.now.file_length file.now.walk.now file.now.kept.now (state.Arrays rect) 0 result }
{
    law_what_comes();
    law_levels_are_described();
    let level = &file.walk.levels()[rect.level];
    let place = file.kept.after_next(rect.level, level)?;
    span_of(place, file.file_length)
}

/// Keeps an array of the rectangle's level. Fails with `Memory` alone, and then changes nothing.
pub fn accept(
    alloc: Global,
    walk: &Walk,
    kept: &mut KeptArrays,
    rect: Rectangle,
    bytes: &[u8],
) -> Result<(), Memory>
    requires state { IsState 0 walk.now kept.old (state.Arrays rect) }
    requires kept { IsKeptOf walk.now kept.old }
    requires wanted { IsSomeAnd (wanted_by walk.now kept.old (state.Arrays rect)) (λ r. length bytes.now ≡ r.len) }
    ensures on { OnOk result ((file_length : ℕ) (tiles : KeptTiles) → Advances file_length bytes.now
        (record { walk = walk.now; kept = kept.old; tiles = tiles; state = state.Arrays rect })
        (record { walk = walk.now; kept = kept.new; tiles = tiles; state = state.Arrays rect })) }
    ensures err { OnErr result (kept.new ≡ kept.old) }
{
    law_what_comes();
    law_levels_are_described();
    let levels = walk.levels();
    kept.add(alloc, rect.level, walk.order(), &levels[rect.level], bytes)?;
    Ok(())
}
