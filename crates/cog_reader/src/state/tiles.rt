//! Reads the groups of a window's tiles.
ghost use Rattle.std.specs.Prelude.{◌≡◌, ◌≤◌, true, ℕ, List, length};
ghost use Rattle.tiff_dir.specs.declared.level.Compression.TheVariants.{Plain};
ghost use Rattle.tiff_dir.specs.declared.query.Query.{Query as Asks};
ghost use Rattle.tiff_dir.specs.Walk.{HasEnded};
ghost use Rattle.tiff_dir.specs.WalkState.{WalkState};
ghost use Rattle.tiff_dir.specs.Window.{is_packed};
ghost use Rattle.cog_reader.specs.declared.kept_arrays.KeptArrays.{KeptArrays as Keeps};
ghost use Rattle.cog_reader.specs.declared.kept_arrays.KeptArrays.TheVariants as kept;
ghost use Rattle.cog_reader.specs.declared.state.State.TheVariants as state;
ghost use Rattle.cog_reader.specs.Give.{AcceptsRange, Advances};
ghost use Rattle.cog_reader.specs.KeptArrays.{HasBoth, IsKeptOf};
ghost use Rattle.cog_reader.specs.Outcome.{IsWindowOf};
ghost use Rattle.cog_reader.specs.Reader.{IsClean};
ghost use Rattle.tile_plan.specs.WindowBuilder.{HasPlan, IsGroupLen, IsPlan, IsUnderway};
ghost use Rattle.cog_reader.specs.ReaderStep.{ComesLater, ComesNext, IsStep};
ghost use Rattle.tile_plan.specs.TileCache.{KeptTiles};

use crate::kept_arrays::KeptArrays;
use crate::state::{ReaderStep, State};
use crate::{Outcome, Window};
use extents::Span;
use tiff_dir::FileFault;
use tile_plan::{Arrays, Bytes, Rectangle, TileCache, WindowBuilder, law_all_are_painted};

/// Makes the window after all groups were given. The tiles that are kept stay, and the cache gets back the room for a
/// tile.
fn into_window(arrays: &Arrays, tile_cache: &mut TileCache, builder: WindowBuilder) -> Window
    ensures same { tile_cache.new ≡ tile_cache.old }
    // Of a file whose directories are without fault: no other fault stands.
    ensures window { (f : List ℕ) (q : Asks) → IsUnderway f q arrays.now builder → builder.given ≡ length builder.groups → IsClean f
        → IsWindowOf f q result }
{
    law_all_are_painted();
    let Rectangle { w, h, .. } = builder.rectangle();
    Window {
        w,
        h,
        samples: arrays.level.samples,
        bits: arrays.level.bits,
        pixels: builder.into_pixels(arrays, tile_cache),
    }
}

/// Returns what comes next: a group, or, where all were given, the window.
pub fn next(arrays: &Arrays, tile_cache: &mut TileCache, builder: WindowBuilder) -> ReaderStep
    ensures same { tile_cache.new ≡ tile_cache.old }
    ensures step { (file_length n : ℕ) (w : WalkState) (q : Asks) → HasEnded w → IsPlan file_length arrays.now builder
        → IsStep file_length w (kept.Both n arrays.now) q (state.Tiles builder) result }
{
    match builder.need() {
        Some(span) => ReaderStep::Read(State::Tiles(builder), span),
        None => ReaderStep::Answer(Outcome::Window(into_window(arrays, tile_cache, builder))),
    }
}

/// Returns the byte range of the next group.
pub fn wanted(builder: &WindowBuilder) -> Option<Span>
    ensures { (file_length : ℕ) (w : WalkState) (k : Keeps) → HasBoth k (λ a. IsPlan file_length a builder.now)
        → ComesNext file_length w k (state.Tiles builder.now) result }
{
    builder.need()
}

/// Returns the byte range of the group after the next one and `index` more.
pub fn upcoming(builder: &WindowBuilder, index: u32) -> Option<Span>
    ensures { (file_length : ℕ) (w : WalkState) (k : Keeps) → HasBoth k (λ a. IsPlan file_length a builder.now)
        → ComesLater file_length w k (state.Tiles builder.now) index result }
{
    builder.upcoming(index)
}

/// Gives the window a group, and returns the fault that it has, if any.
pub fn accept(
    kept: &KeptArrays,
    builder: &mut WindowBuilder,
    tile_cache: &mut TileCache,
    bytes: &[u8],
) -> Option<FileFault>
    requires plan { HasBoth kept.now (λ a. HasPlan a builder.old) }
    requires wanted { IsGroupLen builder.old (length bytes.now) }
    ensures { (file_length : ℕ) (w : WalkState) → HasEnded w → HasBoth kept.now (λ a. IsPlan file_length a builder.old)
        → IsKeptOf w kept.now
        → AcceptsRange file_length bytes.now (record { walk = w; kept = kept.now; tiles = tile_cache.old; state = state.Tiles builder.old })
        (record { walk = w; kept = kept.now; tiles = tile_cache.new; state = state.Tiles builder.new }) result }
{
    match builder.give(kept.both(), tile_cache, bytes) {
        Ok(()) => None,
        Err(fault) => Some(fault),
    }
}

/// Gives the window a group of plain tiles.
pub fn paint<B: Bytes>(kept: &KeptArrays, builder: &mut WindowBuilder, bytes: &B)
    requires plan { HasBoth kept.now (λ a. (a.level.compression ≡ Plain) × HasPlan a builder.old) }
    requires wanted { IsGroupLen builder.old (length (B.bytes bytes.now)) }
    ensures { (file_length : ℕ) (w : WalkState) (tiles : KeptTiles) → HasEnded w → HasBoth kept.now (λ a. IsPlan file_length a builder.old)
        → IsKeptOf w kept.now → Advances file_length (B.bytes bytes.now)
        (record { walk = w; kept = kept.now; tiles = tiles; state = state.Tiles builder.old })
        (record { walk = w; kept = kept.now; tiles = tiles; state = state.Tiles builder.new }) }
{
    builder.paint(kept.both(), bytes);
}

/// Gives the window a group of packed tiles, and returns the fault that it has, if any.
pub fn unpack<B: Bytes>(
    kept: &KeptArrays,
    builder: &mut WindowBuilder,
    tile_cache: &mut TileCache,
    bytes: &B,
    room: &mut [u8],
) -> Option<FileFault>
    requires plan { HasBoth kept.now (λ a. (is_packed a.level.compression ≡ true) × HasPlan a builder.old) }
    requires wanted { IsGroupLen builder.old (length (B.bytes bytes.now)) }
    requires room { B.room_needed bytes.now ≤ length room.old }
    ensures { (file_length : ℕ) (w : WalkState) → HasEnded w → HasBoth kept.now (λ a. IsPlan file_length a builder.old)
        → IsKeptOf w kept.now
        → AcceptsRange file_length (B.bytes bytes.now)
        (record { walk = w; kept = kept.now; tiles = tile_cache.old; state = state.Tiles builder.old })
        (record { walk = w; kept = kept.now; tiles = tile_cache.new; state = state.Tiles builder.new }) result }
{
    match builder.unpack(kept.both(), tile_cache, bytes, room) {
        Ok(()) => None,
        Err(fault) => Some(fault),
    }
}
