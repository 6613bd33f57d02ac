//! The states of a query, and what leads from one to the next. This is a step, which takes no byte of the file, or the
//! bytes of the range that a state needs.
ghost use Rattle.std.specs.Prelude.{◌≡◌, ◌+◌, ◌<◌, ◌≤◌, ℕ, IfErr, IfOk, IsOk, IsSome, IsSomeAnd, MatchOption, Ok, OnErr, OnOk, length};
ghost use Rattle.tiff_dir.specs.Needs.{extent_of_place};
ghost use Rattle.extents.specs.Extent.{extent_of_span};
ghost use Rattle.cog_reader.specs.declared.outcome.Outcome.{Outcome as Answer};
ghost use Rattle.cog_reader.specs.declared.state.State.TheVariants as states;
ghost use Rattle.cog_reader.specs.declared.state.ReaderStep.TheVariants as steps;
ghost use Rattle.cog_reader.specs.KeptArrays.{IsKeptOf};
ghost use Rattle.tile_plan.specs.WindowBuilder.{WindowState};
ghost use Rattle.cog_reader.specs.Reader.{outcome_in, wanted_by, tiles_wanted_by, AreTiles, IsState};
ghost use Rattle.cog_reader.specs.Give.{AcceptsRange, Gives};
ghost use Rattle.cog_reader.specs.ReaderStep.{Becomes, ComesLater, ComesNext, IsStep, IsWantedBy};

mod arrays;
mod directories;
mod fields;
mod tiles;

use crate::Outcome;
use crate::fields::GeoFields;
use crate::kept_arrays::KeptArrays;
use extents::{Memory, Span};
use std::alloc::Global;
use std::mem;
use tiff_dir::{Compression, FileFault, Place, Query, Walk};
use tile_plan::{Bytes, Rectangle, TileCache, WindowBuilder};

/// What a query goes by. This is the file's length in bytes, its directories as far as they are read, and the tile
/// arrays that are kept. `alloc` gives memory.
#[derive(Clone, Copy)]
pub struct FileView<'a> {
    pub alloc: Global,
    pub file_length: u64,
    pub walk: &'a Walk,
    pub kept: &'a KeptArrays,
}

/// How far a query has come. The directories come first. For a window the arrays and the tiles follow, for Info the geo
/// fields.
#[derive(Drop)]
pub enum State {
    /// The directories are read, as far as they weren't for an earlier query.
    Directories,
    /// The tile arrays of the rectangle's level are read.
    Arrays(Rectangle),
    /// The groups of the window's tiles are read.
    Tiles(WindowBuilder),
    /// The geo fields are read.
    GeoFields(GeoFields),
    /// The query is answered.
    Answered(Outcome),
}

/// What comes next for a query.
pub enum ReaderStep {
    /// In this state it needs a range of the file.
    Read(State, Span),
    /// It is answered.
    Answer(Outcome),
}

/// Goes on from `state` as far as what is held allows, to a range that is needed, or to the answer. Fails where an
/// allocation fails, and returns the state then.
fn advance(
    file: &FileView<'_>,
    tile_cache: &mut TileCache,
    query: Query,
    state: State,
) -> Result<ReaderStep, State>
    requires kept { IsKeptOf file.now.walk.now file.now.kept.now }
    requires state { IsState file.now.file_length file.now.walk.now file.now.kept.now state }
    ensures same { tile_cache.new ≡ tile_cache.old }
    ensures step { IfOk result (IsStep file.now.file_length file.now.walk.now file.now.kept.now query state) }
    ensures done { (o : Answer) → state ≡ states.Answered o → result ≡ Ok (steps.Answer o) }
    ensures err { IfErr result (λ s. s ≡ state) }
{
    match state {
        State::Directories => match directories::next(file, tile_cache, query) {
            Ok(step) => Ok(step),
            Err(Memory) => Err(State::Directories),
        },
        State::Arrays(rect) => match arrays::next(file, tile_cache, rect) {
            Ok(step) => Ok(step),
            Err(Memory) => Err(State::Arrays(rect)),
        },
        State::Tiles(builder) => Ok(tiles::next(file.kept.both(), tile_cache, builder)),
        State::GeoFields(fields) => match fields::next(file, fields) {
            Ok(step) => Ok(step),
            Err(fields) => Err(State::GeoFields(fields)),
        },
        State::Answered(outcome) => Ok(ReaderStep::Answer(outcome)),
    }
}

/// Gives `state` the bytes that it needs, and returns the fault that they have, if any. Fails with `Memory` alone, and
/// then changes nothing.
fn accept(
    alloc: Global,
    walk: &mut Walk,
    kept: &mut KeptArrays,
    state: &mut State,
    tile_cache: &mut TileCache,
    bytes: &[u8],
) -> Result<Option<FileFault>, Memory>
    requires kept { IsKeptOf walk.old kept.old }
    requires state { (file_length : ℕ) × IsState file_length walk.old kept.old state.old }
    requires wanted { IsSomeAnd (wanted_by walk.old kept.old state.old) (λ r. length bytes.now ≡ r.len) }
    ensures accepts { IfOk result (λ o. (file_length : ℕ) → IsState file_length walk.old kept.old state.old
        → AcceptsRange file_length bytes.now
        (record { walk = walk.old; kept = kept.old; tiles = tile_cache.old; state = state.old })
        (record { walk = walk.new; kept = kept.new; tiles = tile_cache.new; state = state.new }) o) }
    ensures tiles { (m : WindowState) → state.old ≡ states.Tiles m → IsOk result }
    ensures err { OnErr result ((walk.new ≡ walk.old) × (kept.new ≡ kept.old) × (tile_cache.new ≡ tile_cache.old)
        × (state.new ≡ state.old)) }
{
    match state {
        State::Directories => directories::accept(walk, bytes),
        State::Arrays(rect) => {
            arrays::accept(alloc, walk, kept, *rect, bytes)?;
            Ok(None)
        }
        State::Tiles(builder) => Ok(tiles::accept(kept, builder, tile_cache, bytes)),
        State::GeoFields(fields) => {
            fields.give(bytes)?;
            Ok(None)
        }
        State::Answered(_) => unreachable!(),
    }
}

/// A query of a reader, with its state.
#[derive(Drop)]
pub struct PendingQuery {
    pub query: Query,
    pub state: State,
}

impl PendingQuery {
    /// Goes on as far as what is held allows, and returns the byte range that is needed next. Returns `None` where the
    /// query is answered. Fails with `Memory` alone, and then leaves the state as it was.
    pub fn need(
        &mut self,
        file: &FileView<'_>,
        tile_cache: &mut TileCache,
    ) -> Result<Option<Span>, Memory>
        requires kept { IsKeptOf file.now.walk.now file.now.kept.now }
        requires state { IsState file.now.file_length file.now.walk.now file.now.kept.now self.old.state }
        ensures same { tile_cache.new ≡ tile_cache.old }
        ensures query { self.new.query ≡ self.old.query }
        ensures becomes { OnOk result
            (Becomes file.now.file_length file.now.walk.now file.now.kept.now self.old.query self.old.state self.new.state) }
        ensures wanted { IfOk result (λ o. MatchOption o (IsSome (outcome_in self.new.state))
            (λ span. IsWantedBy file.now.file_length file.now.walk.now file.now.kept.now self.new.state (extent_of_span span))) }
        ensures done { IsSome (outcome_in self.old.state) → IsOk result × (self.new ≡ self.old) }
        ensures err { OnErr result (self.new ≡ self.old) }
    {
        let state = mem::replace(&mut self.state, State::Directories);
        match advance(file, tile_cache, self.query, state) {
            Ok(ReaderStep::Read(state, span)) => {
                self.state = state;
                Ok(Some(span))
            }
            Ok(ReaderStep::Answer(outcome)) => {
                self.state = State::Answered(outcome);
                Ok(None)
            }
            Err(state) => {
                self.state = state;
                Err(Memory)
            }
        }
    }

    /// Returns the byte range that is needed next. Returns `None` where it isn't known, or ends after the file.
    pub fn wanted(&self, file: &FileView<'_>) -> Option<Span>
        requires { IsState file.now.file_length file.now.walk.now file.now.kept.now self.now.state }
        ensures { ComesNext file.now.file_length file.now.walk.now file.now.kept.now self.now.state result }
    {
        match &self.state {
            State::Directories => directories::wanted(file),
            State::Arrays(rect) => arrays::wanted(file, *rect),
            State::Tiles(builder) => tiles::wanted(builder),
            State::GeoFields(fields) => fields::wanted(file.file_length, fields),
            State::Answered(_) => None,
        }
    }

    /// Returns the byte range that is needed after the next one and `index` more. Returns `None` where it isn't known,
    /// or ends after the file.
    pub fn upcoming(&self, file: &FileView<'_>, index: u32) -> Option<Span>
        requires { IsState file.now.file_length file.now.walk.now file.now.kept.now self.now.state }
        ensures { ComesLater file.now.file_length file.now.walk.now file.now.kept.now self.now.state index result }
    {
        match &self.state {
            State::Arrays(rect) if index == 0 => arrays::upcoming(file, *rect),
            State::Tiles(builder) => tiles::upcoming(builder, index),
            State::GeoFields(fields) => fields::upcoming(file.file_length, fields, index),
            _ => None,
        }
    }

    /// Takes the bytes that are needed. Where they have a fault, this answers the query. Fails with `Memory` alone, and
    /// then changes nothing.
    pub fn give(
        &mut self,
        alloc: Global,
        walk: &mut Walk,
        kept: &mut KeptArrays,
        tile_cache: &mut TileCache,
        bytes: &[u8],
    ) -> Result<(), Memory>
        requires kept { IsKeptOf walk.old kept.old }
        requires state { (file_length : ℕ) × IsState file_length walk.old kept.old self.old.state }
        requires wanted { IsSomeAnd (wanted_by walk.old kept.old self.old.state) (λ r. length bytes.now ≡ r.len) }
        ensures query { self.new.query ≡ self.old.query }
        ensures gives { OnOk result ((file_length : ℕ) → IsState file_length walk.old kept.old self.old.state
            → Gives file_length bytes.now self.old.query
            (record { walk = walk.old; kept = kept.old; tiles = tile_cache.old; state = self.old.state })
            (record { walk = walk.new; kept = kept.new; tiles = tile_cache.new; state = self.new.state })) }
        ensures tiles { IsSome (tiles_wanted_by kept.old self.old.state) → IsOk result }
        ensures err { OnErr result ((walk.new ≡ walk.old) × (kept.new ≡ kept.old) × (tile_cache.new ≡ tile_cache.old)
            × (self.new ≡ self.old)) }
    {
        match accept(alloc, walk, kept, &mut self.state, tile_cache, bytes)? {
            Some(fault) => self.state = State::Answered(Outcome::Fault(fault)),
            None => {}
        }
        Ok(())
    }
}

impl PendingQuery {
    ghost use Rattle.tiff_dir.specs.declared.level.Compression.TheVariants.{Plain};
    ghost use Rattle.std.specs.Prelude.{true, List};
    ghost use Rattle.tiff_dir.specs.WalkState.{WalkState};
    ghost use Rattle.tiff_dir.specs.Window.{is_packed};
    ghost use Rattle.tile_plan.specs.TileCache.{KeptTiles};

    /// Returns how the tiles are stored that are needed next, or `None` where no tiles are.
    pub fn tiles_wanted(&self, kept: &KeptArrays) -> Option<Compression>
        ensures { result ≡ tiles_wanted_by kept.now self.now.state }
    {
        match (&self.state, kept) {
            (State::Tiles(builder), KeptArrays::Both(_, arrays)) => {
                builder.need()?;
                Some(arrays.level.compression)
            }
            _ => None,
        }
    }

    /// Takes the bytes of plain tiles.
    pub fn paint<B: Bytes>(&mut self, kept: &KeptArrays, bytes: &B)
        requires { AreTiles (λ c. c ≡ Plain) kept.now self.old.state (length (B.bytes bytes.now)) }
        ensures query { self.new.query ≡ self.old.query }
        ensures gives { (file_length : ℕ) (w : WalkState) (tiles : KeptTiles) → IsKeptOf w kept.now
            → IsState file_length w kept.now self.old.state → Gives file_length (B.bytes bytes.now) self.old.query
            (record { walk = w; kept = kept.now; tiles = tiles; state = self.old.state })
            (record { walk = w; kept = kept.now; tiles = tiles; state = self.new.state }) }
    {
        let State::Tiles(builder) = &mut self.state else {
            unreachable!()
        };
        tiles::paint(kept, builder, bytes);
    }

    /// Takes the bytes of packed tiles. Where they have a fault, this answers the query.
    pub fn unpack<B: Bytes>(
        &mut self,
        kept: &KeptArrays,
        tile_cache: &mut TileCache,
        bytes: &B,
        room: &mut [u8],
    )
        requires tiles { AreTiles (λ c. is_packed c ≡ true) kept.now self.old.state (length (B.bytes bytes.now)) }
        requires room { B.room_needed bytes.now ≤ length room.old }
        ensures query { self.new.query ≡ self.old.query }
        ensures gives { (file_length : ℕ) (w : WalkState) → IsKeptOf w kept.now → IsState file_length w kept.now self.old.state
            → Gives file_length (B.bytes bytes.now) self.old.query
            (record { walk = w; kept = kept.now; tiles = tile_cache.old; state = self.old.state })
            (record { walk = w; kept = kept.now; tiles = tile_cache.new; state = self.new.state }) }
    {
        let State::Tiles(builder) = &mut self.state else {
            unreachable!()
        };
        match tiles::unpack(kept, builder, tile_cache, bytes, room) {
            Some(fault) => self.state = State::Answered(Outcome::Fault(fault)),
            None => {}
        }
    }
}

/// Returns the bytes of a field's values, or `None` if they end after a file of `file_length` bytes.
fn span_of(place: Place, file_length: u64) -> Option<Span>
    requires { 0 < place.len }
    ensures { MatchOption result (file_length < place.first + place.len)
        (λ span. (extent_of_span span ≡ extent_of_place place) × (place.first + place.len ≤ file_length)) }
{
    if place.len > file_length || place.first > file_length - place.len {
        return None;
    }
    Some(Span {
        first: place.first,
        last: place.first + place.len - 1,
    })
}
