//! One query answered from one file, which is given range by range.
use crate::Outcome;
use crate::kept_arrays::KeptArrays;
use crate::state::{FileView, PendingQuery, State};
use extents::{Memory, Span};
use std::alloc::Global;
use std::marker::Model;
use tiff_dir::{Compression, Level, Query, Walk};
use tile_plan::{Bytes, TileCache};

/// A reader of one TIFF file of a known length. It answers one query after another. It returns the bytes that it needs
/// next, and is given them, until the query is answered. From one query to the next it keeps the directories, and the
/// tile arrays of the level that was read last. It keeps unpacked tiles too, where `keeping` made it.
pub struct Reader {
    alloc: Global,
    file_length: u64,
    walk: Walk,
    kept: KeptArrays,
    tile_cache: TileCache,
    pending: Option<PendingQuery>,
}

// Written out, the drop is one call in each place where a reader is dropped. Derived, each place would be proved field
// by field.
impl Drop for Reader {
    fn drop(self) {
        let Reader {
            alloc: _,
            file_length: _,
            walk: _,
            kept: _,
            tile_cache: _,
            pending: _,
        } = self;
    }
}

impl Model for Reader {
    ghost use Rattle.cog_reader.specs.Reader.{ReaderState, IsReader};

    ghost Value = { ReaderState };

    ghost view = { λ r. record { file_length = r.file_length; walk = r.walk; kept = r.kept; tiles = r.tile_cache; pending = r.pending } };

    ghost invariant = { λ r. IsReader r.file_length r.walk r.kept r.pending };
}

#[tactic(auto, unfolding(crate::specs::Reader::wanted, crate::specs::Reader::tiles_wanted, crate::specs::Reader::outcome_of, crate::specs::Reader::query_of, crate::specs::Reader::file_length_of, crate::specs::Reader::to_come, crate::specs::Reader::unread, crate::specs::Reader::upcoming, crate::specs::Reader::steps_of, crate::specs::Reader::tiles_of, crate::specs::Reader::AreDirectoriesRead, crate::specs::Reader::ReaderAgrees))]
impl Reader {
    ghost use Rattle.std.specs.Prelude.{◌≡◌, ◌+◌, ◌<◌, ◌≤◌, true, ℕ, List, [], None, Some, IfOk, IfSome, IsOk, IsSome, IsSomeAnd, MatchOption, OnErr, OnOk, length, slice_get, ◌⊎◌};
    ghost use Rattle.tiff_dir.specs.declared.level.Compression.TheVariants.{Plain};
    ghost use Rattle.tiff_dir.specs.Described.{AreLevels};
    ghost use Rattle.extents.specs.Extent.{extent_of_span};
    ghost use Rattle.tiff_dir.specs.declared.query.Query.{Query};
    ghost use Rattle.cog_reader.specs.Outcome.{IsTrueOf};
    ghost use Rattle.cog_reader.specs.Going.{known_at};
    ghost use Rattle.cog_reader.specs.Reader.{file_length_of, outcome_of, query_of, steps_of, tiles_of, tiles_wanted, to_come, unread, wanted, AreDirectoriesRead, ReaderAgrees, IsNext, IsUpcoming, IsWanted, Takes, Wants};
    ghost use Rattle.tiff_dir.specs.Window.{is_packed};
    ghost use Rattle.tile_plan.specs.TileCache.{size_of_tiles};

    /// Makes a reader of a file of `file_length` bytes. Nothing is known of the file yet, and nothing is asked. It
    /// allocates nothing.
    ///
    /// ```
    /// let mut reader = Reader::new(rt.alloc(), file.len() as u64);
    /// reader.open(Query::Info);
    /// while let Some(span) = reader.need()? {
    ///     reader.give(&file[span.first as usize..=span.last as usize])?;
    /// }
    /// let outcome = reader.outcome();
    /// ```
    pub fn new(alloc: Global, file_length: u64) -> Reader
        ensures agrees { (f : List ℕ) → length f ≡ file_length → ReaderAgrees result f }
        ensures tiles { tiles_of result ≡ record { most = 0; tiles = [] } }
        ensures file_length { file_length_of result ≡ file_length }
        ensures query { query_of result ≡ None }
        ensures outcome { outcome_of result ≡ None }
    {
        Reader::keeping(alloc, file_length, 0)
    }

    /// Makes a reader as `new` does, which keeps the unpacked tiles that were used last from one window to the next.
    /// All of them have at most `bytes` bytes together. A tile for which there is no memory is unpacked again. It
    /// allocates nothing.
    pub fn keeping(alloc: Global, file_length: u64, bytes: usize) -> Reader
        ensures agrees { (f : List ℕ) → length f ≡ file_length → ReaderAgrees result f }
        ensures tiles { tiles_of result ≡ record { most = bytes; tiles = [] } }
        ensures file_length { file_length_of result ≡ file_length }
        ensures query { query_of result ≡ None }
        ensures outcome { outcome_of result ≡ None }
    {
        Reader {
            alloc,
            file_length,
            walk: Walk::new(alloc),
            kept: KeptArrays::Nothing,
            tile_cache: TileCache::new(alloc, bytes),
            pending: None,
        }
    }

    /// Does nothing: its contract says that the tiles that are kept have together no more bytes than they may.
    pub fn no_more_is_kept(&self)
        ensures { size_of_tiles (tiles_of self.now).tiles ≤ (tiles_of self.now).most }
    {
        self.tile_cache.no_more_is_kept();
    }

    /// Does nothing: its contract says that at most 65,537 ranges are known at a time, the next one and 65,536 later
    /// ones.
    pub(crate) fn few_are_known(&self)
        ensures { (index : ℕ) → 65536 < index → known_at self.now index ≡ None }
    {
        let _length = self.file_length;
    }

    /// Asks `query` instead of the one before, whose state is dropped. It allocates nothing.
    pub fn open(&mut self, query: Query)
        ensures agrees { (f : List ℕ) → ReaderAgrees self.old f → ReaderAgrees self.new f }
        // What the query needs is to come, but for the directories and the arrays that are held. These stay, and so do
        // the tiles.
        ensures come { (f : List ℕ) → to_come self.new f ≡ unread self.old f query }
        ensures held { (f : List ℕ) (q : Query) → unread self.new f q ≡ unread self.old f q }
        ensures tiles { tiles_of self.new ≡ tiles_of self.old }
        ensures file_length { file_length_of self.new ≡ file_length_of self.old }
        ensures query { query_of self.new ≡ Some query }
        ensures outcome { outcome_of self.new ≡ None }
    {
        self.pending = Some(PendingQuery {
            query,
            state: State::Directories,
        });
    }

    /// Goes on as far as what is held allows, and returns the byte range that is needed next. It has at most 1,048,576
    /// bytes, which end in the file. Returns `None` where the query is answered, or none is asked. Fails with `Memory`
    /// alone, and then leaves the reader as it was.
    pub fn need(&mut self) -> Result<Option<Span>, Memory>
        ensures wants { IfOk result (Wants self.new) }
        // It is the first of the ranges that are still to come.
        ensures first { IfOk result (λ o. IfSome o (λ span. (f : List ℕ) → ReaderAgrees self.new f
            → slice_get (to_come self.new f) 0 ≡ Some (extent_of_span span))) }
        ensures agrees { (f : List ℕ) → ReaderAgrees self.old f → ReaderAgrees self.new f }
        // Unless the query is answered, the same ranges are still to come.
        ensures come { OnOk result ((f : List ℕ) → ReaderAgrees self.old f → outcome_of self.new ≡ None
            → to_come self.new f ≡ to_come self.old f) }
        // What is held of the file stays: no query needs more of it than before.
        ensures held { (f : List ℕ) (q : Query) → unread self.new f q ≡ unread self.old f q }
        ensures tiles { tiles_of self.new ≡ tiles_of self.old }
        // Where nothing is asked, or an outcome stands, it doesn't fail, and nothing changes.
        ensures idle { query_of self.old ≡ None ⊎ IsSome (outcome_of self.old) → IsOk result × (self.new ≡ self.old) }
        ensures steps { steps_of self.new ≤ steps_of self.old }
        ensures file_length { file_length_of self.new ≡ file_length_of self.old }
        ensures query { query_of self.new ≡ query_of self.old }
        ensures err { OnErr result (self.new ≡ self.old) }
    {
        let Some(pending) = &mut self.pending else {
            return Ok(None);
        };
        let file = FileView {
            alloc: self.alloc,
            file_length: self.file_length,
            walk: &self.walk,
            kept: &self.kept,
        };
        pending.need(&file, &mut self.tile_cache)
    }

    /// Returns the length of the file in bytes.
    pub fn file_length(&self) -> u64
        ensures { result ≡ file_length_of self.now }
    {
        self.file_length
    }

    /// Returns the view of the file that a query goes by.
    fn file(&self) -> FileView<'_>
        ensures length { result.file_length ≡ self.now.file_length }
        ensures walk { result.walk.now ≡ self.now.walk }
        ensures kept { result.kept.now ≡ self.now.kept }
    {
        FileView {
            alloc: self.alloc,
            file_length: self.file_length,
            walk: &self.walk,
            kept: &self.kept,
        }
    }

    /// Returns the byte range that is needed next, as far as it is known before `need` goes on. Returns `None` where it
    /// isn't known, or ends after the file. It allocates nothing.
    pub fn wanted(&self) -> Option<Span>
        ensures known { IsNext self.now result }
        // It is the first of the ranges that are still to come.
        ensures comes { (f : List ℕ) → ReaderAgrees self.now f
            → IfSome result (λ span. slice_get (to_come self.now f) 0 ≡ Some (extent_of_span span)) }
    {
        let pending = self.pending.as_ref()?;
        pending.wanted(&self.file())
    }

    /// Returns the byte range that is needed after the next one and `index` more. It is the other array of a level, a
    /// later group of a window, or a later geo field. Returns `None` where it isn't known, or ends after the file. It
    /// allocates nothing.
    pub fn upcoming(&self, index: u32) -> Option<Span>
        ensures known { IsUpcoming self.now index result }
        // It stands at this place among the ranges that are still to come.
        ensures comes { (f : List ℕ) → ReaderAgrees self.now f
            → IfSome result (λ span. slice_get (to_come self.now f) (index + 1) ≡ Some (extent_of_span span)) }
    {
        let pending = self.pending.as_ref()?;
        pending.upcoming(&self.file(), index)
    }

    /// Takes all bytes of the range that is needed next. Fails with `Memory` alone, and then leaves the reader as it
    /// was. It never fails where tiles are needed.
    pub fn give(&mut self, bytes: &[u8]) -> Result<(), Memory>
        requires { IsWanted self.old (length bytes.now) }
        ensures takes { OnOk result (Takes bytes.now self.old self.new) }
        ensures tiles { IsSome (tiles_wanted self.old) → IsOk result }
        ensures err { OnErr result (self.new ≡ self.old) }
    {
        let Some(pending) = &mut self.pending else {
            unreachable!()
        };
        pending.give(
            self.alloc,
            &mut self.walk,
            &mut self.kept,
            &mut self.tile_cache,
            bytes,
        )?;
        Ok(())
    }

    /// Returns how the tiles are stored that are needed next. `paint` can take plain ones, and `unpack` packed ones.
    /// Returns `None` where no tiles are needed. It allocates nothing.
    pub fn tiles_wanted(&self) -> Option<Compression>
        ensures { result ≡ tiles_wanted self.now }
    {
        let pending = self.pending.as_ref()?;
        pending.tiles_wanted(&self.kept)
    }

    /// Takes the range that is needed next, of plain tiles, as `give` does. It copies no more of its bytes than the
    /// window has. It allocates nothing.
    pub fn paint<B: Bytes>(&mut self, bytes: &B)
        requires plain { tiles_wanted self.old ≡ Some Plain }
        requires wanted { IsWanted self.old (length (B.bytes bytes.now)) }
        ensures takes { Takes (B.bytes bytes.now) self.old self.new }
        ensures tiles { tiles_of self.new ≡ tiles_of self.old }
    {
        let Some(pending) = &mut self.pending else {
            unreachable!()
        };
        pending.paint(&self.kept, bytes);
    }

    /// Takes the range that is needed next, of packed tiles, as `give` does. A tile that is kept is copied, and not
    /// unpacked again. The bytes of another tile are put in one piece in `room`, where they stand in several. `room` is
    /// at least as long as `Bytes` says. It never fails.
    pub fn unpack<B: Bytes>(&mut self, bytes: &B, room: &mut [u8])
        requires packed { IsSomeAnd (tiles_wanted self.old) (λ c. is_packed c ≡ true) }
        requires wanted { IsWanted self.old (length (B.bytes bytes.now)) }
        requires room { B.room_needed bytes.now ≤ length room.old }
        ensures { Takes (B.bytes bytes.now) self.old self.new }
    {
        let Some(pending) = &mut self.pending else {
            unreachable!()
        };
        pending.unpack(&self.kept, &mut self.tile_cache, bytes, room);
    }

    /// Returns what answers the query: a window, what Info says, or a fault. Returns `None` where it isn't answered.
    pub fn outcome(&self) -> Option<&Outcome>
        ensures outcome { MatchOption result (outcome_of self.now ≡ None) (λ o. outcome_of self.now ≡ Some o.now) }
        ensures true_of { (f : List ℕ) → ReaderAgrees self.now f
            → IfSome result (λ o. IsSomeAnd (query_of self.now) (λ q. IsTrueOf f q o.now)) }
    {
        match &self.pending {
            Some(
                PendingQuery {
                    state: State::Answered(outcome),
                    ..
                },
            ) => Some(outcome),
            _ => None,
        }
    }

    /// Returns the levels of the file, the largest first. Returns `None` unless its directories are read. It allocates
    /// nothing.
    pub fn levels(&self) -> Option<&[Level]>
        ensures known { MatchOption result (¬ AreDirectoriesRead self.now) (λ _. AreDirectoriesRead self.now) }
        ensures levels { (f : List ℕ) → ReaderAgrees self.now f → IfSome result (λ levels. AreLevels f levels.now) }
    {
        match self.walk.need(self.file_length) {
            Ok(None) => Some(self.walk.levels()),
            Ok(Some(_)) | Err(_) => None,
        }
    }

    /// Moves the answer out of the reader, which has no query then. Returns `None` where the query isn't answered, and
    /// then leaves the reader as it is. It allocates nothing.
    pub fn take_outcome(&mut self) -> Option<Outcome>
        ensures outcome { result ≡ outcome_of self.old }
        ensures true_of { (f : List ℕ) → ReaderAgrees self.old f
            → IfSome result (λ o. IsSomeAnd (query_of self.old) (λ q. IsTrueOf f q o)) }
        // No outcome is left, and with it the query is dropped.
        ensures left { outcome_of self.new ≡ None }
        ensures query { IsSome result → query_of self.new ≡ None }
        // What is held of the file stays.
        ensures agrees { (f : List ℕ) → ReaderAgrees self.old f → ReaderAgrees self.new f }
        ensures held { (f : List ℕ) (q : Query) → unread self.new f q ≡ unread self.old f q }
        ensures tiles { tiles_of self.new ≡ tiles_of self.old }
        ensures file_length { file_length_of self.new ≡ file_length_of self.old }
        ensures none { result ≡ None → self.new ≡ self.old }
    {
        let PendingQuery { query, state } = self.pending.take()?;
        match state {
            State::Answered(outcome) => Some(outcome),
            state => {
                self.pending = Some(PendingQuery { query, state });
                None
            }
        }
    }
}
