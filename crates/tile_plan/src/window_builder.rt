//! A window, put together from its tiles as their groups come.
ghost use Rattle.std.specs.Prelude.{◌≡◌, ◌+◌, ◌≤◌, ◌++◌, true, ℕ, List, IfErr, OnOk, length};
ghost use Rattle.std.specs.List.{All};
ghost use Rattle.tiff_dir.specs.declared.level.Compression.TheVariants.{Plain};
ghost use Rattle.tiff_dir.specs.Described.{layout_of};
ghost use Rattle.tiff_dir.specs.Level.{plain_size};
ghost use Rattle.tiff_dir.specs.Window.{is_packed};
ghost use Rattle.tile_plan.specs.Plan.{Adjoin};
ghost use Rattle.tile_plan.specs.WindowBuilder.{tile_extent, IsPainted, AreArraysOf, IsWhole, AreBytesOf, HasDamage};
ghost use Rattle.tile_plan.specs.TileCache.{AreTilesOf};

use crate::arrays::Arrays;
use crate::paint::paint_packed;
use crate::samples::big_first;
use crate::tile_cache::TileCache;
use crate::{Bytes, Canvas, Group, Part, PlanError, Rectangle, Slice, groups, law_tiles_cover};
use extents::Span;
use std::alloc::Global;
use std::marker::Model;
use tiff_dir::{Compression, FileFault};

/// Copies packed tiles that follow each other without a gap onto the canvas, from their bytes. `plain` has room for a
/// tile, and `room` for what stands in several pieces. Fails with the fault of a tile's bytes.
fn unpack_parts<B: Bytes>(
    canvas: &mut Canvas,
    arrays: &Arrays,
    tiles: &[u32],
    bytes: &B,
    room: &mut [u8],
    plain: &mut Vec<u8>,
    tile_cache: &mut TileCache,
) -> Result<(), FileFault>
    requires level { canvas.old.level ≡ arrays.now.level }
    requires packed { is_packed arrays.now.level.compression ≡ true }
    requires whole { IsWhole arrays.now tiles.now (length (B.bytes bytes.now)) }
    requires room { B.room_needed bytes.now ≤ length room.old }
    requires plain { length plain.old.items ≡ plain_size (layout_of arrays.now.level) }
    ensures level { canvas.new.level ≡ canvas.old.level }
    ensures rectangle { canvas.new.rectangle ≡ canvas.old.rectangle }
    ensures size { length canvas.new.bytes ≡ length canvas.old.bytes }
    ensures plain { length plain.new.items ≡ length plain.old.items }
    ensures painted { (f : List ℕ) (n first : ℕ) (done : List ℕ) → AreArraysOf f n arrays.now → AreBytesOf f first (B.bytes bytes.now)
        → Adjoin (tile_extent arrays.now) first tiles.now (first + length (B.bytes bytes.now)) → AreTilesOf f tile_cache.old
        → All (IsPainted f n canvas.old) done → OnOk result (All (IsPainted f n canvas.new) (done ++ tiles.now)) }
    ensures kept { (f : List ℕ) (n first : ℕ) → AreArraysOf f n arrays.now → AreBytesOf f first (B.bytes bytes.now)
        → Adjoin (tile_extent arrays.now) first tiles.now (first + length (B.bytes bytes.now)) → AreTilesOf f tile_cache.old
        → AreTilesOf f tile_cache.new }
    ensures most { tile_cache.new.most ≡ tile_cache.old.most }
    ensures damaged { (f : List ℕ) (n first : ℕ) → AreArraysOf f n arrays.now → AreBytesOf f first (B.bytes bytes.now)
        → Adjoin (tile_extent arrays.now) first tiles.now (first + length (B.bytes bytes.now))
        → IfErr result (HasDamage f n arrays.now.level tiles.now) }
{
    // The length is read for its bound alone.
    let _len = bytes.len();
    let mut at = 0;
    for tile in tiles {
        let (first, len) = arrays.place_of(*tile);
        paint_packed(
            canvas,
            *tile,
            first,
            &Part::new(bytes, at, len),
            room,
            plain,
            tile_cache,
        )?;
        at += len;
    }
    Ok(())
}

/// Copies plain tiles that follow each other without a gap onto the canvas, from their bytes.
fn paint_parts<B: Bytes>(canvas: &mut Canvas, arrays: &Arrays, tiles: &[u32], bytes: &B)
    requires level { canvas.old.level ≡ arrays.now.level }
    requires plain { arrays.now.level.compression ≡ Plain }
    requires whole { IsWhole arrays.now tiles.now (length (B.bytes bytes.now)) }
    ensures level { canvas.new.level ≡ canvas.old.level }
    ensures rectangle { canvas.new.rectangle ≡ canvas.old.rectangle }
    ensures size { length canvas.new.bytes ≡ length canvas.old.bytes }
    ensures painted { (f : List ℕ) (n first : ℕ) (done : List ℕ) → AreArraysOf f n arrays.now → AreBytesOf f first (B.bytes bytes.now)
        → Adjoin (tile_extent arrays.now) first tiles.now (first + length (B.bytes bytes.now)) → All (IsPainted f n canvas.old) done
        → All (IsPainted f n canvas.new) (done ++ tiles.now) }
{
    // The length is read for its bound alone.
    let _len = bytes.len();
    let mut at = 0;
    for tile in tiles {
        let (_, len) = arrays.place_of(*tile);
        canvas.blit(*tile, &Part::new(bytes, at, len));
        at += len;
    }
}

/// A window of a level, put together from its tiles as their groups come.
pub struct WindowBuilder {
    rect: Rectangle,
    groups: Vec<Group>,
    given: usize,
    canvas: Canvas,
    plain: Vec<u8>,
}

// Written out, the drop is one call in each place where a builder is dropped. Derived, each place would be proved field
// by field.
impl Drop for WindowBuilder {
    fn drop(self) {
        let WindowBuilder {
            rect: _,
            groups: _,
            given: _,
            canvas: _,
            plain: _,
        } = self;
    }
}

impl Model for WindowBuilder {
    ghost use Rattle.std.specs.Prelude.{◌≡◌, ◌≤◌, true, length};
    ghost use Rattle.tiff_dir.specs.Described.{layout_of};
    ghost use Rattle.tiff_dir.specs.Level.{plain_size};
    ghost use Rattle.tiff_dir.specs.Window.{is_packed};
    ghost use Rattle.tile_plan.specs.WindowBuilder.{WindowState};

    ghost Value = { WindowState };

    ghost view = { λ m. record { groups = m.groups.items; given = m.given; picture = m.canvas } };

    ghost invariant = { λ m. (m.rect ≡ m.canvas.rectangle) × (m.given ≤ length m.groups.items)
        × (is_packed m.canvas.level.compression ≡ true → length m.plain.items ≡ plain_size (layout_of m.canvas.level)) };
}

impl WindowBuilder {
    ghost use Rattle.std.specs.Prelude.{◌≡◌, ◌+◌, ◌≤◌, true, ℕ, List, IfOk, IfErr, OnOk, MatchOption, None, Some, slice_get, IsSomeAnd, length};
    ghost use Rattle.tiff_dir.specs.declared.level.Compression.TheVariants.{Plain};
    ghost use Rattle.tiff_dir.specs.declared.query.Query.{Query};
    ghost use Rattle.tiff_dir.specs.Faulty.{IsFaultOfWindow};
    ghost use Rattle.tiff_dir.specs.Window.{is_packed, HasSamples};
    ghost use Rattle.tile_plan.specs.Levels.{IsSmall, rectangle_of};
    ghost use Rattle.tile_plan.specs.Samples.{samples_in};
    ghost use Rattle.tile_plan.specs.Plan.{IsPlanned, IsErrorOf};
    ghost use Rattle.tile_plan.specs.WindowBuilder.{HasPlan, IsPlan, IsUnderway, IsGroupLen, IsWantedGroup};
    ghost use Rattle.tile_plan.specs.TileCache.{AreTilesOf};

    /// Plans the window of `rect` in a file of `file_length` bytes. No group of it is there yet. The rectangle lies in
    /// the level of `arrays`, and has at most 4,194,304 samples. Unpacked tiles stay in the cache, which lends a buffer
    /// for one tile. Fails with the fault of a tile whose byte count is wrong or which ends after the file, or with
    /// `Memory`.
    pub fn new(
        alloc: Global,
        arrays: &Arrays,
        tile_cache: &mut TileCache,
        rect: Rectangle,
        file_length: u64,
    ) -> Result<WindowBuilder, PlanError>
        requires { IsSmall arrays.now.level rect }
        ensures same { tile_cache.new ≡ tile_cache.old }
        ensures plan { IfOk result (IsPlan file_length arrays.now) }
        ensures none { IfOk result (λ w. (w.given ≡ 0) × (w.picture.rectangle ≡ rect)) }
        ensures underway { (f : List ℕ) (q : Query) → length f ≡ file_length
            → IsPlanned f q arrays.now.order arrays.now.level rect file_length arrays.now.offsets.items arrays.now.counts.items
            → IfOk result (IsUnderway f q arrays.now) }
        ensures refused { (f : List ℕ) (q : Query) → length f ≡ file_length
            → IsPlanned f q arrays.now.order arrays.now.level rect file_length arrays.now.offsets.items arrays.now.counts.items
            → IfErr result (IsErrorOf f q) }
    {
        let level = &arrays.level;
        let groups = groups(
            alloc,
            arrays.order,
            level,
            rect,
            file_length,
            &arrays.offsets,
            &arrays.counts,
        )?;
        let canvas = Canvas::new(alloc, level, rect)?;
        let plain = match level.compression {
            Compression::Plain => Vec::new(alloc),
            Compression::Packed(_) => tile_cache.take_room(level.plain_size())?,
        };
        Ok(WindowBuilder {
            rect,
            groups,
            given: 0,
            canvas,
            plain,
        })
    }

    /// Returns the rectangle whose window it is.
    pub fn rectangle(&self) -> Rectangle
        ensures { result ≡ self.now.picture.rectangle }
    {
        self.rect
    }

    /// Returns the bytes of the next group, or `None` where all were given.
    pub fn need(&self) -> Option<Span>
        ensures { MatchOption result (self.now.given ≡ length self.now.groups)
            (λ span. IsSomeAnd (slice_get self.now.groups self.now.given) (λ g. g.span ≡ span)) }
    {
        let group = self.groups.get(self.given)?;
        Some(group.span)
    }

    /// Returns the bytes of the group after the next one and `index` more, or `None`.
    pub fn upcoming(&self, index: u32) -> Option<Span>
        ensures { let group = slice_get self.now.groups (self.now.given + 1 + index) in
            MatchOption result (group ≡ None) (λ span. IsSomeAnd group (λ g. g.span ≡ span)) }
    {
        let rest = &self.groups[self.given..];
        let group = rest.get(index as usize + 1)?;
        Some(group.span)
    }

    /// Takes the bytes of the next group. Fails with the fault that they have. Then the builder is of no use.
    pub fn give(
        &mut self,
        arrays: &Arrays,
        tile_cache: &mut TileCache,
        bytes: &[u8],
    ) -> Result<(), FileFault>
        requires plan { HasPlan arrays.now self.old }
        requires wanted { IsGroupLen self.old (length bytes.now) }
        ensures plan { (file_length : ℕ) → IsPlan file_length arrays.now self.old → IsPlan file_length arrays.now self.new }
        ensures given { OnOk result ((self.new.groups ≡ self.old.groups) × (self.new.given ≡ self.old.given + 1)) }
        ensures underway { (f : List ℕ) (q : Query) → IsUnderway f q arrays.now self.old → IsWantedGroup f self.old bytes.now
            → AreTilesOf f tile_cache.old → OnOk result (IsUnderway f q arrays.now self.new) }
        ensures kept { (f : List ℕ) (q : Query) → IsUnderway f q arrays.now self.old → IsWantedGroup f self.old bytes.now
            → AreTilesOf f tile_cache.old → AreTilesOf f tile_cache.new }
        ensures most { tile_cache.new.most ≡ tile_cache.old.most }
        ensures damaged { (f : List ℕ) (q : Query) → IsUnderway f q arrays.now self.old → IsWantedGroup f self.old bytes.now
            → IfErr result (IsFaultOfWindow f q) }
    {
        match arrays.level.compression {
            Compression::Plain => {
                self.paint(arrays, &Slice(bytes));
                Ok(())
            }
            Compression::Packed(_) => self.unpack(arrays, tile_cache, &Slice(bytes), &mut []),
        }
    }

    /// Takes the next group, of packed tiles, from its bytes. `room` has room for what stands in several pieces. Fails
    /// with the fault that they have. Then the builder is of no use.
    pub fn unpack<B: Bytes>(
        &mut self,
        arrays: &Arrays,
        tile_cache: &mut TileCache,
        bytes: &B,
        room: &mut [u8],
    ) -> Result<(), FileFault>
        requires plan { HasPlan arrays.now self.old }
        requires packed { is_packed arrays.now.level.compression ≡ true }
        requires wanted { IsGroupLen self.old (length (B.bytes bytes.now)) }
        requires room { B.room_needed bytes.now ≤ length room.old }
        ensures plan { (file_length : ℕ) → IsPlan file_length arrays.now self.old → IsPlan file_length arrays.now self.new }
        ensures given { OnOk result ((self.new.groups ≡ self.old.groups) × (self.new.given ≡ self.old.given + 1)) }
        ensures underway { (f : List ℕ) (q : Query) → IsUnderway f q arrays.now self.old → IsWantedGroup f self.old (B.bytes bytes.now)
            → AreTilesOf f tile_cache.old → OnOk result (IsUnderway f q arrays.now self.new) }
        ensures kept { (f : List ℕ) (q : Query) → IsUnderway f q arrays.now self.old → IsWantedGroup f self.old (B.bytes bytes.now)
            → AreTilesOf f tile_cache.old → AreTilesOf f tile_cache.new }
        ensures most { tile_cache.new.most ≡ tile_cache.old.most }
        ensures damaged { (f : List ℕ) (q : Query) → IsUnderway f q arrays.now self.old → IsWantedGroup f self.old (B.bytes bytes.now)
            → IfErr result (IsFaultOfWindow f q) }
    {
        let Some(group) = self.groups.get(self.given) else {
            unreachable!()
        };
        unpack_parts(
            &mut self.canvas,
            arrays,
            &group.tiles,
            bytes,
            room,
            &mut self.plain,
            tile_cache,
        )?;
        self.given += 1;
        Ok(())
    }

    /// Takes the next group, of plain tiles, from its bytes.
    pub fn paint<B: Bytes>(&mut self, arrays: &Arrays, bytes: &B)
        requires plan { HasPlan arrays.now self.old }
        requires plain { arrays.now.level.compression ≡ Plain }
        requires wanted { IsGroupLen self.old (length (B.bytes bytes.now)) }
        ensures plan { (file_length : ℕ) → IsPlan file_length arrays.now self.old → IsPlan file_length arrays.now self.new }
        ensures given { (self.new.groups ≡ self.old.groups) × (self.new.given ≡ self.old.given + 1) }
        ensures underway { (f : List ℕ) (q : Query) → IsUnderway f q arrays.now self.old → IsWantedGroup f self.old (B.bytes bytes.now)
            → IsUnderway f q arrays.now self.new }
    {
        let Some(group) = self.groups.get(self.given) else {
            unreachable!()
        };
        paint_parts(&mut self.canvas, arrays, &group.tiles, bytes);
        self.given += 1;
    }

    /// Returns the bytes of the window's samples after all groups were given. They stand row by row, each sample with
    /// its most significant byte first. Unpacked tiles stay in the cache, which gets back the buffer for one tile.
    pub fn into_pixels(self, arrays: &Arrays, tile_cache: &mut TileCache) -> Vec<u8>
        ensures same { tile_cache.new ≡ tile_cache.old }
        ensures size { (f : List ℕ) (q : Query) → IsUnderway f q arrays.now self → length result.items ≡ length self.picture.bytes }
        ensures samples { (f : List ℕ) (q : Query) → IsUnderway f q arrays.now self → self.given ≡ length self.groups
            → HasSamples f (rectangle_of self.picture.rectangle) (samples_in arrays.now.level.bits result.items) }
    {
        law_tiles_cover();
        let WindowBuilder {
            rect: _,
            groups: _,
            given: _,
            canvas,
            plain,
        } = self;
        tile_cache.give_room(plain);
        let mut bytes = canvas.into_data();
        big_first(arrays.order, arrays.level.bits, &mut bytes);
        bytes
    }
}
