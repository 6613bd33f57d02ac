//! The groups of a window's tiles. Tiles that follow each other in the file without a gap are read by one range.
ghost use Rattle.std.specs.Prelude.{◌≡◌, ℕ, ◌<◌, List, true, false, Some, IfOk, IfErr, OnOk, IsTrue, map, length};
ghost use Rattle.tiff_dir.specs.declared.query.Query.{Query};
ghost use Rattle.tiff_dir.specs.declared.fault.FileFault.{FileFault as Fault};
ghost use Rattle.tiff_dir.specs.Described.{grid_of, layout_of};
ghost use Rattle.tiff_dir.specs.Level.{level_layout, plain_size, tile_total};
ghost use Rattle.tiff_dir.specs.Query.{joins};
ghost use Rattle.tiff_dir.specs.File.{order_of};
ghost use Rattle.extents.specs.Extent.{extent_of_span};
ghost use Rattle.tiff_dir.specs.Walk.{IsArrayOf};
ghost use Rattle.tile_plan.specs.Levels.{is_inside};
ghost use Rattle.tile_plan.specs.Plan.{range_in, group_of, IsRangeOf, IsWrongSize, IsTileFault, AreGroups, IsPlanError, IsPlanned, AreNeeded, IsErrorOf};
ghost use Rattle.tile_plan.specs.Groups.{with_tile, alone};
ghost use Rattle.tile_plan.specs.Adding.{added};

use crate::Rectangle;
use crate::block::Block;
use extents::{MAX_RANGE_BYTES, Span};
use std::alloc::Global;
use tiff_dir::limits::MAX_TILE_BYTES;
use tiff_dir::{Compression, FileFault, Level, Order, WalkError as PlanError, tile_of};

/// Tiles that follow each other in the file without a gap, and the bytes that they have together.
#[derive(Debug, Drop, PartialEq, Eq)]
pub struct Group {
    /// The numbers of the tiles, ascending.
    pub tiles: Vec<u32>,
    /// The bytes of all tiles.
    pub span: Span,
}

impl Group {
    fn alone(alloc: Global, tile: u32, span: Span) -> Result<Group, extents::Memory>
        ensures { IfOk result (λ g. group_of g ≡ alone tile (extent_of_span span)) }
    {
        let mut tiles = Vec::new(alloc);
        tiles.push(tile)?;
        Ok(Group { tiles, span })
    }

    /// Returns whether `span` begins where the group ends, and the group with it has at most 1,048,576 bytes.
    fn joins(&self, span: Span) -> bool
        ensures { result ≡ joins (extent_of_span self.now.span) (extent_of_span span) }
    {
        span.first > self.span.last
            && span.first - self.span.last == 1
            && span.last - self.span.first < MAX_RANGE_BYTES
    }

    fn add(&mut self, tile: u32, span: Span) -> Result<(), extents::Memory>
        requires { joins (extent_of_span self.old.span) (extent_of_span span) ≡ true }
        ensures { OnOk result (group_of self.new ≡ with_tile (group_of self.old) tile (extent_of_span span)) }
    {
        self.tiles.push(tile)?;
        self.span = Span {
            first: self.span.first,
            last: span.last,
        };
        Ok(())
    }
}

/// Adds a tile to the last group, or as a group of its own.
fn add_tile(
    alloc: Global,
    groups: &mut Vec<Group>,
    tile: u32,
    span: Span,
) -> Result<(), extents::Memory>
    ensures { OnOk result (map group_of groups.new.items ≡ added (map group_of groups.old.items) tile (extent_of_span span)) }
{
    match groups.last_mut() {
        Some(group) if group.joins(span) => group.add(tile, span),
        _ => {
            groups.push(Group::alone(alloc, tile, span)?)?;
            Ok(())
        }
    }
}

/// Returns whether a tile of the level may have `len` bytes.
fn is_right_size(level: &Level, len: u64) -> bool
    ensures right { IsTrue result → IsWrongSize level.now len → ⊥ }
    ensures wrong { result ≡ false → IsWrongSize level.now len }
{
    let fits = match level.compression {
        Compression::Plain => len == level.plain_size() as u64,
        Compression::Packed(_) => true,
    };
    0 < len && len <= MAX_TILE_BYTES && fits
}

/// Returns the bytes of `tile` in a file of `file_length` bytes. Fails with `TileSize` or `PastEnd`, as `groups` does.
fn tile_span(
    order: Order,
    level: &Level,
    tile: u32,
    file_length: u64,
    offsets: &[u8],
    counts: &[u8],
) -> Result<Span, FileFault>
    requires tile { tile < tile_total (grid_of level.now) }
    requires offsets { length offsets.now ≡ level.now.offsets.len }
    requires counts { length counts.now ≡ level.now.counts.len }
    ensures range { IfOk result (λ s. extent_of_span s ≡ range_in order level.now offsets.now counts.now tile) }
    ensures sound { IfOk result (λ _. (fault : Fault)
        → IsTileFault level.now file_length (range_in order level.now offsets.now counts.now tile) fault → ⊥) }
    ensures refused { IfErr result (IsTileFault level.now file_length (range_in order level.now offsets.now counts.now tile)) }
    ensures values { (f : List ℕ) (n : ℕ) → order_of f ≡ Some order → level_layout f n ≡ Some (layout_of level.now)
        → IsArrayOf f level.now.offsets offsets.now
        → IsArrayOf f level.now.counts counts.now → IsRangeOf f n tile (range_in order level.now offsets.now counts.now tile) }
{
    let (first, len) = tile_of(order, level, tile, offsets, counts);
    let first = u64::from(first);
    let len = u64::from(len);
    if !is_right_size(level, len) {
        return Err(FileFault::TileSize);
    }
    if first + len > file_length {
        return Err(FileFault::PastEnd);
    }
    Ok(Span {
        first,
        last: first + len - 1,
    })
}

/// Returns the groups of the tiles of `level` that have a pixel of `rect`. A tile that begins where the one before ends
/// joins its group. A group has at most 1,048,576 bytes. `offsets` and `counts` are the bytes of the level's arrays, in
/// byte order `order`. They have the lengths that the level says, and `rect` lies in the level.
///
/// Fails with `Memory`, or with the fault of the first tile that has one, in ascending number:
/// - `TileSize`: its byte count is 0, above 1,048,576, or not the plain size of a plain tile.
/// - `PastEnd`: it ends after a file of `file_length` bytes.
pub fn groups(
    alloc: Global,
    order: Order,
    level: &Level,
    rect: Rectangle,
    file_length: u64,
    offsets: &[u8],
    counts: &[u8],
) -> Result<Vec<Group>, PlanError>
    requires inside { IsTrue (is_inside level.now rect.x rect.y rect.w rect.h) }
    requires offsets { length offsets.now ≡ level.now.offsets.len }
    requires counts { length counts.now ≡ level.now.counts.len }
    ensures groups { IfOk result (λ gs. AreGroups (range_in order level.now offsets.now counts.now) level.now rect file_length gs.items) }
    ensures refused { IfErr result (IsPlanError (range_in order level.now offsets.now counts.now) level.now rect file_length) }
    // Of a level of a file and the bytes of its arrays, the groups and the fault are the file's.
    ensures needed { (f : List ℕ) (q : Query) → IsPlanned f q order level.now rect file_length offsets.now counts.now
        → IfOk result (λ gs. AreNeeded f q gs.items) }
    ensures stands { (f : List ℕ) (q : Query) → IsPlanned f q order level.now rect file_length offsets.now counts.now
        → IfErr result (IsErrorOf f q) }
{
    let block = Block::of(level, rect);
    let mut groups = Vec::new(alloc);
    for n in 0..block.count() {
        let tile = block.tile(n);
        let span = tile_span(order, level, tile, file_length, offsets, counts)?;
        add_tile(alloc, &mut groups, tile, span)?;
    }
    Ok(groups)
}
