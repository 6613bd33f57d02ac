//! The ranges of a file that a query needs.
ghost use Rattle.std.specs.Prelude.{◌≡◌, true, false, ◌++◌, ◌+◌, ◌<◌, ◌≤◌, ◌^◌, ◌⊎◌, IfOk, IfSome, IfNone, MatchOption, OnOk, Option, Some, None, List, ◌∷◌, if◌then◌else◌, map};
ghost use Rattle.std.specs.List.{flat_map, filter, sum_by};
ghost use Rattle.std.specs.Option.{option_map, option_to_list};
ghost use Rattle.tiff_dir.specs.File.{directories};
ghost use Rattle.tiff_dir.specs.Level.{level_directory};
ghost use Rattle.extents.specs.Extent.{Extent as Range};
ghost use Rattle.tiff_dir.specs.Needs.{count_range, field_range, needs_of_directories, outside_range, extent_of_place, ranges_of_directory, table_range};
ghost use Rattle.tiff_dir.specs.Geo.{geo_ranges};
ghost use Rattle.tiff_dir.specs.Query.{array_range, array_ranges, cost, joined_after, joins, needs, tile_range, tile_ranges};
ghost use Rattle.reference_support.specs.Asked.{HasNoModestLevel};
ghost use Rattle.reference_support.specs.Ranges.{blocks_inside, extent_of, extents_of};

use crate::asked::asked_rectangle;
use crate::directories::{directory, entry_count, has_directory};
use crate::fields::place;
use crate::levels::{is_level, level_directory, level_value};
use crate::query::{is_refused, window_tiles};
use std::alloc::{AllocError, Global};
use tiff_dir::limits::{BLOCK_SIZE, MAX_DIRECTORIES, MAX_ENTRIES, MAX_RANGE_BYTES};
use tiff_dir::tags::{
    BITS_PER_SAMPLE, GEO_ASCII_PARAMS, GEO_DOUBLE_PARAMS, GEO_KEY_DIRECTORY, MODEL_PIXEL_SCALE,
    MODEL_TIEPOINT, MODEL_TRANSFORMATION, SAMPLE_FORMAT, TILE_BYTE_COUNTS, TILE_OFFSETS,
};
use tiff_dir::{Place, Query, Span};

/// The `len` bytes from `first`.
#[derive(Clone, Copy, Debug, PartialEq, Eq)]
pub struct Extent {
    pub first: u64,
    pub len: u64,
}

impl Extent {
    ghost use Rattle.extents.specs.Extent.{extent_of_span};

    /// Returns the same bytes by the first and the last, where there are some and the place of the last one has 64 bits.
    pub fn span(self) -> Option<Span>
        ensures { IfSome result (λ s. extent_of_span s ≡ extent_of self) }
    {
        let last = self.first.checked_add(self.len.checked_sub(1)?)?;
        Some(Span {
            first: self.first,
            last,
        })
    }
}

#[tactic(auto, unfolding(tiff_dir::specs::Needs::count_range))]
fn count_range(file: &[u8], k: u32) -> Option<Extent>
    ensures { option_map extent_of result ≡ count_range file.now k }
{
    let first = u64::from(directory(file, k)?);
    Some(Extent { first, len: 2 })
}

#[tactic(auto, unfolding(tiff_dir::specs::Needs::table_range))]
fn table_range(file: &[u8], k: u32) -> Option<Extent>
    ensures { option_map extent_of result ≡ table_range file.now k }
{
    let at = u64::from(directory(file, k)?);
    let entries = u64::from(entry_count(file, k)?);
    if entries == 0 || entries > u64::from(MAX_ENTRIES) {
        return None;
    }
    Some(Extent {
        first: at + 2,
        len: 12 * entries + 4,
    })
}

/// Returns the range of a field's values.
fn place_range(place: Place) -> Extent
    ensures { extent_of result ≡ extent_of_place place }
{
    Extent {
        first: place.first,
        len: place.len,
    }
}

#[tactic(auto, unfolding(tiff_dir::specs::Needs::field_range))]
fn field_range(file: &[u8], k: u32, tag: u16) -> Option<Extent>
    ensures { option_map extent_of result ≡ field_range file.now k tag }
{
    Some(place_range(place(file, k, tag)?))
}

#[tactic(auto, unfolding(tiff_dir::specs::Needs::outside_range))]
fn outside_range(file: &[u8], k: u32, tag: u16) -> Option<Extent>
    ensures { option_map extent_of result ≡ outside_range file.now k tag }
{
    let place = place(file, k, tag)?;
    if place.len <= 4 {
        return None;
    }
    Some(place_range(place))
}

fn push_some(out: &mut Vec<Extent>, range: Option<Extent>) -> Result<(), AllocError>
    ensures { OnOk result (extents_of out.new.items ≡ extents_of out.old.items ++ option_to_list (option_map extent_of range)) }
{
    if let Some(range) = range {
        out.push(range)?;
    }
    Ok(())
}

/// Adds the ranges that are read of directory `k`.
#[tactic(auto, unfolding(tiff_dir::specs::Needs::ranges_of_directory, tiff_dir::specs::Needs::outside_ranges))]
fn push_directory(out: &mut Vec<Extent>, file: &[u8], k: u32) -> Result<(), AllocError>
    ensures { OnOk result (extents_of out.new.items ≡ extents_of out.old.items ++ ranges_of_directory file.now k) }
{
    push_some(out, count_range(file, k))?;
    push_some(out, table_range(file, k))?;
    if is_level(file, k) {
        push_some(out, outside_range(file, k, BITS_PER_SAMPLE))?;
        push_some(out, outside_range(file, k, SAMPLE_FORMAT))?;
    }
    Ok(())
}

/// Returns the ranges that every query needs, in the order in which they are read.
#[tactic(auto, unfolding(tiff_dir::specs::Needs::needs_of_directories))]
pub fn needs_of_directories(alloc: Global, file: &[u8]) -> Result<Vec<Extent>, AllocError>
    ensures { IfOk result (λ v. extents_of v.items ≡ needs_of_directories file.now) }
{
    let mut out = vec![in alloc; Extent { first: 0, len: 8 }]?;
    let directories = all_directories(alloc, file)?;
    push_directories(&mut out, file, &directories)?;
    Ok(out)
}

/// Returns the directories of a file, by their numbers.
#[tactic(auto, unfolding(tiff_dir::specs::File::directories))]
pub fn all_directories(alloc: Global, file: &[u8]) -> Result<Vec<u32>, AllocError>
    ensures { IfOk result (λ ks. ks.items ≡ directories file.now) }
{
    (0..MAX_DIRECTORIES)
        .filter(|k| has_directory(file, *k))
        .collect(alloc)
}

fn push_directories(
    out: &mut Vec<Extent>,
    file: &[u8],
    directories: &[u32],
) -> Result<(), AllocError>
    ensures { OnOk result (extents_of out.new.items ≡ extents_of out.old.items ++ flat_map (ranges_of_directory file.now) directories.now) }
{
    for k in directories {
        push_directory(out, file, *k)?;
    }
    Ok(())
}

#[tactic(auto, unfolding(tiff_dir::specs::Query::array_range))]
fn array_range(alloc: Global, file: &[u8], n: usize, tag: u16) -> Result<Option<Extent>, AllocError>
    ensures { IfOk result (λ o. option_map extent_of o ≡ array_range file.now n tag) }
{
    match level_directory(alloc, file, n)? {
        Some(k) => Ok(field_range(file, k, tag)),
        None => Ok(None),
    }
}

#[tactic(auto, unfolding(tiff_dir::specs::Query::tile_range))]
fn tile_range(alloc: Global, file: &[u8], n: usize, t: u64) -> Result<Option<Extent>, AllocError>
    ensures { IfOk result (λ o. option_map extent_of o ≡ tile_range file.now n t) }
{
    let first = level_value(alloc, file, n, TILE_OFFSETS, t)?;
    let len = level_value(alloc, file, n, TILE_BYTE_COUNTS, t)?;
    match (first, len) {
        (Some(first), Some(len)) => Ok(Some(Extent { first, len })),
        _ => Ok(None),
    }
}

#[tactic(auto, unfolding(tiff_dir::specs::Query::array_ranges))]
fn push_arrays(
    alloc: Global,
    out: &mut Vec<Extent>,
    file: &[u8],
    query: Query,
) -> Result<(), AllocError>
    ensures { OnOk result (extents_of out.new.items ≡ extents_of out.old.items ++ array_ranges file.now query) }
{
    if is_refused(alloc, file, query)? {
        return Ok(());
    }
    let Some(r) = asked_rectangle(alloc, file, query)? else {
        return Ok(());
    };
    push_some(out, array_range(alloc, file, r.level, TILE_OFFSETS)?)?;
    push_some(out, array_range(alloc, file, r.level, TILE_BYTE_COUNTS)?)
}

/// Returns the range of a group and the tile after it, where the tile joins the group.
fn joined(group: Extent, tile: Extent) -> Option<Extent>
    ensures { option_map extent_of result ≡ (if joins (extent_of group) (extent_of tile) then Some (record { first = group.first; len = group.len + tile.len }) else None) }
{
    let end = group.first.checked_add(group.len)?;
    let len = group.len.checked_add(tile.len)?;
    if tile.first != end || len > MAX_RANGE_BYTES {
        return None;
    }
    Some(Extent {
        first: group.first,
        len,
    })
}

/// Takes the next tile after a group, and adds the groups that are complete. Returns the group that is open then.
fn push_tile(
    out: &mut Vec<Extent>,
    before: Option<Extent>,
    tile: Option<Extent>,
) -> Result<Option<Extent>, AllocError>
    ensures { IfOk result (λ after. (rest : List (Option Range)) → extents_of out.new.items ++ joined_after (option_map extent_of after) rest
        ≡ extents_of out.old.items ++ joined_after (option_map extent_of before) (option_map extent_of tile ∷ rest)) }
{
    if let Some(group) = before
        && let Some(tile) = tile
        && let Some(whole) = joined(group, tile)
    {
        return Ok(Some(whole));
    }
    push_some(out, before)?;
    Ok(tile)
}

/// Adds the groups of the tiles.
fn push_groups(
    alloc: Global,
    out: &mut Vec<Extent>,
    file: &[u8],
    n: usize,
    tiles: &[u64],
) -> Result<(), AllocError>
    ensures { OnOk result (extents_of out.new.items ≡ extents_of out.old.items ++ joined_after None (map (tile_range file.now n) tiles.now)) }
{
    let mut group = None;
    for t in tiles {
        let tile = tile_range(alloc, file, n, *t)?;
        group = push_tile(out, group, tile)?;
    }
    push_some(out, group)
}

/// Adds the ranges of the window's arrays and of its groups of tiles. Returns whether the plain program reads its level.
#[tactic(auto, unfolding(tiff_dir::specs::Query::tile_ranges))]
fn push_window(
    alloc: Global,
    out: &mut Vec<Extent>,
    file: &[u8],
    query: Query,
) -> Result<bool, AllocError>
    ensures ranges { IfOk result (λ read. read ≡ true → extents_of out.new.items
        ≡ extents_of out.old.items ++ (array_ranges file.now query ++ joined_after None (tile_ranges file.now query))) }
    ensures none { IfOk result (λ read. read ≡ false → HasNoModestLevel file.now query) }
{
    push_arrays(alloc, out, file, query)?;
    let Some(r) = asked_rectangle(alloc, file, query)? else {
        return Ok(true);
    };
    let Some(tiles) = window_tiles(alloc, file, query)? else {
        return Ok(false);
    };
    push_groups(alloc, out, file, r.level, &tiles)?;
    Ok(true)
}

/// Adds the values of the geo fields that are there.
#[tactic(auto, unfolding(tiff_dir::specs::Geo::geo_ranges))]
fn push_geo(out: &mut Vec<Extent>, file: &[u8]) -> Result<(), AllocError>
    ensures { OnOk result (extents_of out.new.items ≡ extents_of out.old.items ++ geo_ranges file.now) }
{
    push_some(out, field_range(file, 0, GEO_KEY_DIRECTORY))?;
    push_some(out, field_range(file, 0, GEO_DOUBLE_PARAMS))?;
    push_some(out, field_range(file, 0, GEO_ASCII_PARAMS))?;
    push_some(out, field_range(file, 0, MODEL_PIXEL_SCALE))?;
    push_some(out, field_range(file, 0, MODEL_TIEPOINT))?;
    push_some(out, field_range(file, 0, MODEL_TRANSFORMATION))
}

/// Returns the ranges of the file that the query needs, where the plain program reads its level.
#[tactic(auto, unfolding(tiff_dir::specs::Query::needs, tiff_dir::specs::Query::needs_of_query))]
pub fn needs(alloc: Global, file: &[u8], query: Query) -> Result<Option<Vec<Extent>>, AllocError>
    ensures ranges { IfOk result (λ o. IfSome o (λ v. extents_of v.items ≡ needs file.now query)) }
    ensures none { IfOk result (λ o. IfNone o (HasNoModestLevel file.now query)) }
{
    let mut out = needs_of_directories(alloc, file)?;
    match query {
        Query::Window { .. } => {
            if !push_window(alloc, &mut out, file, query)? {
                return Ok(None);
            }
        }
        Query::Info => push_geo(&mut out, file)?,
    }
    Ok(Some(out))
}

/// Returns how many blocks a range touches that ends in a file of `complete` bytes, and 0 for another one.
fn blocks_inside(range: Extent, complete: u64) -> u64
    requires { complete < 2 ^ 63 }
    ensures blocks { result ≡ blocks_inside complete (extent_of range) }
{
    match range.first.checked_add(range.len) {
        Some(end) if end <= complete && range.len > 0 => {
            (end - 1) / BLOCK_SIZE - range.first / BLOCK_SIZE + 1
        }
        _ => 0,
    }
}

/// Returns the number of blocks of the ranges that end in a file of `complete` bytes, where the sum has 64 bits.
fn sum_blocks(ranges: &[Extent], complete: u64) -> Option<u64>
    requires { complete < 2 ^ 63 }
    ensures { let total = sum_by (λ r. blocks_inside complete (extent_of r)) ranges.now in
        MatchOption result (2 ^ 64 ≤ total) (λ n. n ≡ total) }
{
    let mut total: u64 = 0;
    for range in ranges {
        total = total.checked_add(blocks_inside(*range, complete))?;
    }
    Some(total)
}

/// Returns the number of blocks of the ranges that the query needs and that end inside the file.
#[tactic(auto, unfolding(tiff_dir::specs::Query::cost))]
pub fn cost(alloc: Global, file: &[u8], query: Query) -> Result<Option<u64>, AllocError>
    ensures cost { IfOk result (λ o. IfSome o (λ n. n ≡ cost file.now query)) }
    ensures none { IfOk result (λ o. IfNone o (HasNoModestLevel file.now query ⊎ (2 ^ 64 ≤ cost file.now query))) }
{
    if file.len() as u64 >= 1 << 63 {
        return Ok(None);
    }
    match needs(alloc, file, query)? {
        Some(ranges) => Ok(sum_blocks(&ranges, file.len() as u64)),
        None => Ok(None),
    }
}
