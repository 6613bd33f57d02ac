//! The steps of the walk over a level: its table, its values outside the entries, and its end.
ghost use Rattle.std.specs.Prelude.{◌≡◌, ℕ, ◌+◌, ◌*◌, ◌<◌, ◌%◌, ◌&&◌, ◌||◌, ◌==◌, List, true, false, Some, IfOk, length, MatchResult};
ghost use Rattle.std.specs.Option.{ForSome};
ghost use Rattle.tiff_dir.specs.Number.{number_in};
ghost use Rattle.tiff_dir.specs.declared.limits.TheConstants.{MAX_DIRECTORIES};
ghost use Rattle.tiff_dir.specs.File.{value};
ghost use Rattle.tiff_dir.specs.Fault.{IsFaultOfDirectories, IsFaultOfDirectory};
ghost use Rattle.tiff_dir.specs.Level.{is_level};
ghost use Rattle.tiff_dir.specs.Described.{layout_of};
ghost use Rattle.extents.specs.Extent.{bytes_in};
ghost use Rattle.tiff_dir.specs.Profile.{is_depth};
ghost use Rattle.tiff_dir.specs.Shape.{has_arrays, has_sides, has_tiles, layout_from, IsEnd, IsNext};
ghost use Rattle.tiff_dir.specs.Stage.{depth_in, three_shorts, EndsDirectory, HasBits, HasFormats, HasShorts, IsBefore, IsDraft, IsPending, IsSupported, IsTableOf, StepsOn};
ghost use Rattle.tiff_dir.specs.Table.{entries_of, IsReadFault, IsReadIn};
ghost use Rattle.tiff_dir.specs.declared.fault.FileFault.{FileFault as Fault};

use crate::field_values::UNSIGNED_INTEGER;
use crate::next::next;
use crate::profile::SUBFILE;
use crate::shape::check_shape;
use crate::stage::{Draft, Pending, Stage, WalkStep};
use crate::table::Table;
use crate::tags::{BITS_PER_SAMPLE, NEW_SUBFILE_TYPE, SAMPLE_FORMAT};
use crate::{FileFault, Level, Order};

/// The number of samples of a pixel whose BitsPerSample doesn't fit in the entry.
const COLOUR_SAMPLES: u16 = 3;

/// Returns whether the first directory is a reduced-resolution image.
fn is_reduced_first(index: u32, subfile: u32) -> bool
    ensures { result ≡ ((index == 0) && (subfile % 2 == 1)) }
{
    index == 0 && subfile % 2 == 1
}

/// Returns whether the directory is the first, or its NewSubfileType is 1.
fn counts_as_level(index: u32, subfile: u32) -> bool
    ensures { result ≡ ((index == 0) || (subfile == 1)) }
{
    index == 0 || subfile == 1
}

/// Returns whether the directory is a level, by the fields that are looked at in every directory. Fails with their
/// first fault.
pub(crate) fn check_directory(index: u32, table: &Table<'_>) -> Result<bool, FileFault>
    ensures first { IfOk result (λ level. level ≡ false → 0 < index) }
    ensures told { (f : List ℕ) → IsTableOf f table.now.order index table.now.at table.now.entries table.now.bytes.now
        → MatchResult result (λ level. (is_level f index ≡ level)
        × ((fault : Fault) → IsFaultOfDirectory f index fault → ⊥)) (IsFaultOfDirectory f index) }
{
    if !table.ascends() {
        return Err(FileFault::TagOrder);
    }
    table.check_rule(SUBFILE)?;
    let subfile = table.single(NEW_SUBFILE_TYPE, 0);
    if is_reduced_first(index, subfile) {
        return Err(FileFault::LevelShape);
    }
    Ok(counts_as_level(index, subfile))
}

/// Returns what the entries of a level say of it. Fails with their first fault against the profile.
fn read_level(table: &Table<'_>) -> Result<Draft, FileFault>
    ensures read { MatchResult result (IsReadIn (entries_of table.now)) (IsReadFault (entries_of table.now)) }
    ensures bounded { IfOk result IsDraft }
{
    table.check_profile()?;
    let compression = table.check_values()?;
    table.check_counts()?;
    Ok(table.draft(compression))
}

/// Reads the entries of a level. Its values stand in them, but for three of BitsPerSample or SampleFormat. Fails with
/// their first fault.
pub(crate) fn after_level(
    index: u32,
    table: &Table<'_>,
    previous: Option<Level>,
) -> Result<WalkStep, FileFault>
    requires few { index < MAX_DIRECTORIES }
    ensures next { IfOk result (IsNext (Stage.Table table.now.order index table.now.at table.now.entries) (3 + 4 * index)) }
    ensures agrees { (f : List ℕ) → IsTableOf f table.now.order index table.now.at table.now.entries table.now.bytes.now
        → is_level f index ≡ true
        → ((fault : Fault) → IsFaultOfDirectory f index fault → ⊥) → IsBefore f index previous
        → MatchResult result (StepsOn f (Stage.Table table.now.order index table.now.at table.now.entries)) (IsFaultOfDirectories f) }
{
    let draft = read_level(table)?;
    let pending = Pending {
        order: table.order,
        index,
        next: table.next(),
        draft,
    };
    if draft.samples == COLOUR_SAMPLES {
        let Some(first) = table.long(BITS_PER_SAMPLE) else {
            return Err(FileFault::Missing(BITS_PER_SAMPLE));
        };
        let formats = table.long(SAMPLE_FORMAT);
        let stage = Stage::Bits {
            pending,
            first,
            formats,
        };
        return Ok(WalkStep { stage, level: None });
    }
    let bits = table.short(BITS_PER_SAMPLE, 0);
    if !is_depth(bits) {
        return Err(FileFault::Unsupported(BITS_PER_SAMPLE));
    }
    if table.short(SAMPLE_FORMAT, UNSIGNED_INTEGER) != UNSIGNED_INTEGER {
        return Err(FileFault::Unsupported(SAMPLE_FORMAT));
    }
    finish(pending, bits, previous)
}

/// Returns whether a sample may have `bits` bits.
fn is_depth(bits: u16) -> bool
    ensures { result ≡ is_depth bits }
{
    bits == 8 || bits == 16
}

/// Returns whether each of the three numbers is `value`.
fn are_all(order: Order, bytes: &[u8], value: u16) -> bool
    requires { length bytes.now ≡ 6 }
    ensures { result ≡ ((number_in order 0 2 bytes.now == value) &&
        ((number_in order 2 2 bytes.now == value) && (number_in order 4 2 bytes.now == value))) }
{
    order.short_at(bytes, 0) == value
        && order.short_at(bytes, 2) == value
        && order.short_at(bytes, 4) == value
}

/// Returns the depth of a sample that all three numbers are, or `None`.
fn depth_of(order: Order, bytes: &[u8]) -> Option<u16>
    requires { length bytes.now ≡ 6 }
    ensures { result ≡ depth_in order bytes.now }
{
    let bits = order.short_at(bytes, 0);
    if is_depth(bits) && are_all(order, bytes, bits) {
        Some(bits)
    } else {
        None
    }
}

/// Takes the values of BitsPerSample, and goes on to those of SampleFormat if they stand outside the entry. Fails with
/// the level's first fault.
pub(crate) fn after_bits(
    pending: Pending,
    first: u32,
    formats: Option<u32>,
    bytes: &[u8],
    previous: Option<Level>,
) -> Result<WalkStep, FileFault>
    requires few { pending.index < MAX_DIRECTORIES }
    requires draft { IsDraft pending.draft }
    requires whole { length bytes.now ≡ 6 }
    ensures next { IfOk result (IsNext (Stage.Bits pending first formats) (4 + 4 * pending.index)) }
    ensures agrees { (f : List ℕ) → IsPending f pending → HasShorts f pending.index BITS_PER_SAMPLE first
        → HasFormats f pending.index formats
        → IsBefore f pending.index previous → bytes.now ≡ bytes_in f (three_shorts first)
        → MatchResult result (StepsOn f (Stage.Bits pending first formats)) (IsFaultOfDirectories f) }
{
    let bits = depth_of(pending.order, bytes);
    if let Some(first) = formats {
        let stage = Stage::Formats {
            pending,
            first,
            bits,
        };
        return Ok(WalkStep { stage, level: None });
    }
    let Some(bits) = bits else {
        return Err(FileFault::Unsupported(BITS_PER_SAMPLE));
    };
    finish(pending, bits, previous)
}

/// Takes the values of SampleFormat. Fails with the level's first fault.
pub(crate) fn after_formats(
    pending: Pending,
    first: u32,
    bits: Option<u16>,
    bytes: &[u8],
    previous: Option<Level>,
) -> Result<WalkStep, FileFault>
    requires few { pending.index < MAX_DIRECTORIES }
    requires draft { IsDraft pending.draft }
    requires whole { length bytes.now ≡ 6 }
    requires depth { ForSome bits (λ n. is_depth n ≡ true) }
    ensures next { IfOk result (IsNext (Stage.Formats pending first bits) (5 + 4 * pending.index)) }
    ensures agrees { (f : List ℕ) → IsPending f pending → HasShorts f pending.index SAMPLE_FORMAT first → HasBits f pending.index bits
        → IsBefore f pending.index previous → bytes.now ≡ bytes_in f (three_shorts first)
        → MatchResult result (StepsOn f (Stage.Formats pending first bits)) (IsFaultOfDirectories f) }
{
    let Some(bits) = bits else {
        return Err(FileFault::Unsupported(BITS_PER_SAMPLE));
    };
    if !are_all(pending.order, bytes, UNSIGNED_INTEGER) {
        return Err(FileFault::Unsupported(SAMPLE_FORMAT));
    }
    finish(pending, bits, previous)
}

/// Returns the level of a draft that keeps the profile.
fn level_of(draft: Draft, bits: u16) -> Level
    requires draft { IsDraft draft }
    requires depth { is_depth bits ≡ true }
    requires sides { has_sides draft ≡ true }
    requires tiles { has_tiles draft bits ≡ true }
    requires arrays { has_arrays draft ≡ true }
    ensures { layout_of result ≡ layout_from draft bits }
{
    Level {
        width: draft.width,
        length: draft.length,
        tile_width: draft.tile_width,
        tile_length: draft.tile_length,
        samples: draft.samples,
        bits,
        compression: draft.compression,
        offsets: draft.offsets,
        counts: draft.counts,
    }
}

/// Ends a level whose values are all read, and goes to the next directory. Fails with the first fault.
fn finish(pending: Pending, bits: u16, previous: Option<Level>) -> Result<WalkStep, FileFault>
    requires few { pending.index < MAX_DIRECTORIES }
    requires draft { IsDraft pending.draft }
    requires depth { is_depth bits ≡ true }
    ensures end { IfOk result (IsEnd pending.index) }
    ensures agrees { (f : List ℕ) → IsPending f pending → value f pending.index BITS_PER_SAMPLE 0 ≡ Some bits
        → IsSupported f pending.index BITS_PER_SAMPLE → IsSupported f pending.index SAMPLE_FORMAT
        → IsBefore f pending.index previous → MatchResult result (EndsDirectory f pending.index) (IsFaultOfDirectories f) }
{
    check_shape(previous, pending.draft, bits)?;
    let stage = next(pending.order, pending.index + 1, pending.next)?;
    Ok(WalkStep {
        stage,
        level: Some(level_of(pending.draft, bits)),
    })
}
