//! One step of the walk for each range that it needs.
ghost use Rattle.std.specs.Prelude.{◌≡◌, ℕ, ◌+◌, ◌*◌, ◌<◌, ◌≤◌, ◌^◌, List, true, false, IsSomeAnd, IfSome, IfOk, length, MatchResult};
ghost use Rattle.std.specs.Option.{option_map};
ghost use Rattle.extents.specs.declared.limits.TheConstants.{MAX_RANGE_BYTES};
ghost use Rattle.tiff_dir.specs.declared.limits.TheConstants.{MAX_DIRECTORIES, MAX_ENTRIES};
ghost use Rattle.tiff_dir.specs.File.{order_of};
ghost use Rattle.tiff_dir.specs.Fault.{IsFaultOfDirectories};
ghost use Rattle.extents.specs.Extent.{bytes_in};
ghost use Rattle.tiff_dir.specs.GeoEntries.{AreNear};
ghost use Rattle.extents.specs.Extent.{extent_of_span};
ghost use Rattle.tiff_dir.specs.WalkState.{HasGeo};
ghost use Rattle.tiff_dir.specs.Shape.{IsNext};
ghost use Rattle.tiff_dir.specs.Stage.{header_range, index_of, is_first_table, range_of, AgreesAt, IsBefore, IsKept, IsTableOf, StepsOn};

use crate::geo::GeoEntries;
use crate::level_steps::{after_bits, after_formats, after_level, check_directory};
use crate::limits::MAX_ENTRIES;
use crate::next::next;
use crate::stage::{Stage, WalkStep};
use crate::table::Table;
use crate::{FileFault, Level, Order, Span};

/// Returns the byte order that the first two bytes name.
#[tactic(auto, unfolding(crate::specs::File::order_of))]
fn order_in(bytes: &[u8]) -> Option<Order>
    requires { length bytes.now ≡ 8 }
    ensures { result ≡ order_of bytes.now }
{
    if bytes.starts_with(b"II") {
        Some(Order::Little)
    } else if bytes.starts_with(b"MM") {
        Some(Order::Big)
    } else {
        None
    }
}

/// Reads the header, which has the byte order and the offset of the first directory. Fails with its first fault.
fn after_header(bytes: &[u8]) -> Result<WalkStep, FileFault>
    requires { length bytes.now ≡ 8 }
    ensures next { IfOk result (IsNext Stage.Header 1) }
    ensures agrees { (f : List ℕ) → bytes.now ≡ bytes_in f header_range
        → MatchResult result (StepsOn f Stage.Header) (IsFaultOfDirectories f) }
{
    let Some(order) = order_in(bytes) else {
        return Err(FileFault::Header);
    };
    if order.short_at(bytes, 2) != 42 {
        return Err(FileFault::Header);
    }
    let stage = next(order, 0, order.long_at(bytes, 4))?;
    Ok(WalkStep { stage, level: None })
}

/// Reads the first two bytes of a directory, the number of its entries. Fails with `DirCount`.
fn after_count(order: Order, index: u32, at: u32, bytes: &[u8]) -> Result<WalkStep, FileFault>
    requires few { index < MAX_DIRECTORIES }
    requires whole { length bytes.now ≡ 2 }
    ensures next { IfOk result (IsNext (Stage.ValueCount order index at) (2 + 4 * index)) }
    ensures agrees { (f : List ℕ) → AgreesAt f (Stage.ValueCount order index at) → bytes.now ≡ bytes_in f (record { first = at; len = 2 })
        → MatchResult result (StepsOn f (Stage.ValueCount order index at)) (IsFaultOfDirectories f) }
{
    let entries = order.short_at(bytes, 0);
    if entries == 0 || entries > MAX_ENTRIES {
        return Err(FileFault::DirCount);
    }
    let stage = Stage::Table {
        order,
        index,
        at,
        entries,
    };
    Ok(WalkStep { stage, level: None })
}

/// Reads the table of a directory: its entries, and the offset of the next directory. Fails with its first fault.
fn after_table(
    order: Order,
    index: u32,
    at: u32,
    entries: u16,
    bytes: &[u8],
    previous: Option<Level>,
) -> Result<WalkStep, FileFault>
    requires few { index < MAX_DIRECTORIES }
    requires short { entries ≤ MAX_ENTRIES }
    requires whole { length bytes.now ≡ 12 * entries + 4 }
    ensures next { IfOk result (IsNext (Stage.Table order index at entries) (3 + 4 * index)) }
    ensures agrees { (f : List ℕ) → IsTableOf f order index at entries bytes.now → IsBefore f index previous
        → MatchResult result (StepsOn f (Stage.Table order index at entries)) (IsFaultOfDirectories f) }
{
    let table = Table {
        order,
        at,
        entries,
        bytes,
    };
    if check_directory(index, &table)? {
        return after_level(index, &table, previous);
    }
    let stage = next(order, index + 1, table.next())?;
    Ok(WalkStep { stage, level: None })
}

/// Makes one step of the walk, by the bytes of the range that it needs. Fails with the first fault that they show.
pub(crate) fn step(
    stage: Stage,
    bytes: &[u8],
    given: u32,
    previous: Option<Level>,
) -> Result<WalkStep, FileFault>
    requires whole { IsSomeAnd (range_of stage) (λ r. length bytes.now ≡ r.len) }
    requires kept { IsKept stage given }
    ensures next { IfOk result (IsNext stage (given + 1)) }
    ensures agrees { (f : List ℕ) → AgreesAt f stage → IsBefore f (index_of stage) previous
        → IfSome (range_of stage) (λ r. bytes.now ≡ bytes_in f r)
        → MatchResult result (StepsOn f stage) (IsFaultOfDirectories f) }
{
    match stage {
        Stage::Header => after_header(bytes),
        Stage::ValueCount { order, index, at } => after_count(order, index, at, bytes),
        Stage::Table {
            order,
            index,
            at,
            entries,
        } => after_table(order, index, at, entries, bytes, previous),
        Stage::Bits {
            pending,
            first,
            formats,
        } => after_bits(pending, first, formats, bytes, previous),
        Stage::Formats {
            pending,
            first,
            bits,
        } => after_formats(pending, first, bits, bytes, previous),
        Stage::Ended { .. } => unreachable!(),
    }
}

/// Returns the entries of the geo fields. They are read where `bytes` has the first directory's table, and else are
/// those before.
pub(crate) fn geo_after(stage: Stage, bytes: &[u8], geo: GeoEntries) -> GeoEntries
    requires whole { IsSomeAnd (range_of stage) (λ r. length bytes.now ≡ r.len) }
    requires kept { (given : ℕ) × IsKept stage given }
    requires near { AreNear geo }
    ensures near { AreNear result }
    ensures taken { is_first_table stage ≡ true → (f : List ℕ) → AgreesAt f stage
        → IfSome (range_of stage) (λ r. bytes.now ≡ bytes_in f r) → HasGeo f result }
    ensures same { is_first_table stage ≡ false → result ≡ geo }
{
    match stage {
        Stage::Table {
            order,
            index,
            at,
            entries,
        } if index == 0 => GeoEntries::of(&Table {
            order,
            at,
            entries,
            bytes,
        }),
        _ => geo,
    }
}

/// Returns the span of the `len` bytes from `first` on.
fn span(first: u64, len: u64) -> Span
    requires near { first < 2 ^ 33 }
    requires some { 0 < len }
    requires small { len ≤ MAX_RANGE_BYTES }
    ensures extent { extent_of_span result ≡ record { first = first; len = len } }
    ensures small { result.last + 1 ≤ result.first + MAX_RANGE_BYTES }
{
    Span {
        first,
        last: first + len - 1,
    }
}

/// Returns the byte range that a walk needs next, or `None` at the end.
pub(crate) fn range(stage: Stage) -> Option<Span>
    ensures small { IfSome result (λ s. s.last + 1 ≤ s.first + MAX_RANGE_BYTES) }
    ensures wanted { range_of stage ≡ option_map extent_of_span result }
{
    match stage {
        Stage::Header => Some(span(0, 8)),
        Stage::ValueCount { at, .. } => Some(span(u64::from(at), 2)),
        Stage::Table { at, entries, .. } => {
            Some(span(u64::from(at) + 2, 12 * u64::from(entries) + 4))
        }
        Stage::Bits { first, .. } | Stage::Formats { first, .. } => {
            Some(span(u64::from(first), 6))
        }
        Stage::Ended { .. } => None,
    }
}
