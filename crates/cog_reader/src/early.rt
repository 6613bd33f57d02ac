//! Asking early: what the next requests ask for, if the answers before them come whole.
ghost use Rattle.std.specs.Prelude.{◌≡◌, ◌+◌, ◌-◌, ◌*◌, ◌/◌, ◌<◌, ◌≤◌, ◌^◌, false, true, ℕ, List, Some, IfNone, IfOk, IfSome, MatchOption, length, slice_get};
ghost use Rattle.std.specs.List.{All};
ghost use Rattle.extents.specs.declared.limits.TheConstants.{BLOCK_SIZE};
ghost use Rattle.extents.specs.Block.{blocks};
ghost use Rattle.extents.specs.Extent.{extent_of_span};
ghost use Rattle.range_cache.specs.Cache.{numbers};
ghost use Rattle.range_cache.specs.Numbers.{has};
ghost use Rattle.cog_reader.specs.Reader.{file_length_of, to_come, IsRangeIn, ReaderAgrees};
ghost use Rattle.cog_reader.specs.Going.{known_at, work};
ghost use Rattle.cog_reader.specs.Early.{AreApart, AreNeededLater, ArePassed, AreThereInReach, BeginsIn, IsEarly, LeavesNothing, LeavesNothingInReach};

use crate::Reader;
use crate::ahead::{MAX_BLOCKS, reach, span_of_blocks};
use extents::{BLOCK_SIZE, Memory, Span};
use range_cache::{Cache, law_missing_is_exact};
use std::alloc::Global;

/// The run of blocks that one request asks for, and where to look for the next run. It has the blocks from `from` on
/// and before `to`. `index` is the number of the first range that may lack further blocks, 0 for the range that is
/// needed next. Neither that range nor a later one may begin before block `least`.
#[derive(Clone, Copy)]
struct Run {
    from: u64,
    to: u64,
    index: u32,
    least: u64,
}

/// Returns the range that is needed next, where `index` is 0. Else returns the one that is needed after `index` others.
/// Returns `None` where it isn't known, or ends after the file.
fn range_at(reader: &Reader, index: u32) -> Option<Span>
    ensures known { IsRangeIn (file_length_of reader.now) (known_at reader.now index) result }
    ensures comes { (f : List ℕ) → ReaderAgrees reader.now f
        → IfSome result (λ range. slice_get (to_come reader.now f) index ≡ Some (extent_of_span range)) }
{
    match index.checked_sub(1) {
        None => reader.wanted(),
        Some(later) => reader.upcoming(later),
    }
}

/// Returns the run of missing blocks to ask for, from block `from` of `range` on. The blocks of `range` before it will
/// be there by then. At most `ahead` blocks that are needed later follow, as in `extend`. Returns `None` where block
/// `from` is there, or nothing has room.
fn run_in(
    reader: &Reader,
    cache: &Cache,
    range: Span,
    from: u64,
    ahead: u32,
    index: u32,
) -> Option<Run>
    requires known { known_at reader.now index ≡ Some (extent_of_span range) }
    requires within { range.last < file_length_of reader.now }
    requires begins { range.first / BLOCK_SIZE ≤ from }
    requires ends { from ≤ range.last / BLOCK_SIZE }
    requires comes { (f : List ℕ) → ReaderAgrees reader.now f → slice_get (to_come reader.now f) index ≡ Some (extent_of_span range) }
    ensures needed { IfSome result (λ run. AreNeededLater (work reader.now cache.now) ahead run.from run.to) }
    ensures from { IfSome result (λ run. run.from ≡ from) }
    ensures index { IfSome result (λ run. run.index ≡ index) }
    ensures least { IfSome result (λ run. run.least ≡ range.first / BLOCK_SIZE) }
    ensures range { IfSome result (λ run. BeginsIn (work reader.now cache.now) run.index run.least run.from) }
    ensures full { IfNone result (has from (numbers cache.now.entries) ≡ false
        → cache.now.capacity < blocks range.first (extent_of_span range).len) }
{
    law_missing_is_exact();
    let first = range.first / BLOCK_SIZE;
    let range_end = range.last / BLOCK_SIZE + 1;
    let there = from - first + cache.present(from, range_end);
    let room = u64::from(cache.capacity()).saturating_sub(there);
    let limit = from + room.min(MAX_BLOCKS);
    let end = cache.run_end(from, range_end.min(limit));
    if end == from {
        return None;
    }
    let to = reach(reader, cache, end, limit.min(end + u64::from(ahead)));
    Some(Run {
        from,
        to,
        index,
        least: first,
    })
}

/// Returns whether block `block` is there.
fn is_there(cache: &Cache, block: u64) -> bool
    requires { block + 1 < 2 ^ 64 }
    ensures { result ≡ has block (numbers cache.now.entries) }
{
    cache.run_end(block, block + 1) == block
}

/// Returns the first missing block from `from` on and before `to`, or `None`.
fn first_gap(cache: &Cache, from: u64, to: u64) -> Option<u64>
    ensures within { IfSome result (λ n. (from ≤ n) × (n < to)) }
    ensures gone { IfSome result (λ n. has n (numbers cache.now.entries) ≡ false) }
    ensures before { MatchOption result
        ((k : ℕ) → from ≤ k → k < to → has k (numbers cache.now.entries) ≡ true)
        (λ n. (k : ℕ) → from ≤ k → k < n → has k (numbers cache.now.entries) ≡ true) }
{
    for block in from..to {
        if !is_there(cache, block) {
            return Some(block);
        }
    }
    None
}

/// Returns the run of blocks to ask for after `last`, if the answer for `last` comes whole. Returns `None` where no
/// such run is known, or the ranges don't stand in the order of the file.
fn next_run(reader: &Reader, cache: &Cache, last: Run, ahead: u32) -> Option<Run>
    requires { last.to < 2 ^ 60 }
    ensures needed { IfSome result (λ run. AreNeededLater (work reader.now cache.now) ahead run.from run.to) }
    ensures behind { IfSome result (λ run. last.to ≤ run.from) }
    ensures least { IfSome result (λ run. last.least ≤ run.least) }
    ensures index { IfSome result (λ run. last.index ≤ run.index) }
    ensures range { IfSome result (λ run. BeginsIn (work reader.now cache.now) run.index run.least run.from) }
    ensures passed { IfSome result (λ run. ArePassed (work reader.now cache.now) last.index run.index last.least last.to) }
    ensures before { IfSome result (λ run. (k : ℕ) → run.least ≤ k → last.to ≤ k → k < run.from
        → has k (numbers cache.now.entries) ≡ true) }
    ensures end { IfNone result (AreThereInReach (work reader.now cache.now) last.index last.least last.to) }
{
    reader.few_are_known();
    for index in last.index..u32::MAX {
        let Some(range) = range_at(reader, index) else {
            return None;
        };
        let first = range.first / BLOCK_SIZE;
        let to = range.last / BLOCK_SIZE + 1;
        let from = first.max(last.to);
        if first < last.least {
            return None;
        }
        if let Some(gap) = first_gap(cache, from, to) {
            return run_in(reader, cache, range, gap, ahead, index);
        }
    }
    None
}

/// Returns the byte ranges of at most `most` requests that follow the one for `asked`, as far as they are known. Each
/// begins with a run of missing blocks in a range. At most `ahead` further blocks follow this run. Fails with `Memory`
/// alone.
pub fn early_spans(
    alloc: Global,
    reader: &Reader,
    cache: &Cache,
    asked: Span,
    ahead: u32,
    most: u32,
) -> Result<Vec<Span>, Memory>
    ensures early { IfOk result (λ spans. All (IsEarly (work reader.now cache.now) ahead asked) spans.items) }
    ensures apart { IfOk result (λ spans. AreApart spans.items) }
    ensures few { IfOk result (λ spans. length spans.items ≤ most) }
    // Before each of them no missing block of a known range is left out. This is said of the ranges that are needed
    // from now on, up to the one that it begins in.
    ensures order { IfOk result (λ spans. All (LeavesNothing (work reader.now cache.now) asked spans.items) spans.items) }
    // Where they are fewer, nothing in reach is left out.
    ensures end { IfOk result (λ spans. length spans.items < most
        → LeavesNothingInReach (work reader.now cache.now) asked spans.items) }
{
    let mut spans = Vec::new(alloc);
    let Some(range) = reader.wanted() else {
        return Ok(spans);
    };
    let mut last = Run {
        from: asked.first / BLOCK_SIZE,
        to: asked.last / BLOCK_SIZE + 1,
        index: 0,
        least: range.first / BLOCK_SIZE,
    };
    for _ in 0..most {
        let Some(run) = next_run(reader, cache, last, ahead) else {
            break;
        };
        spans.push(span_of_blocks(run.from, run.to, reader.file_length()))?;
        last = run;
    }
    Ok(spans)
}
