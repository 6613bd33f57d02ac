//! Looking ahead: a request may go on, after the missing blocks of the next range, with blocks that later ranges need.
ghost use Rattle.std.specs.Prelude.{◌≡◌, ◌+◌, ◌-◌, ◌*◌, ◌/◌, ◌<◌, ◌≤◌, ℕ, List, Some, false, slice_get};
ghost use Rattle.extents.specs.declared.limits.TheConstants.{BLOCK_SIZE};
ghost use Rattle.extents.specs.Block.{end_of};
ghost use Rattle.extents.specs.Extent.{extent_of_span};
ghost use Rattle.range_cache.specs.Numbers.{has};
ghost use Rattle.range_cache.specs.Cache.{numbers};
ghost use Rattle.cog_reader.specs.Reader.{file_length_of, to_come, wanted, ReaderAgrees};
ghost use Rattle.cog_reader.specs.Going.{work, IsMissingWithRoom, OneTouches, IsStopped, IsWantedLater, Touches};

use crate::Reader;
use extents::{BLOCK_SIZE, Span};
use range_cache::{Cache, law_missing_is_exact};

/// The most blocks that one request asks for.
pub const MAX_BLOCKS: u64 = 65;

/// Returns the end of the run of missing blocks from block `from` on, as far as they lie in `range`. The end is the
/// number of the block after the last one, at most `limit`.
fn reach_in(cache: &Cache, range: Span, from: u64, limit: u64) -> u64
    requires { from ≤ limit }
    ensures low { from ≤ result }
    ensures high { result ≤ limit }
    ensures gone { (k : ℕ) → from ≤ k → k < result → has k (numbers cache.now.entries) ≡ false }
    ensures touches { (k : ℕ) → from ≤ k → k < result → Touches (extent_of_span range) k }
    ensures within { from < result → result ≤ range.last / BLOCK_SIZE + 1 }
{
    let to = (range.last / BLOCK_SIZE + 1).min(limit);
    if range.first / BLOCK_SIZE > from || to <= from {
        return from;
    }
    cache.run_end(from, to)
}

/// Returns the end of the run of missing blocks from block `from` on. Each of its blocks lies in a range that is known
/// to be needed later. The end is the number of the block after the last one, at most `limit`.
pub(crate) fn reach(reader: &Reader, cache: &Cache, from: u64, limit: u64) -> u64
    requires low { from ≤ limit }
    requires inside { from * BLOCK_SIZE < file_length_of reader.now + BLOCK_SIZE }
    ensures low { from ≤ result }
    ensures high { result ≤ limit }
    ensures inside { result * BLOCK_SIZE < file_length_of reader.now + BLOCK_SIZE }
    ensures gone { (k : ℕ) → from ≤ k → k < result → has k (numbers cache.now.entries) ≡ false }
    ensures wanted { (k : ℕ) → from ≤ k → k < result → IsWantedLater reader.now k }
    ensures needed { (f : List ℕ) → ReaderAgrees reader.now f → (k : ℕ) → from ≤ k → k < result → OneTouches (to_come reader.now f) k }
{
    let mut end = from;
    for index in 0..u32::MAX {
        if end >= limit {
            return end;
        }
        let Some(range) = reader.upcoming(index) else {
            return end;
        };
        if range.first / BLOCK_SIZE > end {
            return end;
        }
        end = reach_in(cache, range, end, limit);
    }
    end
}

/// Returns the bytes of the blocks `from` up to, but not including, `to`. The last of them begins in a file of
/// `file_length` bytes.
pub(crate) fn span_of_blocks(from: u64, to: u64, file_length: u64) -> Span
    requires some { from < to }
    requires inside { to * BLOCK_SIZE < file_length + BLOCK_SIZE }
    ensures first { result.first ≡ from * BLOCK_SIZE }
    ensures last { result.last + 1 ≡ end_of file_length (to - 1) }
{
    Span {
        first: from * BLOCK_SIZE,
        last: ((to - 1) * BLOCK_SIZE + (BLOCK_SIZE - 1)).min(file_length - 1),
    }
}

/// Returns the byte range to ask for. It begins with `missing`, the first run of missing blocks of `range`, which is
/// needed next. At most `ahead` blocks that are needed later follow. All have room beside the blocks of `range` that
/// are there.
pub fn extend(reader: &Reader, cache: &Cache, range: Span, missing: Span, ahead: u32) -> Span
    requires missing { IsMissingWithRoom cache.now (file_length_of reader.now) (extent_of_span range) 0 missing }
    requires wanted { wanted reader.now ≡ Some (extent_of_span range) }
    requires next { (f : List ℕ) → ReaderAgrees reader.now f → slice_get (to_come reader.now f) 0 ≡ Some (extent_of_span range) }
    ensures { IsStopped (work reader.now cache.now) ahead result }
{
    law_missing_is_exact();
    let from = missing.first / BLOCK_SIZE;
    let end = missing.last / BLOCK_SIZE + 1;
    let present = cache.present(range.first / BLOCK_SIZE, range.last / BLOCK_SIZE + 1);
    let room = u64::from(cache.capacity()) - present;
    let limit = (from + room.min(MAX_BLOCKS)).min(end + u64::from(ahead));
    let end = reach(reader, cache, end, limit);
    span_of_blocks(from, end, reader.file_length())
}
