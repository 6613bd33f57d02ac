//! Work on the blocks of a cache, by their numbers.
ghost use Rattle.std.specs.Prelude.{◌≡◌, true, false, ℕ, ◌+◌, ◌-◌, ◌*◌, ◌/◌, ◌%◌, ◌<◌, ◌≤◌, ◌^◌, ◌==◌, EachIndex, IfOk, IsOk, OnErr, MatchOption, length, map, slice_index, if◌then◌else◌};
ghost use Rattle.std.specs.List.{IsDistinct, filter, range_with_len};
ghost use Rattle.extents.specs.declared.limits.TheConstants.{BLOCK_SIZE};
ghost use Rattle.extents.specs.Block.{block_count, end_of};
ghost use Rattle.range_cache.specs.Numbers.{has, missing, AreThere, IsRunEnd};
ghost use Rattle.range_cache.specs.Cache.{block_at, blocks_in, byte_at, left_in, numbers, brought, put_one, stored, stores};
ghost use Rattle.range_cache.specs.Piece.{block_in, is_brought};

use extents::{BLOCK_SIZE, Memory, Span};
use lru::LruCache;

/// Returns the last position of block `number` in a file of `file_length` bytes.
pub fn last_of(number: u64, file_length: u64) -> u64
    requires { number * BLOCK_SIZE < file_length }
    ensures { result + 1 ≡ end_of file_length number }
{
    (number * BLOCK_SIZE + (BLOCK_SIZE - 1)).min(file_length - 1)
}

/// Returns the first block from `from` on and before `to` that is there, or `to` where none is.
pub fn end_of_run(blocks: &LruCache<u64, Vec<u8>>, from: u64, to: u64) -> u64
    requires { from ≤ to }
    ensures { IsRunEnd (numbers (blocks_in blocks.now.entries)) from to result }
{
    for number in from..to {
        if blocks.contains(&number) {
            return number;
        }
    }
    to
}

/// Returns how many of the blocks from `from` on and before `to` are there.
pub fn count_present(blocks: &LruCache<u64, Vec<u8>>, from: u64, to: u64) -> u64
    requires { from ≤ to }
    ensures { result + missing (numbers (blocks_in blocks.now.entries)) from (to - from) ≡ to - from }
{
    let mut count = 0;
    for number in from..to {
        if blocks.contains(&number) {
            count += 1;
        }
    }
    count
}

/// Brings those of the blocks from `from` on and before `to` that are there to the front, in ascending order. Returns
/// the first of them that isn't there, or `None`.
pub fn bring(blocks: &mut LruCache<u64, Vec<u8>>, from: u64, to: u64) -> Option<u64>
    requires ascending { from ≤ to }
    requires distinct { IsDistinct ◌==◌ (numbers (blocks_in blocks.old.entries)) }
    ensures entries { blocks_in blocks.new.entries
        ≡ brought (range_with_len from (to - from)) (blocks_in blocks.old.entries) }
    ensures capacity { blocks.new.cap ≡ blocks.old.cap }
    ensures missing { MatchOption result
        (AreThere (numbers (blocks_in blocks.old.entries)) from (to - from))
        (λ n. (from ≤ n) × (n < to)
        × AreThere (numbers (blocks_in blocks.old.entries)) from (n - from)
        × (has n (numbers (blocks_in blocks.old.entries)) ≡ false)) }
{
    let mut missing = None;
    for number in from..to {
        if !blocks.promote(&number) {
            missing = missing.or(Some(number));
        }
    }
    missing
}

/// Copies the bytes of a block from place `skip` on, and zeros past its end.
fn copy_part(block: &[u8], skip: usize, out: &mut [u8])
    requires { skip + length out.old < 2 ^ 64 }
    ensures { EachIndex out.new (λ k. slice_index out.new k ≡ slice_index block.now (skip + k)) }
{
    if let Some(part) = block.get(skip..skip + out.len()) {
        out.copy_from_slice(part);
        return;
    }
    for (i, byte) in out.iter_mut().enumerate() {
        *byte = block.get(skip + i).copied().unwrap_or(0);
    }
}

/// Copies the bytes of block `number` from place `skip` in it on, and zeros where it isn't there.
fn copy_block(blocks: &LruCache<u64, Vec<u8>>, number: u64, skip: usize, out: &mut [u8])
    requires { skip + length out.old ≤ BLOCK_SIZE }
    ensures { out.new
        ≡ map (byte_at (blocks_in blocks.now.entries)) (range_with_len (number * BLOCK_SIZE + skip) (length out.old)) }
{
    match blocks.peek(&number) {
        Some(block) => copy_part(block, skip, out),
        None => out.fill(0),
    }
}

/// Copies the bytes of the file from position `first` on, as the blocks have them.
pub fn copy(blocks: &LruCache<u64, Vec<u8>>, first: u64, out: &mut [u8])
    requires { first + length out.old < 2 ^ 64 }
    ensures { out.new ≡ map (byte_at (blocks_in blocks.now.entries)) (range_with_len first (length out.old)) }
{
    let end = first + out.len() as u64;
    for number in first / BLOCK_SIZE..end.div_ceil(BLOCK_SIZE) {
        let start = first.max(number * BLOCK_SIZE);
        let stop = last_of(number, end) + 1;
        copy_block(
            blocks,
            number,
            (start - number * BLOCK_SIZE) as usize,
            &mut out[(start - first) as usize..(stop - first) as usize],
        );
    }
}

/// Returns the bytes of the file from position `first` on that stand in one block, at most `len`.
pub fn piece(blocks: &LruCache<u64, Vec<u8>>, first: u64, len: usize) -> &[u8]
    requires { first + len < 2 ^ 64 }
    ensures few { length result.now ≤ len }
    ensures long { length result.now ≡ left_in (block_at (first / BLOCK_SIZE) (blocks_in blocks.now.entries)) (first % BLOCK_SIZE) len }
    ensures piece { result.now
        ≡ map (byte_at (blocks_in blocks.now.entries)) (range_with_len first (length result.now)) }
{
    let number = first / BLOCK_SIZE;
    let Some(block) = blocks.peek(&number) else {
        return &[];
    };
    let skip = (first % BLOCK_SIZE) as usize;
    let end = block.len().min(BLOCK_SIZE as usize).min(skip + len);
    block.get(skip..end).unwrap_or(&[])
}

/// Stores a block unless it is there, and returns how many were stored, 0 or 1. Fails with `Memory` alone.
fn store_one(blocks: &mut LruCache<u64, Vec<u8>>, number: u64, bytes: &[u8]) -> Result<u32, Memory>
    ensures capacity { blocks.new.cap ≡ blocks.old.cap }
    ensures ok { IfOk result (λ count.
        (blocks_in blocks.new.entries ≡ put_one blocks.old.cap (blocks_in blocks.old.entries) (number, bytes.now))
        × (count ≡ (if has number (numbers (blocks_in blocks.old.entries)) then 0 else 1))) }
    ensures err { OnErr result (blocks_in blocks.new.entries ≡ blocks_in blocks.old.entries) }
    // Where it is there, it doesn't fail.
    ensures sure { has number (numbers (blocks_in blocks.old.entries)) ≡ true → IsOk result }
{
    if blocks.contains(&number) {
        return Ok(0);
    }
    let block = Vec::from_slice(*blocks.allocator(), bytes)?;
    blocks.put(number, block)?;
    Ok(1)
}

/// Returns which blocks a piece of `len` bytes brings: those from the first number on and before the second.
pub fn whole_run(file_length: u64, first: u64, len: u64, wanted: Span) -> (u64, u64)
    requires { first + len ≤ file_length }
    ensures run { filter (is_brought file_length first len wanted) (range_with_len 0 (block_count file_length))
        ≡ range_with_len result.0 (result.1 - result.0) }
    ensures starts { first ≤ result.0 * BLOCK_SIZE }
    ensures inside { result.1 * BLOCK_SIZE < file_length + BLOCK_SIZE }
    ensures ends { result.0 < result.1 → end_of file_length (result.1 - 1) ≤ first + len }
{
    let end = (first + len).min(wanted.last.saturating_add(1));
    let from = first.max(wanted.first).div_ceil(BLOCK_SIZE);
    let to = if end < file_length {
        end / BLOCK_SIZE
    } else {
        file_length.div_ceil(BLOCK_SIZE)
    };
    (from, to)
}

/// Stores those of the blocks from `from` on and before `to` that aren't there, from the bytes of a piece. Returns how
/// many it stored. Fails with `Memory` alone.
pub fn store(
    blocks: &mut LruCache<u64, Vec<u8>>,
    file_length: u64,
    first: u64,
    bytes: &[u8],
    from: u64,
    to: u64,
) -> Result<u32, Memory>
    requires starts { first ≤ from * BLOCK_SIZE }
    requires inside { to * BLOCK_SIZE < file_length + BLOCK_SIZE }
    requires ends { from < to → end_of file_length (to - 1) ≤ first + length bytes.now }
    requires counted { stores blocks.old.cap (map (block_in file_length first bytes.now) (range_with_len from (to - from)))
        (blocks_in blocks.old.entries) < 2 ^ 32 }
    ensures capacity { blocks.new.cap ≡ blocks.old.cap }
    ensures ok { IfOk result (λ count. let new = map (block_in file_length first bytes.now) (range_with_len from (to - from)) in
        (blocks_in blocks.new.entries ≡ stored blocks.old.cap new (blocks_in blocks.old.entries))
        × (count ≡ stores blocks.old.cap new (blocks_in blocks.old.entries))) }
    ensures err { OnErr result ((k : ℕ) × (k < to - from)
        × (blocks_in blocks.new.entries ≡ stored blocks.old.cap (map (block_in file_length first bytes.now) (range_with_len from k))
        (blocks_in blocks.old.entries))) }
    ensures sure { stores blocks.old.cap (map (block_in file_length first bytes.now) (range_with_len from (to - from)))
        (blocks_in blocks.old.entries) ≡ 0 → IsOk result }
{
    let mut count = 0;
    for number in from..to {
        let start = number * BLOCK_SIZE - first;
        let end = last_of(number, file_length) + 1 - first;
        count += store_one(blocks, number, &bytes[start as usize..end as usize])?;
    }
    Ok(count)
}
