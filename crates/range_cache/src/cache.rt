//! The cache and its calls.
ghost use Rattle.std.specs.Prelude.{◌≡◌, ◌==◌, ◌+◌, ◌-◌, ◌*◌, ◌/◌, ◌%◌, ◌<◌, ◌≤◌, ◌^◌, ℕ, List, [], IfOk, IsOk, IsTrue, OnOk, OnErr, IsErrOf, MatchResult, false, length, take};
ghost use Rattle.std.specs.List.{range_with_len, slice_range};
ghost use Rattle.extents.specs.declared.limits.TheConstants.{BLOCK_SIZE};
ghost use Rattle.extents.specs.Block.{first_block, blocks};
ghost use Rattle.range_cache.specs.Numbers.{has, missing, AreGone, AreThere, IsLed, IsRunEnd, Stays};
ghost use Rattle.range_cache.specs.declared.cache.TheConstants.{MAX_CAPACITY, MIN_CAPACITY};
ghost use Rattle.range_cache.specs.Cache.{Blocks, block_at, bytes_at, left_in, numbers, Holds, IsSound, brought, stored, stores};
ghost use Rattle.range_cache.specs.Piece.{whole_blocks, IsPieceOf, is_wanted};
ghost use Rattle.range_cache.specs.Missing.{IsFirstGap};

use crate::blocks::{bring, copy, count_present, end_of_run, last_of, piece, store, whole_run};
use crate::missing::Missing;
use extents::{BLOCK_SIZE, Memory, Span};
use lru::LruCache;
use std::alloc::Global;
use std::marker::Model;
use std::num::NonZeroUsize;

/// The fewest blocks of a cache. A range of 1,048,576 bytes touches at most one less, wherever it begins.
pub const MIN_CAPACITY: u32 = 66;

/// The most blocks of a cache.
pub const MAX_CAPACITY: u32 = 4096;

/// Why a cache isn't made.
#[derive(Clone, Copy, Debug, PartialEq, Eq)]
pub enum CacheError {
    /// The number of blocks isn't between 66 and 4,096.
    Blocks = 1,
    /// An allocation failed.
    Memory = 2,
}

/// Blocks of one file, by their numbers. Where the cache is full, a new block replaces the least recently used one.
#[derive(Drop)]
pub struct Cache {
    blocks: LruCache<u64, Vec<u8>>,
}

impl Model for Cache {
    ghost use Rattle.std.specs.Prelude.{◌≤◌};
    ghost use Rattle.range_cache.specs.declared.cache.TheConstants.{MAX_CAPACITY, MIN_CAPACITY};
    ghost use Rattle.range_cache.specs.Cache.{Blocks, kept_blocks};

    ghost Value = { Blocks };

    ghost view = { λ c. kept_blocks c.blocks };

    ghost invariant = { λ c. (MIN_CAPACITY ≤ c.blocks.cap) × (c.blocks.cap ≤ MAX_CAPACITY) };
}

impl Cache {
    /// Makes an empty cache for at most `blocks` blocks of 16,384 bytes. Fails with `Blocks` where `blocks` isn't
    /// between 66 and 4,096, and else only with `Memory`.
    ///
    /// ```
    /// let mut cache = Cache::new(alloc, 66)?;
    /// assert_eq!(cache.touch(378, 0, 10), Err(Missing { first: 0, last: 377 }));
    /// cache.put(378, 0, &file, Span { first: 0, last: 377 })?;
    /// assert_eq!(cache.touch(378, 0, 10), Ok(()));
    /// let mut out = [0; 10];
    /// cache.copy_at(0, &mut out);
    /// ```
    pub fn new(alloc: Global, blocks: u32) -> Result<Cache, CacheError>
        ensures made { IfOk result (λ c. c ≡ record { entries = []; capacity = blocks }) }
        ensures fits { OnOk result ((MIN_CAPACITY ≤ blocks) × (blocks ≤ MAX_CAPACITY)) }
        ensures refused { IsErrOf result CacheError.Blocks → MIN_CAPACITY ≤ blocks → MAX_CAPACITY < blocks }
        ensures memory { IsErrOf result CacheError.Memory → (MIN_CAPACITY ≤ blocks) × (blocks ≤ MAX_CAPACITY) }
    {
        if !(MIN_CAPACITY..=MAX_CAPACITY).contains(&blocks) {
            return Err(CacheError::Blocks);
        }
        let Some(capacity) = NonZeroUsize::new(blocks as usize) else {
            return Err(CacheError::Blocks);
        };
        match LruCache::new(alloc, capacity) {
            Ok(blocks) => Ok(Cache { blocks }),
            Err(_) => Err(CacheError::Memory),
        }
    }

    /// Checks whether all blocks are there that the `len` bytes from `first` on touch. Fails with the first run of
    /// missing ones otherwise. In both cases those that are there come to the front, in ascending order.
    ///
    /// `file_length` is the length of the file in bytes, and the range lies in it.
    pub fn touch(&mut self, file_length: u64, first: u64, len: usize) -> Result<(), Missing>
        requires some { 0 < len }
        requires within { first + len ≤ file_length }
        ensures sound { IsSound self.old }
        ensures entries { self.new ≡ record self.old {
          entries = brought (range_with_len (first_block first) (blocks first len)) self.old.entries;
        } }
        ensures exact { MatchResult result
            (λ _. AreThere (numbers self.old.entries) (first_block first) (blocks first len))
            (λ m. IsFirstGap self.old file_length first len m) }
        ensures bytes { OnOk result ((f : List ℕ) → first + len ≤ length f → Holds f self.old →
            bytes_at self.new first len ≡ slice_range f first (first + len)) }

        // These follow from the entries. Only their order changes, so the same blocks are there, and each is still the
        // file's. Those of the range lead.
        ensures kept { (k : ℕ) → block_at k self.new.entries ≡ block_at k self.old.entries }
        ensures same { (k : ℕ) → has k (numbers self.new.entries) ≡ has k (numbers self.old.entries) }
        ensures holds { (f : List ℕ) → Holds f self.old → Holds f self.new }
        ensures led { IsLed (numbers self.new.entries) (first_block first) (blocks first len) }
    {
        self.law();
        let to = (first + len as u64 - 1) / BLOCK_SIZE + 1;
        match bring(&mut self.blocks, first / BLOCK_SIZE, to) {
            None => Ok(()),
            Some(start) => {
                let end = end_of_run(&self.blocks, start + 1, to);
                Err(Missing {
                    first: start * BLOCK_SIZE,
                    last: last_of(end - 1, file_length),
                })
            }
        }
    }

    /// Copies the bytes from `first` on, as the blocks have them, and zeros where a block isn't there. The order of the
    /// blocks stays.
    #[tactic(auto, unfolding(crate::specs::Cache::bytes_at))]
    pub fn copy_at(&self, first: u64, out: &mut [u8])
        requires { first + length out.old < 2 ^ 64 }
        ensures { out.new ≡ bytes_at self.now first (length out.old) }
    {
        copy(&self.blocks, first, out);
    }

    /// Reads the bytes from `first` on into `out`, where all blocks that they touch are there. Fails with the first run
    /// of missing blocks otherwise, and then leaves `out` as it was. In both cases the blocks that are there come to
    /// the front, in ascending order.
    ///
    /// `file_length` is the length of the file in bytes, and the range lies in it.
    ///
    /// ```
    /// let mut out = [0; 10];
    /// assert_eq!(cache.read_into(378, 0, &mut out), Err(Missing { first: 0, last: 377 }));
    /// cache.put(378, 0, &file, Span { first: 0, last: 377 })?;
    /// assert_eq!(cache.read_into(378, 0, &mut out), Ok(()));
    /// assert_eq!(out, file[..10]);
    /// ```
    pub fn read_into(&mut self, file_length: u64, first: u64, out: &mut [u8]) -> Result<(), Missing>
        requires some { 0 < length out.old }
        requires within { first + length out.old ≤ file_length }
        ensures sound { IsSound self.old }
        ensures entries { self.new ≡ record self.old {
          entries = brought (range_with_len (first_block first) (blocks first (length out.old))) self.old.entries;
        } }
        ensures exact { MatchResult result
            (λ _. AreThere (numbers self.old.entries) (first_block first) (blocks first (length out.old)))
            (λ m. IsFirstGap self.old file_length first (length out.old) m) }
        ensures read { OnOk result (out.new ≡ bytes_at self.new first (length out.old)) }
        ensures slice { OnOk result ((f : List ℕ) → first + length out.old ≤ length f → Holds f self.old →
            out.new ≡ slice_range f first (first + length out.old)) }
        ensures missed { OnErr result (out.new ≡ out.old) }

        // These follow from the entries, as for `touch`.
        ensures kept { (k : ℕ) → block_at k self.new.entries ≡ block_at k self.old.entries }
        ensures same { (k : ℕ) → has k (numbers self.new.entries) ≡ has k (numbers self.old.entries) }
        ensures holds { (f : List ℕ) → Holds f self.old → Holds f self.new }
        ensures led { IsLed (numbers self.new.entries) (first_block first) (blocks first (length out.old)) }
    {
        self.touch(file_length, first, out.len())?;
        self.copy_at(first, out);
        Ok(())
    }

    /// Copies the bytes from `first` on into `out`, where all blocks that they touch are there. Returns whether they
    /// are. Where they aren't, it leaves `out` as it was. The order of the blocks stays.
    pub fn copy_present(&self, first: u64, out: &mut [u8]) -> bool
        requires some { 0 < length out.old }
        requires within { first + length out.old < 2 ^ 64 }
        ensures exact { result ≡ (missing (numbers self.now.entries) (first_block first) (blocks first (length out.old)) == 0) }
        ensures slice { IsTrue result → (f : List ℕ) → first + length out.old ≤ length f → Holds f self.now →
            out.new ≡ slice_range f first (first + length out.old) }
        ensures missed { result ≡ false → out.new ≡ out.old }
    {
        let from = first / BLOCK_SIZE;
        let to = (first + out.len() as u64 - 1) / BLOCK_SIZE + 1;
        if self.present(from, to) < to - from {
            return false;
        }
        self.copy_at(first, out);
        true
    }

    /// Returns the bytes from `first` on that stand in one block, at most `len`. Returns none where that block isn't
    /// there.
    #[tactic(auto, unfolding(crate::specs::Cache::bytes_at))]
    pub fn piece_at(&self, first: u64, len: usize) -> &[u8]
        requires { first + len < 2 ^ 64 }
        ensures few { length result.now ≤ len }
        ensures long { length result.now ≡ left_in (block_at (first / BLOCK_SIZE) self.now.entries) (first % BLOCK_SIZE) len }
        ensures piece { result.now ≡ bytes_at self.now first (length result.now) }
    {
        piece(&self.blocks, first, len)
    }

    /// Stores the missing blocks that lie wholly in a piece of the file and wholly in `wanted`, in ascending order.
    /// Returns how many it stored. Where the cache is full, each replaces the least recently used block. Fails with
    /// `Memory` alone. Then only the first of these blocks are stored, or none. It never fails where the piece brings
    /// no missing block.
    ///
    /// `file_length` is the length of the file in bytes. The piece begins at `first`, lies in the file, and may be
    /// empty.
    pub fn put(
        &mut self,
        file_length: u64,
        first: u64,
        bytes: &[u8],
        wanted: Span,
    ) -> Result<u32, Memory>
        requires within { first + length bytes.now ≤ file_length }

        // Their number fits.
        requires counted { stores self.old.capacity (whole_blocks file_length first bytes.now wanted) self.old.entries < 2 ^ 32 }
        ensures sound { IsSound self.old }
        ensures ok { IfOk result (λ count. let new = whole_blocks file_length first bytes.now wanted in
            (self.new ≡ record self.old { entries = stored self.old.capacity new self.old.entries })
            × (count ≡ stores self.old.capacity new self.old.entries)) }
        ensures err { OnErr result (let new = whole_blocks file_length first bytes.now wanted in
            (k : ℕ) × (k < length new)
            × (self.new ≡ record self.old { entries = stored self.old.capacity (take k new) self.old.entries })) }
        ensures sure { stores self.old.capacity (whole_blocks file_length first bytes.now wanted) self.old.entries ≡ 0 → IsOk result }

        // These follow from the entries. Each block is still the file's. The last clause is about new blocks, none of
        // which is there, and a range whose blocks lead. Where the new ones have room beside the range's blocks that
        // are there, no block of the range leaves. Unless the call fails, the new ones are there then.
        ensures holds { (f : List ℕ) → file_length ≡ length f → IsPieceOf f first bytes.now → Holds f self.old → Holds f self.new }
        ensures stays { let new = whole_blocks file_length first bytes.now wanted in let there = numbers self.old.entries in
            (n count : ℕ) → AreGone there (numbers new) → count - missing there n count + length new ≤ self.old.capacity →
            IsLed there n count →
            MatchResult result (λ _. Stays there (numbers self.new.entries) n count (numbers new))
            (λ _. Stays there (numbers self.new.entries) n count []) }
    {
        self.law();
        let (from, to) = whole_run(file_length, first, bytes.len() as u64, wanted);
        store(&mut self.blocks, file_length, first, bytes, from, to)
    }

    // Does nothing: its contract is a law of the blocks that are kept.
    fn law(&self)
        ensures { IsSound self.now }
    {
        let _count = self.blocks.len();
    }

    /// Drops every block.
    #[tactic(auto, unfolding(crate::specs::Cache::Holds))]
    pub fn clear(&mut self)
        ensures empty { self.new ≡ record self.old { entries = [] } }
        // Nothing is any file's.
        ensures holds { (f : List ℕ) → Holds f self.new }
    {
        self.blocks.clear();
    }

    /// Returns whether a block lies wholly in `wanted` and isn't there.
    ///
    /// `file_length` is the length of the file in bytes. A block that begins at the file's end or after it is none.
    pub fn wants(&self, file_length: u64, wanted: Span, block: u64) -> bool
        ensures { result ≡ is_wanted self.now file_length wanted block }
    {
        if block >= file_length.div_ceil(BLOCK_SIZE) || block * BLOCK_SIZE < wanted.first {
            return false;
        }
        last_of(block, file_length) <= wanted.last && !self.blocks.contains(&block)
    }

    /// Returns how many of the blocks from `from` on and before `to` are there.
    pub fn present(&self, from: u64, to: u64) -> u64
        requires { from ≤ to }
        ensures { result + missing (numbers self.now.entries) from (to - from) ≡ to - from }
    {
        count_present(&self.blocks, from, to)
    }

    /// Returns the end of the run of missing blocks that begins with block `from`, at most `to`. It is `from` itself
    /// where that block is there.
    pub fn run_end(&self, from: u64, to: u64) -> u64
        requires { from ≤ to }
        ensures { IsRunEnd (numbers self.now.entries) from to result }
    {
        end_of_run(&self.blocks, from, to)
    }

    /// Returns how many blocks it has at most, 66 to 4,096.
    pub fn capacity(&self) -> u32
        ensures exact { result ≡ self.now.capacity }
        ensures sound { IsSound self.now }
    {
        self.law();
        self.blocks.cap().get() as u32
    }
}
