//! The body of an answer that comes in pieces. Its blocks are stored as they become whole.
ghost use Rattle.std.specs.Prelude.{◌≡◌, ◌+◌, ◌-◌, ◌*◌, ◌<◌, ◌≤◌, ◌++◌, ℕ, List, [], IfOk, OnOk, OnErr, length, drop, take};
ghost use Rattle.extents.specs.declared.limits.TheConstants.{BLOCK_SIZE};
ghost use Rattle.http_range.specs.Announced.{announced, FitsFile};
ghost use Rattle.range_cache.specs.Cache.{stores, Blocks};
ghost use Rattle.range_cache.specs.Piece.{whole_blocks};
ghost use Rattle.cog_client.specs.Client.{IsFew};
ghost use Rattle.cog_client.specs.Body.{with_stored, Extends, IsBody, IsSeam, IsSoundBody, KeepsTail, PartsAreKept, Stops};

use extents::{BLOCK_SIZE, Memory};
use http_range::{Head, Span};
use range_cache::{Cache, law_parts_bring_blocks, law_pieces_bring_blocks, law_stores_are_counted};

/// The number of bytes in which a part of a block is kept.
pub const PART_ROOM: usize = BLOCK_SIZE as usize;

/// A body, as far as it has come.
#[derive(Clone, Copy)]
pub struct Body {
    /// The position of its next byte in the file, in bytes from 0.
    pub next: u64,
    /// The length of the file in bytes.
    pub complete: u64,
    /// How many bytes of it are still to come.
    pub left: u64,
    /// The byte range that is asked for.
    pub span: Span,
    /// Whether bytes are kept of the block in which it ends so far.
    pub keeps: bool,
    /// How many blocks were stored.
    pub count: u32,
}

/// Stores the blocks that are whole in `bytes`, and returns how many it stored. `first` is the position of the first
/// byte in the file.
fn store(
    cache: &mut Cache,
    complete: u64,
    first: u64,
    bytes: &[u8],
    span: Span,
) -> Result<u32, Memory>
    requires within { first + length bytes.now ≤ complete }
    requires few { IsFew span }
    ensures ok { IfOk result (λ count. let new = whole_blocks complete first bytes.now span in
        (cache.new ≡ with_stored new cache.old) × (count ≡ stores cache.old.capacity new cache.old.entries)) }
    ensures err { OnErr result (let new = whole_blocks complete first bytes.now span in
        (k : ℕ) × (k < length new) × (cache.new ≡ with_stored (take k new) cache.old)) }
    ensures capacity { cache.new.capacity ≡ cache.old.capacity }
{
    law_stores_are_counted();
    law_pieces_bring_blocks();
    cache.put(complete, first, bytes, span)
}

/// Copies `bytes` into `room`, from the place `at` on.
pub fn copy(room: &mut [u8], at: usize, bytes: &[u8])
    requires { at + length bytes.now ≤ length room.old }
    ensures copied { take (at + length bytes.now) room.new ≡ take at room.old ++ bytes.now }
    ensures room { length room.new ≡ length room.old }
{
    room[at..at + bytes.len()].copy_from_slice(bytes);
}

/// States that what is kept of a body is the part that the definition names.
pub fn law_parts_are_kept()
    ensures { PartsAreKept }
{}

impl Body {
    /// Returns the body that `head` announces, of which nothing came yet. `span` is asked for.
    pub fn new(head: &Head, span: Span) -> Body
        requires fits { FitsFile (announced head.now) }
        requires few { IsFew span }
        ensures sound { IsSoundBody result }
        ensures span { result.span ≡ span }
        ensures begins { (start : Blocks) (part : List ℕ) → IsBody (announced head.now) start [] result part start }
    {
        law_parts_bring_blocks();
        Body {
            next: head.first,
            complete: head.complete,
            left: head.length,
            span,
            keeps: false,
            count: 0,
        }
    }

    /// Takes the bytes that the block lacks in which the body ends so far, and returns the others.
    fn finish<'b>(
        &mut self,
        part: &mut [u8],
        cache: &mut Cache,
        bytes: &'b [u8],
    ) -> Result<&'b [u8], Memory>
        requires sound { IsSoundBody self.old }
        requires all { length bytes.now ≤ self.old.left }
        requires room { length part.old ≡ BLOCK_SIZE }
        ensures sound { IsSoundBody self.new }
        ensures span { self.new.span ≡ self.old.span }
        ensures room { length part.new ≡ BLOCK_SIZE }
        ensures ok { IfOk result (λ rest. (m : ℕ) × (rest.now ≡ drop m bytes.now) × (length rest.now ≤ self.new.left)
            × IsSeam self.new.next rest.now
            × Extends self.old part.old cache.old (take m bytes.now) self.new part.new cache.new) }
        ensures err { OnErr result (Stops self.old part.old cache.old bytes.now cache.new) }
        ensures capacity { cache.new.capacity ≡ cache.old.capacity }
    {
        law_parts_bring_blocks();
        law_stores_are_counted();
        law_pieces_bring_blocks();
        let begun = self.next % BLOCK_SIZE;
        if begun == 0 {
            return Ok(bytes);
        }
        let lacking = (BLOCK_SIZE - begun).min(self.complete - self.next);
        let count = lacking.min(bytes.len() as u64);
        let (more, rest) = bytes.split_at(count as usize);
        let start = self.next - begun;
        self.next += count;
        self.left -= count;
        if !self.keeps {
            return Ok(rest);
        }
        copy(part, begun as usize, more);
        if count == lacking {
            self.keeps = false;
            let stored = store(
                cache,
                self.complete,
                start,
                &part[..(begun + count) as usize],
                self.span,
            )?;
            self.count = self.count.saturating_add(stored);
        }
        Ok(rest)
    }

    /// Stores the blocks that are whole in `bytes`, which begin at the edge of a block. If the last block is cut and
    /// wanted, its bytes are kept.
    fn go_on(&mut self, part: &mut [u8], cache: &mut Cache, bytes: &[u8]) -> Result<(), Memory>
        requires sound { IsSoundBody self.old }
        requires all { length bytes.now ≤ self.old.left }
        requires room { length part.old ≡ BLOCK_SIZE }
        requires seam { IsSeam self.old.next bytes.now }
        ensures sound { IsSoundBody self.new }
        ensures span { self.new.span ≡ self.old.span }
        ensures room { length part.new ≡ BLOCK_SIZE }
        ensures ok { OnOk result (Extends self.old part.old cache.old bytes.now self.new part.new cache.new) }
        ensures err { OnErr result (Stops self.old part.old cache.old bytes.now cache.new) }
        ensures capacity { cache.new.capacity ≡ cache.old.capacity }
    {
        law_parts_bring_blocks();
        law_stores_are_counted();
        law_pieces_bring_blocks();
        if bytes.is_empty() {
            return Ok(());
        }
        let count = store(cache, self.complete, self.next, bytes, self.span)?;
        self.count = self.count.saturating_add(count);
        self.next += bytes.len() as u64;
        self.left -= bytes.len() as u64;
        self.keep(part, cache, bytes);
        Ok(())
    }

    /// Keeps the bytes of the block in which the body ends so far, if it is wanted and isn't whole.
    fn keep(&mut self, part: &mut [u8], cache: &Cache, bytes: &[u8])
        requires room { length part.old ≡ BLOCK_SIZE }
        requires edge { (n : ℕ) × (self.old.next ≡ n * BLOCK_SIZE + length bytes.now) }
        ensures room { length part.new ≡ BLOCK_SIZE }
        ensures same { self.new ≡ record self.old { keeps = self.new.keeps } }
        ensures tail { KeepsTail bytes.now self.new part.new cache.now }
    {
        let begun = self.next % BLOCK_SIZE;
        self.keeps = begun > 0
            && self.next < self.complete
            && cache.wants(self.complete, self.span, self.next / BLOCK_SIZE);
        if self.keeps {
            copy(part, 0, &bytes[bytes.len() - begun as usize..]);
        }
    }

    /// Takes the next bytes of the answer, and stores the blocks that become whole. `part` has 16,384 bytes, and keeps
    /// a block that is cut. Fails with `Memory` alone. Then only the first of these blocks are stored, or none.
    pub fn take(&mut self, part: &mut [u8], cache: &mut Cache, bytes: &[u8]) -> Result<(), Memory>
        requires sound { IsSoundBody self.old }
        requires room { length part.old ≡ BLOCK_SIZE }
        ensures sound { IsSoundBody self.new }
        ensures span { self.new.span ≡ self.old.span }
        ensures room { length part.new ≡ BLOCK_SIZE }
        ensures ok { OnOk result (Extends self.old part.old cache.old (take self.old.left bytes.now) self.new part.new cache.new) }
        ensures err { OnErr result (Stops self.old part.old cache.old (take self.old.left bytes.now) cache.new) }
        ensures capacity { cache.new.capacity ≡ cache.old.capacity }
    {
        let count = self.left.min(bytes.len() as u64);
        let rest = self.finish(part, cache, &bytes[..count as usize])?;
        self.go_on(part, cache, rest)
    }
}
