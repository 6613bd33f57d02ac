//! The bytes of a range that a cache has.
ghost use Rattle.std.specs.Prelude.{◌≡◌, ◌+◌, ◌-◌, ◌/◌, ◌%◌, ◌<◌, ◌^◌};
ghost use Rattle.extents.specs.declared.limits.TheConstants.{BLOCK_SIZE};
ghost use Rattle.range_cache.specs.Cache.{block_at, bytes_at, left_in};

use crate::Bytes;
use range_cache::Cache;

/// The `len` bytes of a file from position `first` on, as the blocks of a cache have them.
#[derive(Drop)]
pub struct HeldRange<'a> {
    pub cache: &'a Cache,
    pub first: u64,
    pub len: usize,
    ghost fits: { first + len < 2 ^ 64 },
}

impl<'a> HeldRange<'a> {
    /// Returns the `len` bytes from position `first` on.
    pub fn new(cache: &'a Cache, first: u64, len: usize) -> HeldRange<'a>
        requires { first + len < 2 ^ 64 }
        ensures cache { result.cache.now ≡ cache.now }
        ensures place { (result.first ≡ first) × (result.len ≡ len) }
    {
        HeldRange { cache, first, len }
    }
}

impl Bytes for HeldRange<'_> {
    ghost bytes = { λ r. bytes_at r.cache.now r.first r.len };

    // As many bytes as the block has from there on.
    ghost piece_len = { λ r at.
        left_in (block_at ((r.first + at) / BLOCK_SIZE) r.cache.now.entries) ((r.first + at) % BLOCK_SIZE) (r.len - at) };

    ghost room_needed = { λ r. r.len };

    fn len(&self) -> usize {
        self.len
    }

    fn copy_to(&self, at: usize, out: &mut [u8]) {
        self.cache.copy_at(self.first + at as u64, out);
    }

    fn piece_at(&self, at: usize) -> &[u8] {
        self.cache.piece_at(self.first + at as u64, self.len - at)
    }

    fn part_at<'a>(&'a self, at: usize, len: usize, room: &'a mut [u8]) -> &'a [u8] {
        let piece = self.piece_at(at);
        if piece.len() >= len {
            return &piece[..len];
        }
        let out = &mut room[..len];
        self.copy_to(at, out);
        out
    }
}
