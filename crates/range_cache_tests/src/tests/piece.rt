//! A file whose bytes are all known, and pieces of it.
ghost use Rattle.std.specs.Prelude.{◌≡◌, ◌+◌, ◌<◌, ◌≤◌, ◌^◌, IfOk, vec_len, length};

use range_cache::{Cache, Missing, law_pieces_bring_blocks, law_stores_are_counted};
use std::alloc::{AllocError, Global};
use tiff_dir::{Memory, Span};

/// Returns the byte at a place. Neighbours differ, and so do the same places of neighbouring blocks.
fn byte_at(place: u64) -> u8 {
    (place % 251) as u8 ^ (place / 16384 % 256) as u8
}

/// Returns the `len` bytes from `first` on.
pub fn piece(alloc: Global, first: u64, len: usize) -> Result<Vec<u8>, AllocError>
    requires { first + len < 2 ^ 63 }
    ensures { IfOk result (λ v. vec_len v ≡ len) }
{
    let mut bytes = Vec::with_capacity(alloc, len)?;
    for i in 0..len {
        bytes.push(byte_at(first + i as u64))?;
    }
    Ok(bytes)
}

/// Puts a piece, of which no more than some 2^26 blocks can be wanted.
pub fn put(
    cache: &mut Cache,
    complete: u64,
    first: u64,
    bytes: &[u8],
    wanted: Span,
) -> Result<u32, Memory>
    requires within { first + length bytes.now ≤ complete }
    requires near { wanted.last < 2 ^ 40 }
{
    law_stores_are_counted();
    law_pieces_bring_blocks();
    cache.put(complete, first, bytes, wanted)
}

/// Reads the bytes from `first` on where the cache has them all. Otherwise returns what is missing.
pub fn read(cache: &mut Cache, complete: u64, first: u64, out: &mut [u8]) -> Result<(), Missing>
    requires some { 0 < length out.old }
    requires within { first + length out.old ≤ complete }
{
    cache.read_into(complete, first, out)
}
