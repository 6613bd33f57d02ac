//! Where memory is refused in the middle of a piece, a beginning of its blocks is stored, each whole. The test passes with ample memory,
//! and wherever one allocation is refused.
ghost use Rattle.std.specs.Prelude.{◌≡◌, IfOk, vec_len};

use super::piece::{piece, put, read};
use assertion_support::expect_eq;
use range_cache::{Cache, CacheError};
use std::alloc::{AllocError, Global};
use std::process::Abort;
use std::test::Fail;
use tiff_dir::{Memory, Span};

/// The length of a file of four whole blocks, and a last one of 2,170 bytes.
const COMPLETE: u64 = 67706;

const ALL: Span = Span {
    first: 0,
    last: 67705,
};

/// Makes a cache of 66 blocks. Makes it again where memory was refused.
fn cache_again(alloc: Global) -> Result<Cache, CacheError> {
    match Cache::new(alloc, 66) {
        Err(_) => Cache::new(alloc, 66),
        Ok(cache) => Ok(cache),
    }
}

/// Returns all bytes of the file. Makes them again where memory was refused.
fn file_again(alloc: Global) -> Result<Vec<u8>, AllocError>
    ensures { IfOk result (λ v. vec_len v ≡ 67706) }
{
    match piece(alloc, 0, 67706) {
        Err(AllocError) => piece(alloc, 0, 67706),
        Ok(file) => Ok(file),
    }
}

/// A row has the first position of a block, and its length.
const BLOCKS: [(usize, usize); 5] = [
    (0, 16384),
    (16384, 16384),
    (32768, 16384),
    (49152, 16384),
    (65536, 2170),
];

/// Returns how many of the file's blocks are there, from the first on. Expects that no other one is, and that each has its bytes.
fn blocks_there<R: Abort>(rt: &R, cache: &mut Cache, file: &[u8]) -> usize {
    let mut count = 0usize;
    let mut room = [0u8; 16384];
    for (number, (first, len)) in BLOCKS.iter().copied().enumerate() {
        assert!(rt; first <= 65536 && 0 < len && len <= 16384 && first + len <= 67706);
        if read(cache, COMPLETE, first as u64, &mut room[..len]).is_ok() {
            expect_eq!(rt; count, number);
            assert_eq!(rt;
                room.get(..len),
                file.get(first..first + len),
                "block {number}"
            );
            count = count.saturating_add(1);
        }
    }
    count
}

#[test]
fn stores_a_beginning_of_the_blocks_where_memory_is_refused(rt: HostRuntime) -> Result<(), Fail> {
    let mut cache = cache_again(rt.alloc()).ok().ok_or("no cache")?;
    let file = file_again(rt.alloc())?;
    let stored = put(&mut cache, COMPLETE, 0, &file, ALL);
    let there = blocks_there(&rt, &mut cache, &file);
    match stored {
        Ok(count) => expect_eq!(rt; (count, there), (5, 5)),
        Err(Memory) => {
            assert!(rt; there < 5);
            let count = put(&mut cache, COMPLETE, 0, &file, ALL)?;
            expect_eq!(rt; there.saturating_add(count as usize), 5);
            expect_eq!(rt; blocks_there(&rt, &mut cache, &file), 5);
        }
    }
    Ok(())
}
