//! Tiles that are kept unpacked: which one is found, which one leaves, and how many bytes they have together.
use assertion_support::expect_eq;
use std::alloc::{AllocError, Global};
use std::test::Fail;
use tiff_dir::{Codec, Memory};
use tile_plan::TileCache;

/// Makes `size` bytes of a tile, all of the value `value`. Makes them again where memory was refused.
fn plain_again(alloc: Global, value: u8, size: usize) -> Result<Vec<u8>, AllocError> {
    match vec![in alloc; value; size] {
        Err(AllocError) => vec![in alloc; value; size],
        Ok(plain) => Ok(plain),
    }
}

/// Keeps a tile of `size` bytes, all of the value `value`, in rows of four. Its six packed bytes begin at `first`.
fn keep(
    alloc: Global,
    tiles: &mut TileCache,
    first: u32,
    value: u8,
    size: usize,
) -> Result<(), Memory> {
    let mut plain = vec![in alloc; value; size]?;
    tiles.keep(Codec::PackBits, first, 6, 4, &mut plain)
}

/// Returns whether such a tile of four bytes is kept.
fn has(tiles: &TileCache, first: u32) -> bool {
    tiles.find(Codec::PackBits, first, 6, 4, 4).is_some()
}

#[test]
fn finds_a_tile_by_its_place_and_form(rt: HostRuntime) -> Result<(), Fail> {
    let mut tiles = TileCache::new(rt.alloc(), 100);
    keep(rt.alloc(), &mut tiles, 10, 7, 8)?;
    expect_eq!(rt; tiles.find(Codec::PackBits, 10, 6, 4, 8), Some([7u8; 8].as_slice()));
    for (first, len, row, size) in [(11, 6, 4, 8), (10, 5, 4, 8), (10, 6, 8, 8), (10, 6, 4, 4)] {
        expect_eq!(rt; tiles.find(Codec::PackBits, first, len, row, size), None);
    }
    Ok(())
}

#[test]
fn lets_the_tile_go_that_was_used_longest_ago(rt: HostRuntime) -> Result<(), Fail> {
    let mut tiles = TileCache::new(rt.alloc(), 11);
    keep(rt.alloc(), &mut tiles, 10, 1, 4)?;
    keep(rt.alloc(), &mut tiles, 20, 2, 4)?;
    expect_eq!(rt; (has(&tiles, 10), has(&tiles, 20)), (true, true));
    tiles.promote(10);
    tiles.promote(40);
    keep(rt.alloc(), &mut tiles, 30, 3, 4)?;
    expect_eq!(rt; (has(&tiles, 10), has(&tiles, 20), has(&tiles, 30)), (true, false, true));
    tiles.no_more_is_kept();
    Ok(())
}

#[test]
fn keeps_another_tile_of_a_place_in_its_stead(rt: HostRuntime) -> Result<(), Fail> {
    let mut tiles = TileCache::new(rt.alloc(), 8);
    keep(rt.alloc(), &mut tiles, 10, 1, 4)?;
    let mut plain = vec![in rt.alloc(); 2u8; 4]?;
    tiles.keep(Codec::PackBits, 10, 5, 2, &mut plain)?;
    expect_eq!(rt; plain.len(), 4);
    expect_eq!(rt; tiles.find(Codec::PackBits, 10, 5, 2, 4), Some([2u8; 4].as_slice()));
    expect_eq!(rt; has(&tiles, 10), false);
    Ok(())
}

#[test]
fn keeps_tiles_of_one_size(rt: HostRuntime) -> Result<(), Fail> {
    let mut tiles = TileCache::new(rt.alloc(), 8);
    keep(rt.alloc(), &mut tiles, 10, 1, 4)?;
    keep(rt.alloc(), &mut tiles, 20, 2, 9)?;
    keep(rt.alloc(), &mut tiles, 30, 3, 0)?;
    expect_eq!(rt; (has(&tiles, 10), tiles.find(Codec::PackBits, 20, 6, 4, 9), tiles.find(Codec::PackBits, 30, 6, 4, 0)), (true, None, None));
    keep(rt.alloc(), &mut tiles, 40, 4, 8)?;
    expect_eq!(rt; has(&tiles, 10), false);
    expect_eq!(rt; tiles.find(Codec::PackBits, 40, 6, 4, 8), Some([4u8; 8].as_slice()));
    Ok(())
}

#[test]
fn has_the_room_of_the_window_before(rt: HostRuntime) -> Result<(), Fail> {
    let mut tiles = TileCache::new(rt.alloc(), 8);
    tiles.give_room(vec![in rt.alloc(); 9u8; 4]?);
    assert_eq!(rt; tiles.take_room(4)?.as_slice(), [9u8; 4].as_slice());
    assert_eq!(rt; tiles.take_room(4)?.as_slice(), [0u8; 4].as_slice());
    tiles.give_room(vec![in rt.alloc(); 9u8; 4]?);
    assert_eq!(rt; tiles.take_room(5)?.as_slice(), [0u8; 5].as_slice());
    Ok(())
}

#[test]
fn keeps_a_tile_or_lacks_memory(rt: HostRuntime) -> Result<(), Fail> {
    let mut tiles = TileCache::new(rt.alloc(), 4);
    let mut plain = plain_again(rt.alloc(), 1, 4)?;
    if tiles.keep(Codec::PackBits, 10, 6, 4, &mut plain).is_err() {
        expect_eq!(rt; (has(&tiles, 10), plain.len()), (false, 4));
        tiles.keep(Codec::PackBits, 10, 6, 4, &mut plain)?;
    }
    expect_eq!(rt; has(&tiles, 10), true);
    Ok(())
}
