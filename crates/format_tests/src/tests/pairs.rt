//! Pairs of bytes that are exchanged.
use std::alloc::{AllocError, Global};
use std::test::Fail;
use tile_plan::swap_pairs;

/// Returns `len` bytes, each with the value of its position.
fn places(alloc: Global, len: u8) -> Result<Vec<u8>, AllocError> {
    let mut bytes = Vec::new(alloc);
    for i in 0..len {
        bytes.push(i)?;
    }
    Ok(bytes)
}

/// Returns the same bytes, with those of each pair exchanged.
fn exchanged(alloc: Global, len: u8) -> Result<Vec<u8>, AllocError> {
    let mut bytes = Vec::new(alloc);
    for i in 0..len {
        bytes.push(if i == len - 1 && i % 2 == 0 { i } else { i ^ 1 })?;
    }
    Ok(bytes)
}

#[test]
fn exchanges_each_pair(rt: HostRuntime) -> Result<(), Fail> {
    for len in [0u8, 2, 30, 32, 34, 66, 33] {
        let mut bytes = places(rt.alloc(), len)?;
        let want = exchanged(rt.alloc(), len)?;
        swap_pairs(&mut bytes);
        assert_eq!(rt; bytes.as_slice(), want.as_slice(), "{len}");
    }
    let mut bytes = *b"\x12\x80\x13\x80\x14\x80";
    swap_pairs(&mut bytes);
    assert_eq!(rt; bytes.as_slice(), b"\x80\x12\x80\x13\x80\x14".as_slice());
    Ok(())
}
