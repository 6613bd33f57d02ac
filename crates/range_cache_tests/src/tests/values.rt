//! Worked values.
use super::piece::{piece, put, read};
use assertion_support::expect_eq;
use range_cache::{Cache, CacheError, Missing};
use std::test::Fail;
use tiff_dir::Span;

const COMPLETE: u64 = 67706;

#[test]
fn takes_66_to_4096_blocks(rt: HostRuntime) {
    for (blocks, fits) in [
        (0, false),
        (65, false),
        (66, true),
        (4096, true),
        (4097, false),
        (u32::MAX, false),
    ] {
        match Cache::new(rt.alloc(), blocks) {
            Ok(_) => assert!(rt; fits, "{blocks}"),
            Err(why) => assert!(rt; !fits && why == CacheError::Blocks, "{blocks}"),
        }
    }
}

/// A row has the first byte and the length of a piece, and the first and the last byte that are wanted. Then comes how many blocks are
/// stored.
const PIECES: [(u64, usize, u64, u64, u32); 12] = [
    (65536, 2170, 65536, 67705, 1),
    (65536, 2169, 65536, 67705, 0),
    (65536, 2170, 65536, 67704, 0),
    (65536, 2170, 65537, 67705, 0),
    (65536, 2170, 0, 1000000, 1),
    (0, 16383, 0, 65535, 0),
    (0, 16384, 0, 65535, 1),
    (0, 32768, 1, 65535, 1),
    (1, 65535, 0, 65535, 3),
    (0, 67706, 0, 67705, 5),
    (0, 0, 0, 65535, 0),
    (67706, 0, 0, 67705, 0),
];

#[test]
fn stores_whole_wanted_blocks_alone(rt: HostRuntime) -> Result<(), Fail> {
    let alloc = rt.alloc();
    for (first, len, wanted_first, wanted_last, stored) in PIECES {
        assert!(rt; first <= COMPLETE && len as u64 <= COMPLETE - first);
        assert!(rt; wanted_first <= wanted_last && wanted_last <= 1000000);
        let wanted = Span {
            first: wanted_first,
            last: wanted_last,
        };
        let mut cache = Cache::new(alloc, 66).ok().ok_or("no cache")?;
        let bytes = piece(alloc, first, len)?;
        let count = put(&mut cache, COMPLETE, first, &bytes, wanted).ok();
        expect_eq!(rt; count, Some(stored), "{len} bytes from {first}");
        let again = put(&mut cache, COMPLETE, first, &bytes, wanted).ok();
        expect_eq!(rt; again, Some(0), "{len} bytes from {first} again");
    }
    Ok(())
}

#[test]
fn tells_the_first_gap(rt: HostRuntime) -> Result<(), Fail> {
    let alloc = rt.alloc();
    let mut cache = Cache::new(alloc, 66).ok().ok_or("no cache")?;
    let mut out = vec![in alloc; 0u8; 49152]?;
    let mut end = vec![in alloc; 0u8; 7706]?;
    expect_eq!(rt; (out.len(), end.len()), (49152, 7706));

    let gap = read(&mut cache, COMPLETE, 60000, &mut end).err();
    expect_eq!(rt;
        gap,
        Some(Missing {
            first: 49152,
            last: 67705
        })
    );

    let wanted = Span {
        first: 0,
        last: 16383,
    };
    let count = put(&mut cache, COMPLETE, 0, &piece(alloc, 0, 16384)?, wanted);
    expect_eq!(rt; count.ok(), Some(1));
    let wanted = Span {
        first: 32768,
        last: 49151,
    };
    let count = put(
        &mut cache,
        COMPLETE,
        32768,
        &piece(alloc, 32768, 16384)?,
        wanted,
    );
    expect_eq!(rt; count.ok(), Some(1));
    let gap = read(&mut cache, COMPLETE, 0, &mut out).err();
    expect_eq!(rt;
        gap,
        Some(Missing {
            first: 16384,
            last: 32767
        })
    );

    let whole = Span {
        first: 0,
        last: 67705,
    };
    assert!(rt; cache.wants(COMPLETE, whole, 4) && !cache.wants(COMPLETE, whole, 2));
    Ok(())
}

#[test]
fn reads_until_it_is_cleared(rt: HostRuntime) -> Result<(), Fail> {
    let alloc = rt.alloc();
    let mut cache = Cache::new(alloc, 66).ok().ok_or("no cache")?;
    let mut out = vec![in alloc; 0u8; 18707]?;
    let whole = Span {
        first: 0,
        last: 67705,
    };
    let bytes = piece(alloc, 0, 67706)?;
    expect_eq!(rt; (out.len(), bytes.len()), (18707, 67706));
    expect_eq!(rt; put(&mut cache, COMPLETE, 0, &bytes, whole).ok(), Some(5));
    assert!(rt; read(&mut cache, COMPLETE, 48999, &mut out).is_ok());
    assert_eq!(rt; out.as_slice(), &bytes[48999..]);
    assert!(rt; !cache.wants(COMPLETE, whole, 2));
    cache.clear();
    assert!(rt; cache.wants(COMPLETE, whole, 2));
    assert!(rt; read(&mut cache, COMPLETE, 48999, &mut out).is_err());
    Ok(())
}

#[test]
fn copies_what_the_blocks_have(rt: HostRuntime) -> Result<(), Fail> {
    let alloc = rt.alloc();
    let mut cache = Cache::new(alloc, 66).ok().ok_or("no cache")?;
    let bytes = piece(alloc, 0, 67706)?;
    let wanted = Span {
        first: 16384,
        last: 67705,
    };
    expect_eq!(rt; bytes.len(), 67706);
    expect_eq!(rt; put(&mut cache, COMPLETE, 0, &bytes, wanted).ok(), Some(4));
    assert!(rt; cache.touch(COMPLETE, 16384, 51322).is_ok());
    let mut out = [1u8; 300];
    cache.copy_at(32600, &mut out);
    assert_eq!(rt; out.as_slice(), &bytes[32600..32900]);
    cache.copy_at(16300, &mut out);
    let mut expected = vec![in alloc; 0u8; 84]?;
    expected.extend_from_slice(&bytes[16384..16600])?;
    assert_eq!(rt; out.as_slice(), expected.as_slice());
    cache.copy_at(67600, &mut out);
    let mut expected = Vec::from_slice(alloc, &bytes[67600..])?;
    expected.extend_from_slice(&[0u8; 194])?;
    assert_eq!(rt; out.as_slice(), expected.as_slice());
    let gap = cache.touch(COMPLETE, 16383, 2).err();
    expect_eq!(rt;
        gap,
        Some(Missing {
            first: 0,
            last: 16383
        })
    );
    Ok(())
}

#[test]
fn wants_no_block_at_the_end(rt: HostRuntime) -> Result<(), Fail> {
    let mut cache = Cache::new(rt.alloc(), 66).ok().ok_or("no cache")?;
    let wanted = Span {
        first: 0,
        last: 65535,
    };
    for (complete, blocks) in [(0, 0), (1, 1), (16384, 1), (16385, 2), (32768, 2)] {
        for block in 0..4 {
            expect_eq!(rt;
                cache.wants(complete, wanted, block),
                block < blocks,
                "{block} of {complete}"
            );
        }
        expect_eq!(rt;
            put(&mut cache, complete, complete, &[], wanted).ok(),
            Some(0)
        );
    }
    Ok(())
}

/// A row has the first byte and the length of a range, and whether blocks 0 and 2 have it.
const COPIES: [(u64, usize, bool); 10] = [
    (0, 1, true),
    (0, 16384, true),
    (0, 16385, false),
    (16383, 1, true),
    (16383, 2, false),
    (16384, 1, false),
    (32767, 2, false),
    (32768, 16384, true),
    (49151, 2, false),
    (67705, 1, false),
];

#[test]
fn copies_what_is_present(rt: HostRuntime) -> Result<(), Fail> {
    let alloc = rt.alloc();
    let mut cache = Cache::new(alloc, 66).ok().ok_or("no cache")?;
    for (first, last) in [(0, 16383), (32768, 49151)] {
        let bytes = piece(alloc, first, 16384)?;
        let count = put(&mut cache, COMPLETE, first, &bytes, Span { first, last });
        expect_eq!(rt; count.ok(), Some(1));
    }
    for (first, len, copied) in COPIES {
        assert!(rt; 0 < len && len <= 16385 && first < COMPLETE);
        let mut out = vec![in alloc; 7u8; len]?;
        let untouched = vec![in alloc; 7u8; len]?;
        let bytes = piece(alloc, first, len)?;
        assert!(rt; out.len() == len);
        expect_eq!(rt; cache.copy_present(first, &mut out), copied, "{len} bytes from {first}");
        let want = if copied {
            bytes.as_slice()
        } else {
            untouched.as_slice()
        };
        assert_eq!(rt; out.as_slice(), want, "{len} bytes from {first}");
    }
    Ok(())
}
