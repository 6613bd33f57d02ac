//! Files that end early.
use assertion_support::expect_eq;
use cog_reader::{Outcome, read_file};
use cog_reader_support::{Fixture, Want, is_wanted, of_level};
use std::process::Abort;
use std::test::Fail;
use tiff_dir::{FileFault, Query};

#[test]
fn tells_past_end_of_every_front(rt: HostRuntime) -> Result<(), Fail> {
    let file = Fixture::F1.file(rt.alloc())?;
    expect_eq!(rt; file.len(), 378);
    for len in 0..file.len() {
        for query in [of_level(2, 1, 3, 2, 0), of_level(0, 0, 1, 1, 0)] {
            let outcome = read_file(rt.alloc(), &file[..len], query);
            let outcome = outcome.ok().ok_or("no memory")?;
            let want = Want::Fault(FileFault::PastEnd);
            assert!(rt; is_wanted(Some(&outcome), want), "at {len}: {outcome:?}");
        }
    }
    Ok(())
}

/// Expects the outcome of Info. It is a fault up to where the tiles begin, and that of the whole file from there on.
fn expect_info(rt: &(impl Abort + AllocGlobal), front: &[u8], whole: &Outcome) -> Result<(), Fail> {
    let outcome = read_file(rt.alloc(), front, Query::Info);
    let outcome = outcome.ok().ok_or("no memory")?;
    let is_expected = if front.len() < 400 {
        outcome == Outcome::Fault(FileFault::PastEnd)
    } else {
        outcome == *whole
    };
    assert!(rt; is_expected, "at {}: {outcome:?}", front.len());
    Ok(())
}

/// Expects that Info doesn't need the tiles.
#[test]
fn tells_info_without_the_tiles(rt: HostRuntime) -> Result<(), Fail> {
    let file = Fixture::F3.file(rt.alloc())?;
    expect_eq!(rt; file.len(), 1456);
    let whole = read_file(rt.alloc(), &file, Query::Info);
    let whole = whole.ok().ok_or("no memory")?;
    assert!(rt; matches!(&whole, Outcome::Info(_)), "{whole:?}");
    for len in 0..file.len() {
        expect_info(&rt, &file[..len], &whole)?;
    }
    Ok(())
}
