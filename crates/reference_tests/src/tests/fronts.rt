//! The fixtures, whole and cut.
use super::beside::compare;
use fixtures_support::{f1, f1m, f2, f2b, f3, f4, f5, f6, f6m};
use std::process::Abort;
use std::test::Fail;

/// Compares the walks over the file, and over each front of it of up to 400 bytes.
fn compare_fronts<R: Abort + AllocGlobal>(rt: &R, file: &[u8]) -> Result<(), Fail> {
    assert!(rt;
        compare(rt, file, "the whole file")?,
        "a fixture is refused"
    );
    for len in 0..file.len().min(401) {
        let name = format!(in rt.alloc(); "the first {len} bytes")?;
        compare(rt, &file[..len], &name)?;
    }
    Ok(())
}

#[test]
fn agrees_on_fronts_of_one_tile(rt: HostRuntime) -> Result<(), Fail> {
    compare_fronts(&rt, &f1(rt.alloc())?)?;
    compare_fronts(&rt, &f1m(rt.alloc())?)
}

#[test]
fn agrees_on_fronts_of_many_tiles(rt: HostRuntime) -> Result<(), Fail> {
    compare_fronts(&rt, &f2(rt.alloc())?)?;
    compare_fronts(&rt, &f2b(rt.alloc())?)?;
    compare_fronts(&rt, &f5(rt.alloc())?)
}

#[test]
fn agrees_on_fronts_of_two_levels(rt: HostRuntime) -> Result<(), Fail> {
    compare_fronts(&rt, &f3(rt.alloc())?)
}

#[test]
fn agrees_on_fronts_of_three_samples(rt: HostRuntime) -> Result<(), Fail> {
    compare_fronts(&rt, &f4(rt.alloc())?)
}

#[test]
fn agrees_on_fronts_of_16_bits(rt: HostRuntime) -> Result<(), Fail> {
    compare_fronts(&rt, &f6(rt.alloc())?)?;
    compare_fronts(&rt, &f6m(rt.alloc())?)
}
