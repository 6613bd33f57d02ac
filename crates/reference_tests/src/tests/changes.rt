//! Fixtures with one to three changed bytes.
use super::beside::compare;
use fixtures_support::{Numbers, f1, f1m, f3, f4, f6, f6m};
use std::process::Abort;
use std::test::Fail;

/// Compares walks over `files` files, each with one to three of the fixture's first 400 bytes changed. Returns how many walks ended.
fn compare_changed<R: Abort + AllocGlobal>(
    rt: &R,
    fixture: &[u8],
    seed: u64,
    files: u32,
) -> Result<u32, Fail> {
    let mut numbers = Numbers::new(seed);
    let mut ended = 0u32;
    for n in 0..files {
        let mut file = Vec::from_slice(rt.alloc(), fixture)?;
        for _ in 0..1 + numbers.below(3) {
            let at = numbers.below(400);
            if let Some(byte) = file.get_mut(at) {
                *byte = numbers.byte();
            }
        }
        let name = format!(in rt.alloc(); "file {n} of seed {seed}")?;
        if compare(rt, &file, &name)? {
            ended = ended.saturating_add(1);
        }
    }
    Ok(ended)
}

/// Expects that of the walks over `files` changed files some end, and some don't.
fn expect_both<R: Abort + AllocGlobal>(
    rt: &R,
    fixture: &[u8],
    seed: u64,
    files: u32,
) -> Result<(), Fail> {
    let ended = compare_changed(rt, fixture, seed, files)?;
    assert!(rt;
        0 < ended && ended < files,
        "seed {seed}: {ended} of {files} walks ended"
    );
    Ok(())
}

#[test]
fn agrees_on_changed_files_of_one_tile(rt: HostRuntime) -> Result<(), Fail> {
    expect_both(&rt, &f1(rt.alloc())?, 1, 200)?;
    expect_both(&rt, &f1m(rt.alloc())?, 2, 200)
}

#[test]
fn agrees_on_changed_files_of_two_levels(rt: HostRuntime) -> Result<(), Fail> {
    expect_both(&rt, &f3(rt.alloc())?, 3, 250)
}

#[test]
fn agrees_on_changed_files_of_three_samples(rt: HostRuntime) -> Result<(), Fail> {
    expect_both(&rt, &f4(rt.alloc())?, 4, 200)
}

#[test]
fn agrees_on_changed_files_of_16_bits(rt: HostRuntime) -> Result<(), Fail> {
    expect_both(&rt, &f6(rt.alloc())?, 5, 120)?;
    expect_both(&rt, &f6m(rt.alloc())?, 6, 120)
}
