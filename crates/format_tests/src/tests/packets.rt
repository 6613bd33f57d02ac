//! Random packets by a fixed generator, beside the plain program's unpacking.
ghost use Rattle.std.specs.Prelude.{◌<◌, ◌≤◌, IfOk};

use fixtures_support::Numbers;
use packbits::unpack;
use std::alloc::{AllocError, Global};
use std::process::Abort;
use std::test::Fail;
use tiff_dir::FileFault;

/// Appends a packet that stands for up to `room` bytes. Returns for how many it stands.
fn push_packet(bytes: &mut Vec<u8>, numbers: &mut Numbers, room: usize) -> Result<usize, AllocError>
    requires { 0 < room }
    ensures { IfOk result (λ n. n ≤ room) }
{
    let most = room.min(128);
    let count = 1 + numbers.below(most);
    if numbers.below(8) == 0 {
        bytes.push(128)?;
        return Ok(0);
    }
    if count > 1 && numbers.below(2) == 0 {
        bytes.push((257 - count) as u8)?;
        bytes.push(numbers.byte())?;
        return Ok(count);
    }
    bytes.push((count - 1) as u8)?;
    for _ in 0..count {
        bytes.push(numbers.byte())?;
    }
    Ok(count)
}

/// Returns packets of `rows` rows. One time in three, at random, a byte is changed, left out or added.
fn packets(
    alloc: Global,
    numbers: &mut Numbers,
    row: usize,
    rows: usize,
) -> Result<Vec<u8>, AllocError>
    requires { 0 < row }
{
    let mut bytes = Vec::new(alloc);
    for _ in 0..rows {
        let mut room = row;
        for _ in 0..4 * 256 {
            if room > 0 {
                room -= push_packet(&mut bytes, numbers, room)?;
            }
        }
    }
    if !bytes.is_empty() && numbers.below(3) == 0 {
        let at = numbers.below(bytes.len());
        match numbers.below(3) {
            0 => bytes[at] = numbers.byte(),
            1 => {
                bytes.remove(at);
            }
            _ => bytes.push(numbers.byte())?,
        }
    }
    Ok(bytes)
}

/// Expects the result of the plain program for packets in rows of `row` bytes. Returns whether it is that they fill all rows.
fn expect_same(
    rt: &impl Abort,
    (seg, row): (&[u8], usize),
    (answer, out): (Result<(), FileFault>, &[u8]),
    want: Option<&[u8]>,
) -> bool {
    match want {
        Some(text) if text.len() == out.len() => {
            assert!(rt; answer.is_ok(), "seed 2026: {seg:?} in rows of {row}");
            assert_eq!(rt; out, text, "seed 2026: {seg:?}");
            true
        }
        _ => {
            assert!(rt; answer.is_err(), "seed 2026: {seg:?} in rows of {row}");
            false
        }
    }
}

/// Expects the same for the next packets. Returns whether they fill all rows.
fn expect_next(rt: &(impl Abort + AllocGlobal), numbers: &mut Numbers) -> Result<bool, Fail> {
    let alloc = rt.alloc();
    let row = 1 + numbers.below(200);
    let rows = numbers.below(5);
    let seg = packets(alloc, numbers, row, rows)?;
    let mut out = vec![in alloc; 0u8; row * rows]?;
    let answer = unpack(&seg, row, &mut out);
    let want = reference_support::unpack(alloc, &seg, row)?;
    let text = want.as_ref().map(|text| text.as_slice());
    Ok(expect_same(rt, (&seg, row), (answer, &out), text))
}

#[test]
fn unpacks_random_packets_as_the_plain_program_does(rt: HostRuntime) -> Result<(), Fail> {
    let mut numbers = Numbers::new(2026);
    let mut good = 0u32;
    for _ in 0..2000 {
        if expect_next(&rt, &mut numbers)? {
            good = good.saturating_add(1);
        }
    }
    assert!(rt; 1000 < good && good < 1900, "seed 2026: {good}");
    Ok(())
}
