//! Worked values.
use assertion_support::expect_eq;
use packbits::{pack_row, unpack};
use std::process::Abort;
use std::test::Fail;
use tiff_dir::FileFault;

/// A row has packed bytes, the number of bytes of the output, and whether they stand for that many 00, in rows of 16 bytes.
const ZEROS: [(&[u8], usize, bool); 9] = [
    (&[0x80, 0x80, 0xf1, 0x00], 16, true),
    (&[0xf1, 0x00, 0x80], 16, true),
    (&[0xf1, 0x00, 0x00], 16, false),
    (&[0xf1, 0x00, 0x00, 0x05], 16, false),
    (&[0xf2, 0x00], 16, false),
    (&[], 16, false),
    (&[], 0, true),
    (&[0xf1, 0x00, 0xf1, 0x00], 32, true),
    (&[0xe1, 0x00], 32, false),
];

/// Expects that packed bytes stand for 00 in all of `out`, or don't.
fn expect_zeros(rt: &impl Abort, seg: &[u8], good: bool, out: &mut [u8]) {
    let answer = unpack(seg, 16, out);
    let want = if good { Ok(()) } else { Err(FileFault::Packet) };
    expect_eq!(rt; answer, want, "{seg:?}");
    assert!(rt; !good || out.iter().all(|b| *b == 0), "{seg:?}");
}

#[test]
fn takes_packets_that_fill_their_rows_alone(rt: HostRuntime) -> Result<(), Fail> {
    for (seg, len, good) in ZEROS {
        let mut out = vec![in rt.alloc(); 9u8; len]?;
        expect_zeros(&rt, seg, good, &mut out);
    }
    Ok(())
}

/// The example of TIFF 6.0, section 9.
const EXAMPLE: [u8; 15] = [
    0xfe, 0xaa, 0x02, 0x80, 0x00, 0x2a, 0xfd, 0xaa, 0x03, 0x80, 0x00, 0x2a, 0x22, 0xf7, 0xaa,
];

const TEXT: [u8; 24] = [
    0xaa, 0xaa, 0xaa, 0x80, 0x00, 0x2a, 0xaa, 0xaa, 0xaa, 0xaa, 0x80, 0x00, 0x2a, 0x22, 0xaa, 0xaa,
    0xaa, 0xaa, 0xaa, 0xaa, 0xaa, 0xaa, 0xaa, 0xaa,
];

#[test]
fn unpacks_the_example_of_the_standard(rt: HostRuntime) {
    let mut out = [0u8; 24];
    expect_eq!(rt; unpack(&EXAMPLE, 24, &mut out), Ok(()));
    assert_eq!(rt; out.as_slice(), TEXT.as_slice());
    expect_eq!(rt; unpack(&EXAMPLE, 12, &mut out), Err(FileFault::Packet));
}

/// Expects that the packets that are made of a row give this row.
fn expect_row(rt: &(impl Abort + AllocGlobal), row: &[u8]) -> Result<(), Fail> {
    assert!(rt; !row.is_empty());
    let seg = pack_row(rt.alloc(), row).ok().ok_or("no memory")?;
    let mut out = vec![in rt.alloc(); 9u8; row.len()]?;
    expect_eq!(rt; unpack(&seg, row.len(), &mut out), Ok(()));
    assert_eq!(rt; out.as_slice(), row);
    Ok(())
}

#[test]
fn unpacks_what_it_packed(rt: HostRuntime) -> Result<(), Fail> {
    for row in [
        [0u8; 16].as_slice(),
        &TEXT,
        &EXAMPLE,
        &[7],
        &[7, 7],
        &[7, 8],
    ] {
        expect_row(&rt, row)?;
    }
    Ok(())
}
