//! Bits of a sample.
use super::{end_of, fault_of, file_with};
use fixtures_support::{f6, f6m};
use std::test::Fail;
use tiff_dir::{FileFault, Order};

#[test]
fn reads_levels_of_16_bits(rt: HostRuntime) -> Result<(), Fail> {
    for file in [f6(rt.alloc())?, f6m(rt.alloc())?] {
        match end_of(&rt, &file)? {
            Ok(walk) => {
                let depths: Vec<u16> = walk.levels().iter().map(|l| l.bits).collect(rt.alloc())?;
                assert_eq!(rt; depths.as_slice(), [16].as_slice());
            }
            Err(_) => return Err(Fail::new("a fault")),
        }
    }
    Ok(())
}

#[test]
fn counts_two_bytes_a_sample_of_16_bits(rt: HostRuntime) -> Result<(), Fail> {
    let rows = [
        (1024, 8, None),
        (1024, 16, Some(FileFault::TileSize)),
        (512, 16, None),
    ];
    for (side, bits, want) in rows {
        let changes = [(258, 3, 1, bits), (322, 3, 1, side), (323, 3, 1, side)];
        let file = file_with(&rt, Order::Little, &changes, 0, &[])?;
        assert_eq!(rt; fault_of(&rt, file.as_slice())?, want, "at {side} {bits}");
    }
    Ok(())
}

#[test]
fn refuses_samples_of_different_depths(rt: HostRuntime) -> Result<(), Fail> {
    let rows: [([u8; 3], Option<FileFault>); 6] = [
        ([8, 8, 8], None),
        ([16, 16, 16], None),
        ([16, 16, 8], Some(FileFault::Unsupported(258))),
        ([8, 16, 16], Some(FileFault::Unsupported(258))),
        ([16, 8, 16], Some(FileFault::Unsupported(258))),
        ([32, 32, 32], Some(FileFault::Unsupported(258))),
    ];
    for (bits, want) in rows {
        let changes = [
            (258, 3, 3, 146),
            (262, 3, 1, 2),
            (277, 3, 1, 3),
            (325, 4, 1, 768),
        ];
        let [a, b, c] = bits;
        let file = file_with(
            &rt,
            Order::Little,
            &changes,
            0,
            &[0, 0, 0, 0, 0, 0, 0, 0, 0, 0, 0, 0, a, 0, b, 0, c, 0],
        )?;
        assert_eq!(rt; fault_of(&rt, file.as_slice())?, want, "at {bits:?}");
    }
    Ok(())
}
