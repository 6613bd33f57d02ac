//! Items of eight bytes.
use geokeys::doubles;
use std::test::Fail;
use tiff_dir::Order;

/// The numbers 1.0 and -2.5 as a file of each byte order has them.
const LITTLE: [u8; 16] = [
    0x00, 0x00, 0x00, 0x00, 0x00, 0x00, 0xf0, 0x3f, 0x00, 0x00, 0x00, 0x00, 0x00, 0x00, 0x04, 0xc0,
];

const BIG: [u8; 16] = [
    0x3f, 0xf0, 0x00, 0x00, 0x00, 0x00, 0x00, 0x00, 0xc0, 0x04, 0x00, 0x00, 0x00, 0x00, 0x00, 0x00,
];

const ITEMS: [[u8; 8]; 2] = [
    [0x3f, 0xf0, 0x00, 0x00, 0x00, 0x00, 0x00, 0x00],
    [0xc0, 0x04, 0x00, 0x00, 0x00, 0x00, 0x00, 0x00],
];

#[test]
fn reads_doubles_in_both_orders(rt: HostRuntime) -> Result<(), Fail> {
    for (order, bytes) in [(Order::Little, LITTLE), (Order::Big, BIG)] {
        for count in 0..3usize {
            let part = &bytes[..8 * count];
            let items = doubles(rt.alloc(), order, part).ok().ok_or("no memory")?;
            assert_eq!(rt; items.as_slice(), &ITEMS[..count], "{order:?}");
        }
    }
    Ok(())
}
