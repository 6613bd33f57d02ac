//! Key directories without other fields.
use super::{Value, Want, is_wanted, read};
use std::test::Fail;
use tiff_dir::{FileFault, Order};

const ROWS: [(&[u16], Want<'static>); 10] = [
    (&[], Ok((0, &[]))),
    (&[1, 1, 0], Err(FileFault::KeyHead)),
    (&[1, 1, 0, 1], Err(FileFault::KeyHead)),
    (&[1, 0, 0, 0], Err(FileFault::KeyHead)),
    (&[1, 1, 9, 0], Ok((9, &[]))),
    (&[1, 1, 0, 1, 1024, 0, 2, 5], Err(FileFault::KeyPlace)),
    (&[1, 1, 0, 1, 1024, 34735, 1, 0], Err(FileFault::KeyPlace)),
    (&[1, 1, 0, 1, 2057, 34736, 1, 0], Err(FileFault::KeyPlace)),
    (
        &[1, 1, 0, 1, 2057, 34736, 0, 9],
        Ok((0, &[(2057, Value::Doubles(&[]))])),
    ),
    (
        &[1, 1, 0, 2, 1024, 0, 1, 1, 1024, 0, 1, 1],
        Err(FileFault::KeyOrder),
    ),
];

#[test]
fn reads_directories_without_other_fields(rt: HostRuntime) -> Result<(), Fail> {
    for order in [Order::Little, Order::Big] {
        for (numbers, want) in ROWS {
            let found = read(&rt, order, numbers, &[], &[])?;
            assert!(rt; is_wanted(&found, want), "{order:?} {numbers:?}: {found:?}");
        }
    }
    Ok(())
}
