//! Values on both sides of each limit.
use super::{Value, Want, is_wanted, read};
use assertion_support::expect_eq;
use std::test::Fail;
use tiff_dir::{FileFault, Order};

/// Two doubles, with the most significant byte first.
const DOUBLES: [u8; 16] = [
    0x01, 0x02, 0x03, 0x04, 0x05, 0x06, 0x07, 0x08, 0x11, 0x12, 0x13, 0x14, 0x15, 0x16, 0x17, 0x18,
];

const FIRST: [u8; 8] = [0x01, 0x02, 0x03, 0x04, 0x05, 0x06, 0x07, 0x08];

const SECOND: [u8; 8] = [0x11, 0x12, 0x13, 0x14, 0x15, 0x16, 0x17, 0x18];

/// A row has the location, the count and the offset of a key, and its value, if it has one. The other fields have two doubles and the text
/// `ab|`.
const PLACES: [(u16, u16, u16, Option<Value<'static>>); 26] = [
    (0, 1, 0, Some(Value::Short(0))),
    (0, 1, 65535, Some(Value::Short(65535))),
    (0, 0, 5, None),
    (0, 2, 5, None),
    (34736, 0, 0, Some(Value::Doubles(&[]))),
    (34736, 0, 2, Some(Value::Doubles(&[]))),
    (34736, 0, 3, Some(Value::Doubles(&[]))),
    (34736, 0, 65535, Some(Value::Doubles(&[]))),
    (34736, 1, 0, Some(Value::Doubles(&[FIRST]))),
    (34736, 1, 1, Some(Value::Doubles(&[SECOND]))),
    (34736, 2, 0, Some(Value::Doubles(&[FIRST, SECOND]))),
    (34736, 1, 2, None),
    (34736, 2, 1, None),
    (34736, 3, 0, None),
    (34736, 65535, 65535, None),
    (34737, 0, 3, Some(Value::Ascii(b""))),
    (34737, 0, 65535, Some(Value::Ascii(b""))),
    (34737, 3, 0, Some(Value::Ascii(b"ab|"))),
    (34737, 2, 1, Some(Value::Ascii(b"b|"))),
    (34737, 1, 2, Some(Value::Ascii(b"|"))),
    (34737, 1, 3, None),
    (34737, 2, 2, None),
    (34737, 4, 0, None),
    (34737, 65535, 1, None),
    (34738, 1, 0, None),
    (1, 1, 0, None),
];

#[test]
fn finds_values_up_to_the_end_of_their_field(rt: HostRuntime) -> Result<(), Fail> {
    for (location, count, first, value) in PLACES {
        let numbers = [1, 1, 0, 1, 1024, location, count, first];
        let found = read(&rt, Order::Big, &numbers, &DOUBLES, b"ab|")?;
        match value {
            Some(value) => match &found {
                Ok(geo) => {
                    expect_eq!(rt; geo.keys.len(), 1);
                    for key in &geo.keys {
                        expect_eq!(rt; key.id, 1024);
                        assert!(rt;
                            super::is_value(&key.value, value),
                            "{numbers:?}: {found:?}"
                        );
                    }
                }
                Err(_) => assert!(rt; false, "{numbers:?}: {found:?}"),
            },
            None => {
                let want: Want<'_> = Err(FileFault::KeyPlace);
                assert!(rt; is_wanted(&found, want), "{numbers:?}: {found:?}");
            }
        }
    }
    Ok(())
}

/// Rows of heads, of orders of keys, and of several faults, with the one that is reported.
const HEADS: [(&[u16], Want<'static>); 17] = [
    (&[1], Err(FileFault::KeyHead)),
    (&[2, 1, 0, 0], Err(FileFault::KeyHead)),
    (&[0, 1, 0, 0], Err(FileFault::KeyHead)),
    (&[1, 2, 0, 0], Err(FileFault::KeyHead)),
    (&[1, 1, 65535, 0], Ok((65535, &[]))),
    (&[1, 1, 0, 0, 7], Err(FileFault::KeyHead)),
    (&[1, 1, 0, 0, 1024, 0, 1, 7], Err(FileFault::KeyHead)),
    (&[1, 1, 0, 1, 1024, 0, 1], Err(FileFault::KeyHead)),
    (&[1, 1, 0, 1, 1024, 0, 1, 7, 0], Err(FileFault::KeyHead)),
    (&[1, 1, 0, 65535, 1024, 0, 1, 7], Err(FileFault::KeyHead)),
    (&[1, 1, 3, 1, 0, 0, 1, 7], Ok((3, &[(0, Value::Short(7))]))),
    (
        &[1, 1, 0, 2, 65534, 0, 1, 7, 65535, 0, 1, 8],
        Ok((0, &[(65534, Value::Short(7)), (65535, Value::Short(8))])),
    ),
    (
        &[1, 1, 0, 2, 1025, 0, 1, 7, 1024, 0, 1, 8],
        Err(FileFault::KeyOrder),
    ),
    (
        &[1, 1, 0, 3, 1024, 0, 1, 7, 1025, 0, 1, 8, 1025, 0, 1, 9],
        Err(FileFault::KeyOrder),
    ),
    (&[2, 1, 0, 1, 1024, 5, 1, 0], Err(FileFault::KeyHead)),
    (
        &[1, 1, 0, 2, 1024, 0, 1, 7, 1024, 5, 1, 8],
        Err(FileFault::KeyOrder),
    ),
    (
        &[1, 1, 0, 3, 1024, 0, 1, 7, 1025, 5, 1, 8, 1024, 0, 1, 9],
        Err(FileFault::KeyPlace),
    ),
];

#[test]
fn refuses_wrong_heads_and_orders(rt: HostRuntime) -> Result<(), Fail> {
    for (numbers, want) in HEADS {
        let found = read(&rt, Order::Little, numbers, &[], &[])?;
        assert!(rt; is_wanted(&found, want), "{numbers:?}: {found:?}");
    }
    Ok(())
}
