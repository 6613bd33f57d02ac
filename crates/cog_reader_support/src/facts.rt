//! The contents of Info of a file, as a value of a constant.
use cog_reader::Info;
use geokeys::{Key, KeyValue};

/// The value of a key.
#[derive(Clone, Copy)]
pub enum Value<'a> {
    Short(u16),
    /// Items of eight bytes, with the most significant byte first.
    Doubles(&'a [[u8; 8]]),
    Ascii(&'a [u8]),
}

/// The contents of Info of a file: the sides of its levels, its keys by their numbers, and the items of its model fields.
#[derive(Clone, Copy)]
pub struct Facts<'a> {
    pub sides: &'a [(u32, u32)],
    pub minor: u16,
    pub keys: &'a [(u16, Value<'a>)],
    pub scale: Option<&'a [[u8; 8]]>,
    pub tiepoints: Option<&'a [[u8; 8]]>,
    pub transformation: Option<&'a [[u8; 8]]>,
}

/// The contents of Info of a file without levels and geo fields.
pub const NO_FACTS: Facts<'static> = Facts {
    sides: &[],
    minor: 0,
    keys: &[],
    scale: None,
    tiepoints: None,
    transformation: None,
};

const ONE: [u8; 8] = [0x3f, 0xf0, 0, 0, 0, 0, 0, 0];

/// The contents of Info of f3.
pub const FACTS_OF_F3: Facts<'static> = Facts {
    sides: &[(32, 32), (16, 16)],
    minor: 0,
    keys: &[
        (1024, Value::Short(2)),
        (1026, Value::Ascii(b"WGS 84|")),
        (2057, Value::Doubles(&[[1, 2, 3, 4, 5, 6, 7, 8]])),
    ],
    scale: Some(&[ONE, ONE, ONE]),
    tiepoints: None,
    transformation: None,
};

fn is_value(value: &KeyValue, want: Value<'_>) -> bool {
    match (value, want) {
        (KeyValue::Short(number), Value::Short(want)) => *number == want,
        (KeyValue::Doubles(items), Value::Doubles(want)) => items.as_slice() == want,
        (KeyValue::Ascii(bytes), Value::Ascii(want)) => bytes.as_slice() == want,
        _ => false,
    }
}

fn are_keys(keys: &[Key], wants: &[(u16, Value<'_>)]) -> bool {
    for (key, want) in keys.iter().zip(wants) {
        if key.id != want.0 || !is_value(&key.value, want.1) {
            return false;
        }
    }
    keys.len() == wants.len()
}

fn are_items(items: &Option<Vec<[u8; 8]>>, want: Option<&[[u8; 8]]>) -> bool {
    match (items, want) {
        (Some(items), Some(want)) => items.as_slice() == want,
        (None, None) => true,
        _ => false,
    }
}

/// Returns whether Info has these contents.
pub fn is_told(info: &Info, facts: Facts<'_>) -> bool {
    info.sides.as_slice() == facts.sides
        && info.geo.minor == facts.minor
        && are_keys(&info.geo.keys, facts.keys)
        && are_items(&info.scale, facts.scale)
        && are_items(&info.tiepoints, facts.tiepoints)
        && are_items(&info.transformation, facts.transformation)
}
