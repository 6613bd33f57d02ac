//! Key directories, and their keys.
mod fixture;
mod items;
mod limits;
mod rows;

use geokeys::{Geo, GeoError, KeyValue};
use std::alloc::{AllocError, Global};
use std::test::Fail;
use tiff_dir::{FileFault, Order};

/// An expected value of a key.
#[derive(Clone, Copy, Debug)]
enum Value<'a> {
    Short(u16),
    Doubles(&'a [[u8; 8]]),
    Ascii(&'a [u8]),
}

/// An expected minor revision with keys, or a fault.
type Want<'a> = Result<(u16, &'a [(u16, Value<'a>)]), FileFault>;

/// Returns the numbers as bytes.
fn bytes_of(alloc: Global, order: Order, numbers: &[u16]) -> Result<Vec<u8>, AllocError> {
    let mut bytes = Vec::with_capacity(alloc, 2 * numbers.len())?;
    for number in numbers {
        let pair = match order {
            Order::Little => number.to_le_bytes(),
            Order::Big => number.to_be_bytes(),
        };
        bytes.extend_from_slice(&pair)?;
    }
    Ok(bytes)
}

/// Reads a key directory of these numbers. Returns what is read.
fn read(
    rt: &HostRuntime,
    order: Order,
    numbers: &[u16],
    doubles: &[u8],
    ascii: &[u8],
) -> Result<Result<Geo, GeoError>, Fail> {
    let directory = bytes_of(rt.alloc(), order, numbers)?;
    if directory.len() % 2 != 0 || doubles.len() % 8 != 0 {
        return Err(Fail::new("half a number"));
    }
    Ok(Geo::read(rt.alloc(), order, &directory, doubles, ascii))
}

fn is_value(value: &KeyValue, want: Value<'_>) -> bool {
    match (value, want) {
        (KeyValue::Short(number), Value::Short(want)) => *number == want,
        (KeyValue::Doubles(items), Value::Doubles(want)) => items.as_slice() == want,
        (KeyValue::Ascii(bytes), Value::Ascii(want)) => bytes.as_slice() == want,
        _ => false,
    }
}

fn is_wanted(found: &Result<Geo, GeoError>, want: Want<'_>) -> bool {
    match (found, want) {
        (Ok(geo), Ok((minor, keys))) => {
            geo.minor == minor
                && geo.keys.len() == keys.len()
                && geo.keys.iter().zip(keys).all(|(key, want)| key.id == want.0
                    && is_value(&key.value, want.1))
        }
        (Err(GeoError::File(fault)), Err(want)) => *fault == want,
        _ => false,
    }
}
