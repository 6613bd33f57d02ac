//! The values of keys: items of eight bytes or of one.
ghost use Rattle.std.specs.Prelude.{◌≡◌, ◌+◌, ◌*◌, ◌%◌, ◌<◌, ◌≤◌, IfOk, MatchOption, MatchResult, length};
ghost use Rattle.std.specs.List.{slice_range};
ghost use Rattle.geokeys.specs.Doubles.{big_first, doubles_in};
ghost use Rattle.geokeys.specs.Keys.{IsValue};
ghost use Rattle.geokeys.specs.KeyEntry.{IsPlaced, IsRefusal};

use crate::entry::KeyEntry;
use crate::{GeoError, KeyValue};
use extents::Memory;
use std::alloc::Global;
use tiff_dir::tags::{GEO_ASCII_PARAMS, GEO_DOUBLE_PARAMS};
use tiff_dir::{FileFault, Order};

/// The location of a value that stands in the directory itself.
const DIRECTORY: u16 = 0;

/// Returns an item of eight bytes with its most significant byte first.
fn big_first(order: Order, bytes: &[u8]) -> [u8; 8]
    requires { length bytes.now ≡ 8 }
    ensures { result ≡ big_first order bytes.now }
{
    let mut item = [0; 8];
    item.copy_from_slice(bytes);
    match order {
        Order::Little => item.reverse(),
        Order::Big => {}
    }
    item
}

/// Returns the items of eight bytes (DOUBLE), each with its most significant byte first. `bytes` has them in byte order
/// `order`. Fails with `Memory` alone.
pub fn doubles(alloc: Global, order: Order, bytes: &[u8]) -> Result<Vec<[u8; 8]>, Memory>
    requires { length bytes.now % 8 ≡ 0 }
    ensures { IfOk result (λ items. items.items ≡ doubles_in order bytes.now) }
{
    let mut items = Vec::with_capacity(alloc, bytes.len() / 8)?;
    for item in bytes.chunks_exact(8) {
        items.push(big_first(order, item))?;
    }
    Ok(items)
}

/// Returns the bytes from place `from` on and before `to`, or `None` where they aren't all there. Where there are none
/// between, it returns none, whatever the places are.
fn part(bytes: &[u8], from: usize, to: usize) -> Option<&[u8]>
    requires { from ≤ to }
    ensures { MatchOption result
        ((from < to) × (length bytes.now < to))
        (λ p. (p.now ≡ slice_range bytes.now from to) × (from < to → to ≤ length bytes.now)) }
{
    if from < to {
        bytes.get(from..to)
    } else {
        Some(&bytes[..0])
    }
}

/// Returns the value of a key. Fails with `KeyPlace`, as `Geo::read` does, or with `Memory`.
pub fn value_of(
    alloc: Global,
    order: Order,
    entry: KeyEntry,
    doubles: &[u8],
    ascii: &[u8],
) -> Result<KeyValue, GeoError>
    requires { length doubles.now % 8 ≡ 0 }
    ensures { MatchResult result
        (λ value. IsValue order doubles.now ascii.now entry.location entry.count entry.first value × IsPlaced doubles.now ascii.now entry)
        (IsRefusal doubles.now ascii.now entry) }
{
    let first = usize::from(entry.first);
    let end = first + usize::from(entry.count);
    match entry.location {
        DIRECTORY => {
            if entry.count != 1 {
                return Err(GeoError::File(FileFault::KeyPlace));
            }
            Ok(KeyValue::Short(entry.first))
        }
        GEO_DOUBLE_PARAMS => {
            let bytes = part(doubles, 8 * first, 8 * end).ok_or(FileFault::KeyPlace)?;
            Ok(KeyValue::Doubles(crate::doubles(alloc, order, bytes)?))
        }
        GEO_ASCII_PARAMS => {
            let bytes = part(ascii, first, end).ok_or(FileFault::KeyPlace)?;
            Ok(KeyValue::Ascii(Vec::from_slice(alloc, bytes)?))
        }
        _ => Err(GeoError::File(FileFault::KeyPlace)),
    }
}
