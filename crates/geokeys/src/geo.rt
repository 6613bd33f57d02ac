//! The keys of a file.
ghost use Rattle.std.specs.Prelude.{◌≡◌};

use crate::entry::{entry_at, head_of};
use crate::items::value_of;
use std::alloc::Global;
use tiff_dir::{FileFault, Order, WalkError as GeoError};

/// The keys of a file, in ascending order of their numbers.
#[derive(Debug, Drop, PartialEq, Eq)]
pub struct Geo {
    /// The minor revision of the keys' meaning.
    pub minor: u16,
    /// The keys.
    pub keys: Vec<Key>,
}

/// A key and its value.
#[derive(Debug, Drop, PartialEq, Eq)]
pub struct Key {
    /// The number of the key.
    pub id: u16,
    /// The value.
    pub value: KeyValue,
}

/// The value of a key.
#[derive(Debug, Drop, PartialEq, Eq)]
pub enum KeyValue {
    /// A number that stands in the directory.
    Short(u16),
    /// Numbers of eight bytes, each with its most significant byte first.
    Doubles(Vec<[u8; 8]>),
    /// A text, with the bytes that end it.
    Ascii(Vec<u8>),
}

impl Geo {
    ghost use Rattle.std.specs.Prelude.{◌≡◌, ◌%◌, IfOk, IfErr, IsOk, length};
    ghost use Rattle.tiff_dir.specs.Keys.{IsFaultOfKeys};
    ghost use Rattle.tiff_dir.specs.declared.fault.FileFault.{FileFault as Fault};
    ghost use Rattle.geokeys.specs.Keys.{key_source, AreKeys, IsKeyError};

    /// Reads the keys from the bytes of three fields (OGC 19-008, section 7.1.1). `directory` is GeoKeyDirectory, of
    /// SHORTs. It points into `doubles`, which is GeoDoubleParams, of items of eight bytes, and into `ascii`, which is
    /// GeoAsciiParams. Numbers are in byte order `order`. A field that the file hasn't is empty. Without a directory
    /// there are no keys.
    ///
    /// Fails with `Memory`, or with the first of these faults. Those of keys are looked for key by key:
    /// - `KeyHead`: the version or the revision isn't 1, or the directory hasn't four numbers, and four for each key.
    /// - `KeyOrder`: the key isn't greater than the one before.
    /// - `KeyPlace`: the location is neither the entry nor one of the two other fields, or the value ends after its
    /// field. Or the value stands in the entry, and its Count isn't 1.
    ///
    /// ```
    /// let directory = [1, 0, 1, 0, 0, 0, 1, 0, 0x00, 0x04, 0, 0, 1, 0, 2, 0];
    /// let geo = Geo::read(alloc, Order::Little, &directory, &[], &[])?;
    /// assert_eq!(geo.keys[0].value, KeyValue::Short(2));
    /// ```
    pub fn read(
        alloc: Global,
        order: Order,
        directory: &[u8],
        doubles: &[u8],
        ascii: &[u8],
    ) -> Result<Geo, GeoError>
        requires shorts { length directory.now % 2 ≡ 0 }
        requires doubles { length doubles.now % 8 ≡ 0 }
        ensures keys { IfOk result (AreKeys (key_source order directory.now doubles.now ascii.now) order doubles.now ascii.now) }
        ensures sound { IfOk result (λ _. (fault : Fault)
            → IsFaultOfKeys (key_source order directory.now doubles.now ascii.now) fault → ⊥) }
        ensures refused { IfErr result (IsKeyError (key_source order directory.now doubles.now ascii.now)) }
        // Where there is no directory, it doesn't fail.
        ensures sure { length directory.now ≡ 0 → IsOk result }
    {
        if directory.is_empty() {
            let keys = Vec::new(alloc);
            return Ok(Geo { minor: 0, keys });
        }
        let head = head_of(order, directory)?;
        let count = usize::from(head.keys);
        let mut keys = Vec::with_capacity(alloc, count)?;
        for i in 0..count {
            let entry = entry_at(order, directory, i);
            if i > 0 && entry.id <= entry_at(order, directory, i - 1).id {
                return Err(GeoError::File(FileFault::KeyOrder));
            }
            let value = value_of(alloc, order, entry, doubles, ascii)?;
            keys.push(Key {
                id: entry.id,
                value,
            })?;
        }
        Ok(Geo {
            minor: head.minor,
            keys,
        })
    }
}
