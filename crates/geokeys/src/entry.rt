//! The numbers of the key directory: its header, and four for each key.
ghost use Rattle.std.specs.Prelude.{◌≡◌, ◌+◌, ◌*◌, ◌%◌, ◌<◌, ◌≤◌, [], MatchResult, length};
ghost use Rattle.tiff_dir.specs.Number.{number_in};
ghost use Rattle.tiff_dir.specs.Keys.{IsBadKeyHead};
ghost use Rattle.geokeys.specs.Keys.{key_source};
ghost use Rattle.geokeys.specs.KeyEntry.{IsHead, entry_at};

use byteorder::{BigEndian, ByteOrder, LittleEndian};
use tiff_dir::{FileFault, Order};

/// What the header of a key directory says.
#[derive(Clone, Copy)]
pub struct KeyDirectoryHeader {
    /// The minor revision.
    pub minor: u16,
    /// The number of keys.
    pub keys: u16,
}

/// The entry of a key in the key directory.
#[derive(Clone, Copy)]
pub struct KeyEntry {
    /// The number of the key.
    pub id: u16,
    /// Where the value stands: 0 for the entry itself, else the tag of a field.
    pub location: u16,
    /// The Count: the number of values.
    pub count: u16,
    /// The value itself, or the index of the first value in the field.
    pub first: u16,
}

/// Returns the number in the two bytes from `at` on.
fn short_at(order: Order, bytes: &[u8], at: usize) -> u16
    requires { at + 2 ≤ length bytes.now }
    ensures { result ≡ number_in order at 2 bytes.now }
{
    match order {
        Order::Little => LittleEndian::read_u16(&bytes[at..]),
        Order::Big => BigEndian::read_u16(&bytes[at..]),
    }
}

/// Returns the header of a directory that isn't empty. Fails with `KeyHead` where the version, the revision or the
/// length is wrong.
pub fn head_of(order: Order, directory: &[u8]) -> Result<KeyDirectoryHeader, FileFault>
    requires some { 0 < length directory.now }
    requires even { length directory.now % 2 ≡ 0 }
    ensures { MatchResult result
        (IsHead order directory.now)
        (λ fault. (fault ≡ FileFault.KeyHead) × IsBadKeyHead (key_source order directory.now [] [])) }
{
    if directory.len() < 8 {
        return Err(FileFault::KeyHead);
    }
    let version = short_at(order, directory, 0);
    let revision = short_at(order, directory, 2);
    let keys = short_at(order, directory, 6);
    if version != 1 || revision != 1 || directory.len() != 8 + 8 * usize::from(keys) {
        return Err(FileFault::KeyHead);
    }
    let minor = short_at(order, directory, 4);
    Ok(KeyDirectoryHeader { minor, keys })
}

/// Returns the entry of key `i`, counted from 0.
pub fn entry_at(order: Order, directory: &[u8], i: usize) -> KeyEntry
    requires { 8 * i + 16 ≤ length directory.now }
    ensures { result ≡ entry_at order directory.now i }
{
    let at = 8 * i + 8;
    KeyEntry {
        id: short_at(order, directory, at),
        location: short_at(order, directory, at + 2),
        count: short_at(order, directory, at + 4),
        first: short_at(order, directory, at + 6),
    }
}
