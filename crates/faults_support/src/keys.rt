//! What is wrong with the key directory (OGC 19-008, section 7.1.1): four numbers, then four for each key.
use crate::fields::{both, count_of};
use reference_support::{field, value};
use tiff_dir::tags::{GEO_ASCII_PARAMS, GEO_DOUBLE_PARAMS, GEO_KEY_DIRECTORY};

/// The fields that a key may point into.
const KEY_FIELDS: [u16; 2] = [GEO_DOUBLE_PARAMS, GEO_ASCII_PARAMS];

/// Returns value `i` of the key directory.
fn key_value(file: &[u8], i: u64) -> Option<u64> {
    value(file, 0, GEO_KEY_DIRECTORY, i)
}

/// Returns how many keys may have numbers in the file. Each has bytes of its own.
pub fn key_count(file: &[u8]) -> u64 {
    key_value(file, 3).unwrap_or(0).min(file.len() as u64)
}

/// Returns number `j` of key `i`, of those that the head counts: KeyID, TIFFTagLocation, Count, Value_Offset.
fn key_number(file: &[u8], i: u64, j: u64) -> Option<u64> {
    if i >= key_value(file, 3)? {
        return None;
    }
    key_value(file, i.checked_mul(4)?.checked_add(4)?.checked_add(j)?)
}

/// Returns whether the version or the revision isn't 1, or the field hasn't four values and four for each key.
pub fn is_bad_head(file: &[u8]) -> bool {
    let is_other = |number: Option<u64>| number.is_some() && number != Some(1);
    let count = match field(file, 0, GEO_KEY_DIRECTORY) {
        Some(entry) => entry.count,
        None => None,
    };
    let Some(count) = count else {
        return is_other(key_value(file, 0)) || is_other(key_value(file, 1));
    };
    let fits = |keys: u64| u128::from(count) == 4 + 4 * u128::from(keys);
    let miscounted = match key_value(file, 3) {
        Some(keys) => !fits(keys),
        None => false,
    };
    is_other(key_value(file, 0)) || is_other(key_value(file, 1)) || count < 4 || miscounted
}

/// Returns whether key `i + 1` isn't greater than key `i`.
pub fn is_disorder(file: &[u8], i: u64) -> bool {
    let next = key_number(file, i.saturating_add(1), 0);
    match both(key_number(file, i, 0), next) {
        Some((id, next)) => next <= id,
        None => false,
    }
}

/// Returns whether the items from `first` on end past those of the field with this tag.
fn has_no_items(file: &[u8], tag: u16, count: u64, first: u64) -> bool {
    match count_of(file, 0, tag) {
        Some(items) => count > 0 && u128::from(items) < u128::from(first) + u128::from(count),
        None => false,
    }
}

/// Returns whether a key's value is at no location of the profile, or past its end, as far as its numbers are in the file.
pub fn is_key_misplaced(file: &[u8], i: u64) -> bool {
    let Some(location) = key_number(file, i, 1) else {
        return false;
    };
    let count = key_number(file, i, 2);
    if location == 0 {
        return count.is_some() && count != Some(1);
    }
    let Some(tag) = KEY_FIELDS.iter().find(|tag| u64::from(**tag) == location) else {
        return true;
    };
    match both(count, key_number(file, i, 3)) {
        Some((count, first)) => has_no_items(file, *tag, count, first),
        None => false,
    }
}
