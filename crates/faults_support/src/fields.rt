//! The fields of a directory, as far as they are in the file.
use reference_support::{field, field_value, has_all_tags, value};
use std::alloc::{AllocError, Global};

/// Returns how many values the field with the tag counts: 0 where it is absent, and `None` where the file doesn't say so.
pub fn count_of(file: &[u8], k: u32, tag: u16) -> Option<u32> {
    match field(file, k, tag) {
        Some(entry) => entry.count,
        None if has_all_tags(file, k) => Some(0),
        None => None,
    }
}

/// Returns the values of the field that are in the file, or one of its defaults where it is absent.
pub fn values_there(alloc: Global, file: &[u8], k: u32, tag: u16) -> Result<Vec<u64>, AllocError> {
    let mut values = Vec::new(alloc);
    let Some(entry) = field(file, k, tag) else {
        if let Some(value) = value(file, k, tag, 0) {
            values.push(value)?;
        }
        return Ok(values);
    };
    // Each value has a byte of its own.
    for i in 0..u64::from(entry.count.unwrap_or(0)).min(file.len() as u64) {
        if let Some(value) = field_value(file, entry, i) {
            values.push(value)?;
        }
    }
    Ok(values)
}

/// Returns both numbers, where both are there.
pub fn both(a: Option<u64>, b: Option<u64>) -> Option<(u64, u64)> {
    Some((a?, b?))
}

/// Returns the product, where it has 128 bits.
pub fn product(numbers: &[u64]) -> Option<u128> {
    if numbers.contains(&0) {
        return Some(0);
    }
    let mut product: u128 = 1;
    for number in numbers {
        product = product.checked_mul(u128::from(*number))?;
    }
    Some(product)
}

/// Returns whether the product of the numbers is greater than `most`.
pub fn exceeds(numbers: &[u64], most: u64) -> bool {
    match product(numbers) {
        Some(product) => product > u128::from(most),
        None => true,
    }
}
