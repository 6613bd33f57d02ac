//! What the query Info asks for: the sides of the levels, and all values of a field.
ghost use Rattle.std.specs.Prelude.{◌≡◌, IfOk, IfSome, IfNone};
ghost use Rattle.reference_support.specs.Info.{AreSides, AreValues, HasNoSides, HasNoValues, sides_of, value_count};

use crate::fields::{field, value};
use crate::levels::{level_directories, level_value};
use std::alloc::{AllocError, Global};
use tiff_dir::tags::{IMAGE_LENGTH, IMAGE_WIDTH};

/// Returns how many values the field with this tag in directory `k` has.
fn value_count(file: &[u8], k: u32, tag: u16) -> Option<u32>
    ensures { result ≡ value_count file.now k tag }
{
    field(file, k, tag)?.count
}

/// Returns the values of the field with this tag in directory `k`, where the field is there and all its values are.
pub fn values(alloc: Global, file: &[u8], k: u32, tag: u16) -> Result<Option<Vec<u64>>, AllocError>
    ensures some { IfOk result (λ o. IfSome o (λ v. AreValues file.now k tag v.items)) }
    ensures none { IfOk result (λ o. IfNone o (HasNoValues file.now k tag)) }
{
    let Some(count) = value_count(file, k, tag) else {
        return Ok(None);
    };
    let mut values = Vec::new(alloc);
    for i in 0..u64::from(count) {
        match value(file, k, tag, i) {
            Some(v) => values.push(v)?,
            None => return Ok(None),
        }
    }
    Ok(Some(values))
}

/// Returns the width and the length of each level, in order, where all are there.
pub fn level_sides(alloc: Global, file: &[u8]) -> Result<Option<Vec<(u64, u64)>>, AllocError>
    ensures some { IfOk result (λ o. IfSome o (λ v. AreSides file.now v.items)) }
    ensures none { IfOk result (λ o. IfNone o (HasNoSides file.now)) }
{
    let directories = level_directories(alloc, file)?;
    let mut sides = Vec::new(alloc);
    for n in 0..directories.len() {
        match sides_of(alloc, file, n)? {
            Some(pair) => sides.push(pair)?,
            None => return Ok(None),
        }
    }
    Ok(Some(sides))
}

/// Returns the width and the length of level `n`, where both are there.
fn sides_of(alloc: Global, file: &[u8], n: usize) -> Result<Option<(u64, u64)>, AllocError>
    ensures { IfOk result (λ o. o ≡ sides_of file.now n) }
{
    let Some(width) = level_value(alloc, file, n, IMAGE_WIDTH, 0)? else {
        return Ok(None);
    };
    let Some(length) = level_value(alloc, file, n, IMAGE_LENGTH, 0)? else {
        return Ok(None);
    };
    Ok(Some((width, length)))
}
