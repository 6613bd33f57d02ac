//! What is wrong with the fields that georeference the image, and with their keys. These faults stand for Info alone.
use crate::keys::{is_bad_head, is_disorder, is_key_misplaced, key_count};
use crate::rules::{GEO, add_rule_faults};
use crate::stands::add_if;
use reference_support::place;
use std::alloc::AllocError;
use tiff_dir::FileFault;
use tiff_dir::limits::MAX_GEO_BYTES;

/// Returns whether the field's values have more bytes than a geo field may have.
fn is_large(file: &[u8], tag: u16) -> bool {
    match place(file, 0, tag) {
        Some(place) => place.len > MAX_GEO_BYTES,
        None => false,
    }
}

/// Adds what is wrong with the geo fields and the keys: FieldType, TooLarge, KeyHead, KeyOrder and KeyPlace.
pub fn add_info_faults(faults: &mut Vec<FileFault>, file: &[u8]) -> Result<(), AllocError> {
    add_rule_faults(faults, file, 0, &GEO)?;
    let large = GEO.iter().any(|rule| is_large(file, rule.0));
    add_if(faults, large, FileFault::TooLarge)?;
    add_if(faults, is_bad_head(file), FileFault::KeyHead)?;
    for i in 0..key_count(file) {
        add_if(faults, is_disorder(file, i), FileFault::KeyOrder)?;
        add_if(faults, is_key_misplaced(file, i), FileFault::KeyPlace)?;
    }
    Ok(())
}
