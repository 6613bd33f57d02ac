//! Fields that are missing, and those of another type or count than the profile has.
use crate::stands::add_if;
use reference_support::{Entry, field, has_all_tags, value};
use std::alloc::AllocError;
use tiff_dir::FileFault;
use tiff_dir::tags::{
    BITS_PER_SAMPLE, COMPRESSION, GEO_ASCII_PARAMS, GEO_DOUBLE_PARAMS, GEO_KEY_DIRECTORY,
    IMAGE_LENGTH, IMAGE_WIDTH, MODEL_PIXEL_SCALE, MODEL_TIEPOINT, MODEL_TRANSFORMATION,
    NEW_SUBFILE_TYPE, PHOTOMETRIC_INTERPRETATION, PLANAR_CONFIGURATION, SAMPLE_FORMAT,
    SAMPLES_PER_PIXEL, TILE_BYTE_COUNTS, TILE_LENGTH, TILE_OFFSETS, TILE_WIDTH,
};

/// How many values a field has.
#[derive(Clone, Copy)]
pub enum Count {
    Exactly(u32),
    /// This number, or another multiple of it but 0.
    Multiple(u32),
    /// As many as the samples of a pixel.
    Samples,
    /// Any number: the arrays of tiles have a rule of their own.
    Any,
}

/// The tag of a field, the numbers of the types that it may have, its count, and whether each level has it.
pub type Rule = (u16, &'static [u16], Count, bool);

const ASCII: &[u16] = &[2];

const SHORT: &[u16] = &[3];

const LONG: &[u16] = &[4];

const SHORT_OR_LONG: &[u16] = &[3, 4];

const DOUBLE: &[u16] = &[12];

/// The one field that is checked in every directory.
pub const SUBFILE: Rule = (NEW_SUBFILE_TYPE, LONG, Count::Exactly(1), false);

/// The fields of a level.
pub const LEVEL: [Rule; 13] = [
    SUBFILE,
    (IMAGE_WIDTH, SHORT_OR_LONG, Count::Exactly(1), true),
    (IMAGE_LENGTH, SHORT_OR_LONG, Count::Exactly(1), true),
    (BITS_PER_SAMPLE, SHORT, Count::Samples, true),
    (COMPRESSION, SHORT, Count::Exactly(1), true),
    (PHOTOMETRIC_INTERPRETATION, SHORT, Count::Exactly(1), true),
    (SAMPLES_PER_PIXEL, SHORT, Count::Exactly(1), false),
    (PLANAR_CONFIGURATION, SHORT, Count::Exactly(1), false),
    (TILE_WIDTH, SHORT_OR_LONG, Count::Exactly(1), true),
    (TILE_LENGTH, SHORT_OR_LONG, Count::Exactly(1), true),
    (TILE_OFFSETS, LONG, Count::Any, true),
    (TILE_BYTE_COUNTS, SHORT_OR_LONG, Count::Any, true),
    (SAMPLE_FORMAT, SHORT, Count::Samples, false),
];

/// The fields that georeference the image.
pub const GEO: [Rule; 6] = [
    (GEO_KEY_DIRECTORY, SHORT, Count::Multiple(1), false),
    (GEO_DOUBLE_PARAMS, DOUBLE, Count::Multiple(1), false),
    (GEO_ASCII_PARAMS, ASCII, Count::Multiple(1), false),
    (MODEL_PIXEL_SCALE, DOUBLE, Count::Exactly(3), false),
    (MODEL_TIEPOINT, DOUBLE, Count::Multiple(6), false),
    (MODEL_TRANSFORMATION, DOUBLE, Count::Exactly(16), false),
];

fn is_mistyped(kinds: &[u16], entry: Entry) -> bool {
    match entry.kind {
        Some(kind) => !kinds.contains(&kind),
        None => false,
    }
}

fn is_miscounted(file: &[u8], k: u32, wanted: Count, entry: Entry) -> bool {
    let Some(count) = entry.count else {
        return false;
    };
    match wanted {
        Count::Exactly(n) => count != n,
        Count::Multiple(n) => count == 0 || count.checked_rem(n) != Some(0),
        Count::Samples => match value(file, k, SAMPLES_PER_PIXEL, 0) {
            Some(samples) => u64::from(count) != samples,
            None => false,
        },
        Count::Any => false,
    }
}

/// Adds what is wrong with the fields of the rules in directory `k`: Missing and FieldType.
pub fn add_rule_faults(
    faults: &mut Vec<FileFault>,
    file: &[u8],
    k: u32,
    rules: &[Rule],
) -> Result<(), AllocError> {
    for (tag, kinds, count, required) in rules {
        match field(file, k, *tag) {
            Some(entry) => {
                let wrong = is_mistyped(kinds, entry) || is_miscounted(file, k, *count, entry);
                add_if(faults, wrong, FileFault::FieldType(*tag))?;
            }
            None => {
                let missing = *required && has_all_tags(file, k);
                add_if(faults, missing, FileFault::Missing(*tag))?;
            }
        }
    }
    Ok(())
}
