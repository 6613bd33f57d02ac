//! Values that the profile doesn't accept.
use crate::fields::{both, values_there};
use crate::stands::add_if;
use reference_support::value;
use std::alloc::{AllocError, Global};
use tiff_dir::FileFault;
use tiff_dir::tags::{
    BITS_PER_SAMPLE, COMPRESSION, PHOTOMETRIC_INTERPRETATION, PLANAR_CONFIGURATION, SAMPLE_FORMAT,
    SAMPLES_PER_PIXEL,
};

/// The fields whose values the profile names.
const NAMED: [u16; 6] = [
    BITS_PER_SAMPLE,
    COMPRESSION,
    PHOTOMETRIC_INTERPRETATION,
    SAMPLES_PER_PIXEL,
    PLANAR_CONFIGURATION,
    SAMPLE_FORMAT,
];

/// Returns whether the profile accepts a value of one of these fields.
fn is_accepted(tag: u16, value: u64) -> bool {
    match tag {
        BITS_PER_SAMPLE => value == 8 || value == 16,
        COMPRESSION => value == 1 || value == 32773,
        PHOTOMETRIC_INTERPRETATION => value == 1 || value == 2,
        SAMPLES_PER_PIXEL => value == 1 || value == 3,
        PLANAR_CONFIGURATION => value == 1 || value == 2,
        SAMPLE_FORMAT => value == 1,
        _ => true,
    }
}

/// Returns whether the samples fit: one sample goes with BlackIsZero, three with RGB.
fn fits_samples(samples: u64, photometric: u64) -> bool {
    (samples, photometric) == (1, 1) || (samples, photometric) == (3, 2)
}

/// Returns whether the samples of a pixel stand together, or there is one.
fn fits_planes(planar: u64, samples: u64) -> bool {
    planar == 1 || (planar, samples) == (2, 1)
}

/// Returns whether a value of the field doesn't fit that of another field, or one of its own.
fn is_discordant(file: &[u8], k: u32, tag: u16, values: &[u64]) -> bool {
    let samples = value(file, k, SAMPLES_PER_PIXEL, 0);
    match tag {
        SAMPLES_PER_PIXEL => {
            let photometric = value(file, k, PHOTOMETRIC_INTERPRETATION, 0);
            match both(samples, photometric) {
                Some((samples, photometric)) => !fits_samples(samples, photometric),
                None => false,
            }
        }
        PLANAR_CONFIGURATION => {
            let planar = value(file, k, PLANAR_CONFIGURATION, 0);
            match both(planar, samples) {
                Some((planar, samples)) => !fits_planes(planar, samples),
                None => false,
            }
        }
        BITS_PER_SAMPLE => values.iter().any(|value| values.first() != Some(value)),
        _ => false,
    }
}

/// Adds a fault Unsupported for each field of directory `k` with a value that the profile doesn't accept.
pub fn add_value_faults(
    alloc: Global,
    faults: &mut Vec<FileFault>,
    file: &[u8],
    k: u32,
) -> Result<(), AllocError> {
    for tag in NAMED {
        let values = values_there(alloc, file, k, tag)?;
        let wrong = values.iter().any(|value| !is_accepted(tag, *value))
            || is_discordant(file, k, tag, &values);
        add_if(faults, wrong, FileFault::Unsupported(tag))?;
    }
    Ok(())
}
