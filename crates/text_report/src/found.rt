//! The value of a field for which a file isn't read.
ghost use Rattle.std.specs.Prelude.{◌≡◌, false, true, IfSome, List, ℕ};
ghost use Rattle.tiff_dir.specs.Level.{is_level};
ghost use Rattle.known_fields.specs.Directories.{IsChainWhole};
ghost use Rattle.known_fields.specs.Reads.{AreAllKnown};
ghost use Rattle.text_report.specs.Found.{HasValue, first_unread, is_read};

use known_fields::{KnownBytes, known_directories, known_value};
use tiff_dir::field_values::{
    BLACK_IS_ZERO, CHUNKY, COMPRESSION_NONE, COMPRESSION_PACKBITS, RGB, UNSIGNED_INTEGER,
};
use tiff_dir::tags;

/// Returns whether `value` is one of those that the sentence on the field `tag` names as read.
fn is_read(tag: u16, value: u64) -> bool
    ensures { result ≡ is_read tag value }
{
    match tag {
        tags::BITS_PER_SAMPLE => value == 8 || value == 16,
        tags::COMPRESSION => {
            value == u64::from(COMPRESSION_NONE) || value == u64::from(COMPRESSION_PACKBITS)
        }
        tags::PHOTOMETRIC_INTERPRETATION => {
            value == u64::from(BLACK_IS_ZERO) || value == u64::from(RGB)
        }
        tags::SAMPLES_PER_PIXEL => value == 1 || value == 3,
        tags::PLANAR_CONFIGURATION => value == u64::from(CHUNKY),
        tags::SAMPLE_FORMAT => value == u64::from(UNSIGNED_INTEGER),
        _ => true,
    }
}

/// Returns whether directory `directory` is known to be a level. Where all of the file is known, this is whether it is one.
#[tactic(auto, unfolding(tiff_dir::specs::Level::is_level))]
fn is_known_level<B: KnownBytes>(bytes: &B, directory: u16) -> bool
    ensures known { result ≡ true → (f : List ℕ) → B.is_of bytes.now f → is_level f directory ≡ true }
    ensures whole { (f : List ℕ) → B.is_of bytes.now f → AreAllKnown (B.is_known bytes.now) f → result ≡ is_level f directory }
{
    directory == 0 || known_value(bytes, directory, tags::NEW_SUBFILE_TYPE, 0) == Some(1)
}

/// Returns a value of the field `tag` that isn't read: the first one among the values 0 of the file's levels. Returns `None` where no such
/// value is known. Where all of the file is known, and its directories can be counted, the result is exactly that value, or `None` if the
/// file has none. A mask's field may have another value, which is no reason for a fault.
pub fn found_value<B: KnownBytes>(bytes: &B, tag: u16) -> Option<u64>
    ensures unread { IfSome result (λ v. is_read tag v ≡ false) }
    ensures there { IfSome result (λ v. (f : List ℕ) → B.is_of bytes.now f → HasValue f tag v) }
    ensures whole { (f : List ℕ) → B.is_of bytes.now f → AreAllKnown (B.is_known bytes.now) f → IsChainWhole f
        → result ≡ first_unread f tag }
{
    let directories = known_directories(bytes)?;
    for directory in 0..directories {
        if is_known_level(bytes, directory)
            && let Some(value) = known_value(bytes, directory, tag, 0)
            && !is_read(tag, value)
        {
            return Some(value);
        }
    }
    None
}

/// Returns the name of a value that isn't read, or `None` where this table has none (TIFF 6.0, sections 8, 11 and 19; GDAL's and Adobe's
/// numbers of compressions).
pub fn value_name(tag: u16, value: u64) -> Option<&'static str> {
    match tag {
        tags::COMPRESSION => compression_name(value),
        tags::PHOTOMETRIC_INTERPRETATION => photometric_name(value),
        tags::SAMPLE_FORMAT => sample_format_name(value),
        tags::PLANAR_CONFIGURATION if value == 2 => Some("a plane for each sample"),
        _ => None,
    }
}

fn compression_name(value: u64) -> Option<&'static str> {
    match value {
        2 => Some("CCITT RLE"),
        3 => Some("CCITT Group 3"),
        4 => Some("CCITT Group 4"),
        5 => Some("LZW"),
        6 => Some("old-style JPEG"),
        7 => Some("JPEG"),
        8 | 32946 => Some("DEFLATE"),
        34712 => Some("JPEG 2000"),
        34887 => Some("LERC"),
        34925 => Some("LZMA"),
        50000 => Some("ZSTD"),
        50001 => Some("WebP"),
        50002 => Some("JPEG XL"),
        _ => None,
    }
}

fn photometric_name(value: u64) -> Option<&'static str> {
    match value {
        0 => Some("grey, white being 0"),
        3 => Some("a palette"),
        4 => Some("a mask"),
        5 => Some("CMYK"),
        6 => Some("YCbCr"),
        8 => Some("CIELab"),
        _ => None,
    }
}

fn sample_format_name(value: u64) -> Option<&'static str> {
    match value {
        2 => Some("integers with a sign"),
        3 => Some("floating point"),
        4 => Some("undefined"),
        5 => Some("complex integers"),
        6 => Some("complex floating point"),
        _ => None,
    }
}
