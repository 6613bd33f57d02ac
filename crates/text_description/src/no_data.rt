//! Which pixels of a file mean no data, and whether masks say it.
ghost use Rattle.std.specs.Prelude.{◌≡◌, IfOk, IfSome, IsSome, IsSomeAnd, List, ℕ, length};
ghost use Rattle.known_fields.specs.Directories.{IsChainWhole};
ghost use Rattle.known_fields.specs.Reads.{AreAllKnown};
ghost use Rattle.text_description.specs.NoData.{mask_directories, HaveTypes, IsNoDataText, IsShortText};

use known_fields::{KnownBytes, known_directories, known_value};
use std::alloc::{AllocError, Global};
use tiff_dir::tags::NEW_SUBFILE_TYPE;

/// GDAL_NODATA, a field of GDAL's own: a text, the value of the pixels that mean no data (GDAL, driver GTiff).
const GDAL_NODATA: u16 = 42113;

/// The most bytes of that text that are read, with its NUL.
const MOST_BYTES: u32 = 64;

/// The bit of NewSubfileType that marks a transparency mask (TIFF 6.0, section 8).
const MASK: u64 = 4;

/// Returns the text of GDAL_NODATA in the file's first directory, without its NUL. Returns `None` where the file has no such field, where
/// its bytes aren't known, and where the text has more than 63 bytes or no NUL. Where all of the file is known, a text of at most 63 bytes
/// is returned. Fails where no memory is left.
pub fn no_data_text<B: KnownBytes>(alloc: Global, bytes: &B) -> Result<Option<Vec<u8>>, AllocError>
    ensures known { IfOk result (λ o. IfSome o (λ text. (f : List ℕ) → B.is_of bytes.now f → IsNoDataText f text.items)) }
    ensures whole { IfOk result (λ o. (f : List ℕ) → B.is_of bytes.now f → AreAllKnown (B.is_known bytes.now) f
        → (text : List ℕ) → IsNoDataText f text → IsShortText text → IsSomeAnd o (λ v. v.items ≡ text)) }
{
    let mut text = Vec::new(alloc);
    for index in 0..MOST_BYTES {
        match known_value(bytes, 0, GDAL_NODATA, index) {
            Some(0) => return Ok(Some(text)),
            Some(byte) if byte < 256 => text.push(byte as u8)?,
            _ => return Ok(None),
        }
    }
    Ok(None)
}

/// Returns how many directories of the file are transparency masks. Returns `None` where the bytes that say it aren't known. Where all of
/// the file is known, its directories can be counted, and each has a value for NewSubfileType, the count is returned.
pub fn count_masks<B: KnownBytes>(bytes: &B) -> Option<u16>
    ensures known { IfSome result (λ n. (f : List ℕ) → B.is_of bytes.now f → n ≡ length (mask_directories f)) }
    ensures whole { (f : List ℕ) → B.is_of bytes.now f → AreAllKnown (B.is_known bytes.now) f → IsChainWhole f → HaveTypes f
        → IsSome result }
{
    let mut count = 0;
    for directory in 0..known_directories(bytes)? {
        if known_value(bytes, directory, NEW_SUBFILE_TYPE, 0)? / MASK % 2 == 1 {
            count += 1;
        }
    }
    Some(count)
}
