//! How many directories the file has, by its bytes that are known.
ghost use Rattle.std.specs.Prelude.{◌≡◌, ◌≤◌, ℕ, IfSome, IsSome, List};
ghost use Rattle.std.specs.List.{range_with_len};
ghost use Rattle.tiff_dir.specs.File.{directories};
ghost use Rattle.known_fields.specs.Reads.{AreAllKnown};
ghost use Rattle.known_fields.specs.Directories.{IsChainWhole};

use crate::KnownBytes;
use crate::entry::directory_at;
use crate::numbers::order_in;

/// The most directories of a file that is read.
const MAX_DIRECTORIES: u16 = tiff_dir::limits::MAX_DIRECTORIES as u16;

/// Returns how many directories the file has, at most 16. They are numbered from 0. Returns `None` where a byte that
/// says it isn't known, or the offset of a next directory isn't in the file. Allocates nothing.
pub fn known_directories<B: KnownBytes>(bytes: &B) -> Option<u16>
    ensures known { IfSome result (λ n. (f : List ℕ) → B.is_of bytes.now f → directories f ≡ range_with_len 0 n) }
    ensures whole { (f : List ℕ) → B.is_of bytes.now f → AreAllKnown (B.is_known bytes.now) f → IsChainWhole f → IsSome result }
    ensures few { IfSome result (λ n. n ≤ 16) }
{
    let order = order_in(bytes)?;
    for index in 1..MAX_DIRECTORIES {
        if directory_at(bytes, order, index)? == 0 {
            return Some(index);
        }
    }
    Some(MAX_DIRECTORIES)
}
