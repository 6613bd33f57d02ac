//! The directories of a file, and their fields.
ghost use Rattle.std.specs.Prelude.{◌≡◌, ◌<◌, ◌+◌, ◌*◌};
ghost use Rattle.tiff_dir.specs.File.{directory, has_directory, entry_count};

use crate::numbers::{long, order_of, short};

/// Returns where directory `k` begins.
#[tactic(auto, unfolding(tiff_dir::specs::File::directory))]
pub fn directory(file: &[u8], k: u32) -> Option<u32>
    ensures { result ≡ directory file.now k }
{
    if k == 0 {
        return long(file, 4);
    }
    let at = directory(file, k - 1)?;
    let entries = short(file, u64::from(at))?;
    long(file, u64::from(at) + 2 + 12 * u64::from(entries))
}

/// Returns whether none of the places of the directories 1 to `k` is 0 or missing.
#[tactic(auto, unfolding(tiff_dir::specs::File::has_directory))]
pub fn has_directory(file: &[u8], k: u32) -> bool
    ensures { result ≡ has_directory file.now k }
{
    k == 0 || has_directory(file, k - 1) && directory(file, k).unwrap_or(0) > 0
}

/// Returns how many entries directory `k` has.
#[tactic(auto, unfolding(tiff_dir::specs::File::entry_count))]
pub fn entry_count(file: &[u8], k: u32) -> Option<u16>
    ensures { result ≡ entry_count file.now k }
{
    short(file, u64::from(directory(file, k)?))
}
