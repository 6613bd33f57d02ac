//! From one directory to the next.
ghost use Rattle.std.specs.Prelude.{◌≡◌, ℕ, ◌+◌, ◌*◌, ◌<◌, ◌≤◌, List, true, IfOk, MatchResult};
ghost use Rattle.tiff_dir.specs.declared.limits.TheConstants.{MAX_DIRECTORIES};
ghost use Rattle.tiff_dir.specs.Fault.{IsFaultOfDirectories};
ghost use Rattle.tiff_dir.specs.Stage.{index_of, is_past_first, Follows, IsAt, IsKept};

use crate::limits::MAX_DIRECTORIES;
use crate::stage::Stage;
use crate::{FileFault, Order};

/// Goes to directory `index` at offset `at`. After the first directory the offset 0 is the end. Fails with
/// `TooManyDirs` or `DirPlace`.
pub(crate) fn next(order: Order, index: u32, at: u32) -> Result<Stage, FileFault>
    requires { index ≤ MAX_DIRECTORIES }
    ensures index { IfOk result (λ stage. index_of stage ≡ index) }
    ensures kept { IfOk result (λ stage. IsKept stage (1 + 4 * index)) }
    ensures begins { IfOk result (λ stage. is_past_first stage ≡ true → 0 < index) }
    ensures agrees { (f : List ℕ) → Follows f order index at → MatchResult result (IsAt f index) (IsFaultOfDirectories f) }
{
    if index > 0 && at == 0 {
        return Ok(Stage::Ended { order, index });
    }
    if index >= MAX_DIRECTORIES {
        return Err(FileFault::TooManyDirs);
    }
    if at < 8 || at % 2 != 0 {
        return Err(FileFault::DirPlace);
    }
    Ok(Stage::ValueCount { order, index, at })
}
