//! The file f5, from its table of fields.
ghost use Rattle.fixtures_support.specs.Files.{large, large_head};
ghost use Rattle.std.specs.Prelude.{IfOk, ◌≡◌};

use crate::files::{head_of_plain, push_even_tile, push_rising_tiles};
use std::alloc::{AllocError, Global};

/// Returns the bytes before the tiles of 1280 by 1024 samples in 20 plain tiles of 256 by 256.
#[tactic(auto, unfolding(crate::specs::Files::large_head))]
fn head_of_large(alloc: Global) -> Result<Vec<u8>, AllocError>
    ensures { IfOk result (λ v. v.items ≡ large_head) }
{
    let mut out = head_of_plain(alloc, (1280, 1024), 256, 20, 16384)?;
    push_even_tile(&mut out, 16384 - 282, 0)?;
    Ok(out)
}

/// Returns the file f5: 1280 by 1024 samples in 20 plain tiles of 256 by 256. The tiles begin at 16,384, and each byte of tile t is t.
#[tactic(auto, unfolding(crate::specs::Files::large))]
pub fn f5(alloc: Global) -> Result<Vec<u8>, AllocError>
    ensures { IfOk result (λ v. v.items ≡ large) }
{
    let mut out = head_of_large(alloc)?;
    push_rising_tiles(&mut out, 65536, 0, 20)?;
    Ok(out)
}
