//! The sum of a field's values, in the bytes of a file that are known.
ghost use Rattle.std.specs.Prelude.{◌≡◌, ◌<◌, ◌^◌, ℕ, IfSome, List, Some};
ghost use Rattle.tiff_dir.specs.File.{size_of};
ghost use Rattle.known_fields.specs.Sum.{sum_at};

use crate::KnownBytes;
use crate::numbers::{number, order_in};
use tiff_dir::Place;

/// Returns the sum of the values at `place`, as numbers without a sign. Returns `None` where a byte of them isn't known,
/// and where the sum has more than 64 bits. Allocates nothing.
pub fn known_sum<B: KnownBytes>(bytes: &B, place: Place) -> Option<u64>
    requires near { place.first < 2 ^ 33 }
    ensures known { IfSome result (λ sum. (f : List ℕ) → B.is_of bytes.now f
        → sum_at f place.first (size_of place.kind) place.count ≡ Some sum) }
{
    let order = order_in(bytes)?;
    let size = place.kind.size();
    let mut sum: u64 = 0;
    for index in 0..place.count {
        let at = place.first + u64::from(index) * size;
        let value = number(bytes, order, at, size as usize)?;
        sum = sum.checked_add(value)?;
    }
    Some(sum)
}
