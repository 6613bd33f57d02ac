//! The directories and their entries, in the bytes of a file that are known.
ghost use Rattle.std.specs.Prelude.{◌≡◌, ◌+◌, ◌*◌, ◌<◌, ◌≤◌, ◌^◌, ℕ, if◌then◌else◌, IfSome, List, None, Some, nat_le};
ghost use Rattle.tiff_dir.specs.File.{directory, number, order_of};
ghost use Rattle.known_fields.specs.Entry.{place_from};
ghost use Rattle.known_fields.specs.Reads.{HaveOrder, Reads};

use crate::KnownBytes;
use crate::numbers::{long, short};
use tiff_dir::Order;

/// Returns the offset of directory `index`, or `None` where a byte on the way there isn't known.
pub(crate) fn directory_at<B: KnownBytes>(bytes: &B, order: Order, index: u16) -> Option<u32>
    requires { HaveOrder (B.is_of bytes.now) order }
    ensures directory { Reads (B.is_of bytes.now) (B.is_known bytes.now) (λ f. directory f index) result }
    ensures fits { IfSome result (λ at. at < 2 ^ 32) }
{
    let mut at = long(bytes, order, 4)?;
    for i in 0..index {
        let entries = short(bytes, order, u64::from(at))?;
        at = long(bytes, order, u64::from(at) + 2 + 12 * u64::from(entries))?;
    }
    Some(at)
}

/// Returns the place of the first entry with the tag, among the `entries` entries from `first` on. Returns `Some(None)`
/// where none of them has the tag, and `None` where a tag isn't known before such an entry is found.
pub(crate) fn place_of<B: KnownBytes>(
    bytes: &B,
    order: Order,
    first: u64,
    entries: u16,
    tag: u16,
) -> Option<Option<u64>>
    requires named { HaveOrder (B.is_of bytes.now) order }
    requires near { first + 12 * entries < 2 ^ 62 }
    ensures place { Reads (B.is_of bytes.now) (B.is_known bytes.now) (λ f. place_from f first entries tag) result }
    ensures near { IfSome result (λ found. IfSome found (λ place. place < 2 ^ 62)) }
{
    for i in 0..u64::from(entries) {
        let at = first + 12 * i;
        if short(bytes, order, at)? == tag {
            return Some(Some(at));
        }
    }
    Some(None)
}
