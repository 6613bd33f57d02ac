//! The byte order of samples.
ghost use Rattle.std.specs.Prelude.{◌≡◌, ◌+◌, ◌*◌, ◌≤◌, ℕ, IsTrue, length};
ghost use Rattle.tiff_dir.specs.Number.{number_in};
ghost use Rattle.tiff_dir.specs.Profile.{is_depth, sample_bytes};
ghost use Rattle.tile_plan.specs.Samples.{sample_at};

use crate::swap_pairs;
use tiff_dir::Order;

/// Puts the most significant byte of each sample first. Samples have 8 or 16 bits, and `order` is the byte order of the
/// file.
pub fn big_first(order: Order, bits: u16, bytes: &mut [u8])
    requires { IsTrue (is_depth bits) }
    ensures len { length bytes.new ≡ length bytes.old }
    ensures samples { (k : ℕ) → k * sample_bytes bits + sample_bytes bits ≤ length bytes.old
        → sample_at bits bytes.new k ≡ number_in order (k * sample_bytes bits) (sample_bytes bits) bytes.old }
{
    match order {
        Order::Little => {
            if bits == 16 {
                swap_pairs(bytes);
            }
        }
        Order::Big => {}
    }
}
