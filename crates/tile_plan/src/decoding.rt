//! Unpacks the bytes of a packed tile by its codec.
ghost use Rattle.std.specs.Prelude.{◌≡◌, ◌<◌, ℕ, List, IfErr, OnOk, length};
ghost use Rattle.tiff_dir.specs.declared.level.Compression.TheVariants.{Packed};
ghost use Rattle.tiff_dir.specs.Window.{IsUnpackedBy};

use packbits::unpack;
use tiff_dir::{Codec, FileFault};

/// Unpacks the bytes of a tile into `plain`, in rows of `row` bytes, by the codec. Fails with `Packet` where they don't
/// stand for such rows. Then `plain` may hold anything.
pub fn decode(codec: Codec, packed: &[u8], row: usize, plain: &mut [u8]) -> Result<(), FileFault>
    requires { 0 < row }
    ensures unpacked { OnOk result (IsUnpackedBy (Packed codec) row (length plain.old) packed.now plain.new) }
    ensures refused { IfErr result (λ fault. (fault ≡ FileFault.Packet)
        × ((out : List ℕ) → IsUnpackedBy (Packed codec) row (length plain.old) packed.now out → ⊥)) }
{
    match codec {
        Codec::PackBits => unpack(packed, row, plain),
    }
}
