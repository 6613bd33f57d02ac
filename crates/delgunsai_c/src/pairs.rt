//! Samples of 16 bits in the byte order of the caller's computer.
ghost use Rattle.std.specs.Prelude.{◌≡◌};
ghost use Rattle.tile_plan.specs.Pairs.{exchanged};

use tile_plan::swap_pairs;

/// Exchanges the bytes of each pair in `room`, for a computer that has the least significant byte of a sample first. A last byte without a
/// pair stays.
#[unsafe(no_mangle)]
pub extern "C" fn cog_swap_pairs(room: &mut [u8])
    ensures { room.new ≡ exchanged room.old }
{
    swap_pairs(room);
}
