//! Samples of 16 bits in the other byte order.
ghost use Rattle.std.specs.Prelude.{◌≡◌, length};
ghost use Rattle.tile_plan.specs.Pairs.{exchanged};

use std::simd::prelude::*;

/// The number of bytes that are exchanged at once.
const LANES: usize = 16;

/// Exchanges the two bytes of each of eight pairs, as lanes of one vector.
#[inline(always)]
fn swap_lanes(bytes: &mut [u8])
    requires { length bytes.old ≡ 16 }
    ensures { bytes.new ≡ exchanged bytes.old }
{
    let lanes = u8x16::from_slice(bytes);
    let swapped = lanes.swizzle([1, 0, 3, 2, 5, 4, 7, 6, 9, 8, 11, 10, 13, 12, 15, 14]);
    swapped.copy_to_slice(bytes);
}

/// Exchanges the two bytes of one pair.
#[inline(always)]
fn swap_pair(pair: &mut [u8])
    requires { length pair.old ≡ 2 }
    ensures { pair.new ≡ exchanged pair.old }
{
    let first = pair[0];
    pair[0] = pair[1];
    pair[1] = first;
}

/// Exchanges the two bytes of each pair, one pair after another.
fn swap_rest(bytes: &mut [u8])
    ensures { bytes.new ≡ exchanged bytes.old }
{
    let mut at = 0;
    while 2 <= bytes.len() - at {
        swap_pair(&mut bytes[at..at + 2]);
        at += 2;
    }
}

/// Exchanges bytes 2i and 2i + 1: samples of 16 bits get the other byte order. A last byte without a pair stays.
pub fn swap_pairs(bytes: &mut [u8])
    ensures { bytes.new ≡ exchanged bytes.old }
{
    let mut at = 0;
    while LANES <= bytes.len() - at {
        swap_lanes(&mut bytes[at..at + LANES]);
        at += LANES;
    }
    swap_rest(&mut bytes[at..]);
}
