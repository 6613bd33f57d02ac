//! Packs and unpacks the bytes of tiles by PackBits (TIFF 6.0, section 9).
#![tactic(auto)]

mod packing;
mod unpacking;

pub use packing::pack_row;
pub use unpacking::unpack;
