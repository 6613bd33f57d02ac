//! The file f4, from its table of fields.
ghost use Rattle.fixtures_support.specs.Files.{colour_rows, colour_tiles, colours};
ghost use Rattle.std.specs.Prelude.{IfOk, OnOk, ◌++◌, ◌≡◌};

use crate::build::{FieldType, Order, push_directory, push_header};
use crate::files::{outside, push_longs, push_shorts, short};
use std::alloc::{AllocError, Global};

/// Appends the 16 packed rows of tile `t`. Each has three bytes as they are, and then 45 copies of 128.
fn push_colour_tile(out: &mut Vec<u8>, t: u8) -> Result<(), AllocError>
    ensures { OnOk result (out.new.items ≡ out.old.items ++ colour_rows t 16) }
{
    for row in 0..16u8 {
        out.extend_from_slice(&[2, row, t, 0xff, 0xd4, 0x80])?;
    }
    Ok(())
}

fn push_colour_tiles(out: &mut Vec<u8>) -> Result<(), AllocError>
    ensures { OnOk result (out.new.items ≡ out.old.items ++ colour_tiles 4) }
{
    for t in 0..4u8 {
        push_colour_tile(out, t)?;
    }
    Ok(())
}

/// Returns the file f4: 20 by 18 RGB pixels in four packed tiles of 16 by 16 pixels. In row y of tile t the first pixel is y, t and 255.
/// The samples of the other pixels are 128.
#[tactic(auto, unfolding(crate::specs::Files::colours))]
pub fn f4(alloc: Global) -> Result<Vec<u8>, AllocError>
    ensures { IfOk result (λ v. v.items ≡ colours) }
{
    let mut out = Vec::new(alloc);
    push_header(&mut out, Order::Little, 8)?;
    let fields = [
        short(256, 20),
        short(257, 18),
        outside(258, FieldType::Short, 3, 134),
        short(259, 32773),
        short(262, 2),
        short(277, 3),
        short(322, 16),
        short(323, 16),
        outside(324, FieldType::Long, 4, 140),
        outside(325, FieldType::Short, 4, 156),
    ];
    push_directory(&mut out, Order::Little, &fields, 0)?;
    push_shorts(&mut out, &[8; 3])?;
    push_longs(&mut out, &[164, 260, 356, 452])?;
    push_shorts(&mut out, &[96; 4])?;
    push_colour_tiles(&mut out)?;
    Ok(out)
}
