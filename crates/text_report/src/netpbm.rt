//! Windows as pictures: portable graymaps and pixmaps (Netpbm, the formats P5 and P6).
ghost use Rattle.std.specs.Prelude.{◌≡◌, ◌++◌, IfOk};
ghost use Rattle.text_report.specs.Netpbm.{netpbm};

use cog_reader::Window;
use extents::Memory;
use itoa::Buffer;
use std::alloc::Global;

/// Returns the head of a window's picture; its samples follow, row by row. The head names the greatest value of a sample: 65535 of 16 bits,
/// else 255. A sample of 16 bits has two bytes, the most significant first. Fails where no memory is left.
#[tactic(auto, unfolding(crate::specs::Netpbm::netpbm))]
pub fn picture_head(alloc: Global, window: &Window) -> Result<Vec<u8>, Memory>
    ensures { IfOk result (λ head. head.items ++ window.now.pixels.items
        ≡ netpbm window.now.samples window.now.bits window.now.w window.now.h window.now.pixels.items) }
{
    let magic = if window.samples == 1 { b"P5" } else { b"P6" };
    let maximum: &[u8] = if window.bits == 16 { b"65535" } else { b"255" };
    let mut digits = Buffer::new();
    let mut head = Vec::from_slice(alloc, magic)?;
    head.push(b'\n')?;
    head.extend_from_slice(digits.format(window.w).as_bytes())?;
    head.push(b' ')?;
    head.extend_from_slice(digits.format(window.h).as_bytes())?;
    head.push(b'\n')?;
    head.extend_from_slice(maximum)?;
    head.push(b'\n')?;
    Ok(head)
}

/// Returns the picture of a window: the head, and the samples after it. It is P5 where a pixel has one sample, else P6. Fails where no
/// memory is left.
pub fn window_picture(alloc: Global, window: &Window) -> Result<Vec<u8>, Memory>
    ensures { IfOk result (λ text. text.items
        ≡ netpbm window.now.samples window.now.bits window.now.w window.now.h window.now.pixels.items) }
{
    let mut picture = picture_head(alloc, window)?;
    picture.extend_from_slice(&window.pixels)?;
    Ok(picture)
}
