//! The packed tiles of files of the disk.
ghost use Rattle.std.specs.Prelude.{IfOk, OnOk};
ghost use Rattle.tiff_dir.specs.Walk.{HasEnded};

use anyhow::{Result, bail};
use packbits::unpack;
use std::alloc::Global;
use std::fs::File;
use std::io::Read;
use std::rt::{Clock, Files};
use std::time::Instant;
use tiff_dir::{Codec, Compression, Level, Order, Place, Walk, tile_of};

/// How often the tiles of a level are unpacked.
const REPEATS: u32 = 64;

/// The most ranges of a file's directories.
const MAX_RANGES: u32 = 65;

/// Walks over all directories of a file.
fn walk_on(walk: &mut Walk, file: &[u8]) -> Result<()>
    ensures { OnOk result (HasEnded walk.new) }
{
    for _ in 0..=MAX_RANGES {
        let Ok(next) = walk.need(file.len() as u64) else {
            bail!("a directory ends after the file");
        };
        let Some(span) = next else {
            return Ok(());
        };
        let bytes = &file[span.first as usize..span.last as usize + 1];
        if walk.give(bytes).is_err() {
            bail!("a fault of the directories");
        }
    }
    bail!("too many ranges")
}

/// A walk over all directories of a file.
fn walk_over(alloc: Global, file: &[u8]) -> Result<Walk>
    ensures { IfOk result HasEnded }
{
    let mut walk = Walk::new(alloc);
    walk_on(&mut walk, file)?;
    Ok(walk)
}

/// The bytes of an array.
fn array(file: &[u8], place: Place) -> Option<&[u8]> {
    let first = usize::try_from(place.first).ok()?;
    let len = usize::try_from(place.len).ok()?;
    file.get(first..first.checked_add(len)?)
}

/// Unpacks each tile of a packed level to the same place, and says how many bytes they have.
fn unpack_tiles(file: &[u8], order: Order, level: &Level, out: &mut [u8]) -> Result<u64> {
    let (Some(offsets), Some(counts)) = (array(file, level.offsets), array(file, level.counts))
    else {
        bail!("an array ends after the file");
    };
    if offsets.len() as u64 != level.offsets.len || counts.len() as u64 != level.counts.len {
        bail!("an array ends after the file");
    }
    let mut bytes = 0u64;
    for t in 0..level.offsets.count {
        let (first, len) = tile_of(order, level, t, offsets, counts);
        let rest = file.get(first as usize..);
        let Some(seg) = rest.and_then(|rest| rest.get(..len as usize)) else {
            bail!("a tile ends after the file");
        };
        if unpack(seg, level.plain_row(), out).is_err() {
            bail!("damaged packets");
        }
        bytes = bytes.wrapping_add(out.len() as u64);
    }
    Ok(bytes)
}

/// Unpacks each tile of a packed level, and says how many bytes they have.
fn unpack_level(alloc: Global, file: &[u8], order: Order, level: &Level) -> Result<u64> {
    let mut out = vec![in alloc; 0u8; level.plain_size()]?;
    unpack_tiles(file, order, level, &mut out)
}

/// Unpacks the tiles of the packed levels, as often as they are, and says how many bytes they have.
fn unpack_levels(alloc: Global, file: &[u8], order: Order, levels: &[Level]) -> Result<u64> {
    let mut bytes = 0u64;
    for level in levels {
        if level.compression == Compression::Packed(Codec::PackBits) {
            for _ in 0..REPEATS {
                let count = unpack_level(alloc, file, order, level)?;
                bytes = bytes.wrapping_add(count);
            }
        }
    }
    Ok(bytes)
}

/// Prints how many GB a second the packed levels of a file are unpacked to.
fn measure_levels(
    rt: &(impl Print + Clock + AllocGlobal),
    path: &str,
    file: &[u8],
    order: Order,
    levels: &[Level],
) -> Result<()> {
    let start = Instant::now(rt)?;
    let bytes = unpack_levels(rt.alloc(), file, order, levels)?;
    let seconds = start.elapsed(rt)?.as_secs_f64();
    let kibibytes = f64::from(u32::try_from(bytes / 1024)?);
    println!(rt;
        "unpack {path}: {:.2} GB/s",
        kibibytes * 1024.0 / seconds / 1e9
    )?;
    Ok(())
}

/// The bytes of a file of the disk.
fn read_file(rt: &(impl Files + AllocGlobal), path: &str) -> Result<Vec<u8>> {
    let mut file = Vec::new(rt.alloc());
    File::open(rt, path)?.read_to_end(&mut file)?;
    Ok(file)
}

/// Prints how many GB a second the packed tiles of a file are unpacked to.
pub fn measure_file(rt: &(impl Print + Clock + Files + AllocGlobal), path: &str) -> Result<()> {
    let file = read_file(rt, path)?;
    let walk = walk_over(rt.alloc(), &file)?;
    measure_levels(rt, path, &file, walk.order(), walk.levels())
}
