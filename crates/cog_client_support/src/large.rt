//! Large files: f5 in another revision, and plain tiles that stand apart, as GDAL's driver COG writes them.
use fixtures_support::{
    Field, FieldType, Order, Values, f5, push_directory, push_header, push_long,
};
use std::alloc::{AllocError, Global};

/// Returns the file f5 in another revision, 7 bytes longer. Each byte of tile t is 255 - t.
fn other_f5(alloc: Global) -> Result<Vec<u8>, AllocError> {
    let mut file = f5(alloc)?;
    for byte in file.iter_mut().skip(16384) {
        *byte = !*byte;
    }
    file.extend_from_slice(b"another")?;
    Ok(file)
}

/// Returns the file f5, and its other revision.
pub fn revisions_of_f5(alloc: Global) -> Result<(Vec<u8>, Vec<u8>), AllocError> {
    Ok((f5(alloc)?, other_f5(alloc)?))
}

/// Makes a field with one value of two bytes.
fn short(tag: u16, value: u16) -> Field {
    Field {
        tag,
        values: Values::Short(value),
    }
}

/// Makes a field with `count` values of four bytes, which begin at `first`.
fn longs(tag: u16, count: u32, first: u32) -> Field {
    Field {
        tag,
        values: Values::At {
            kind: FieldType::Long,
            count,
            first,
        },
    }
}

/// The number of bytes of a tile of 256 by 256 samples.
const TILE: u32 = 65536;

/// Returns the header, the directory and the two arrays of an image of `tiles` by `tiles` tiles. The first tile begins four bytes after
/// them, and each other one begins 8 bytes after the end of the one before.
fn head_of_cog(alloc: Global, tiles: u16) -> Result<Vec<u8>, AllocError> {
    let side = tiles.saturating_mul(256);
    let count = u32::from(tiles).saturating_mul(u32::from(tiles));
    let arrays = count.saturating_mul(4);
    let mut out = Vec::new(alloc);
    push_header(&mut out, Order::Little, 8)?;
    let fields = [
        short(256, side),
        short(257, side),
        short(258, 8),
        short(259, 1),
        short(262, 1),
        short(322, 256),
        short(323, 256),
        longs(324, count, 122),
        longs(325, count, arrays.saturating_add(122)),
    ];
    push_directory(&mut out, Order::Little, &fields, 0)?;
    let first = arrays.saturating_mul(2).saturating_add(126);
    for tile in 0..count {
        let place = tile.saturating_mul(TILE + 8).saturating_add(first);
        push_long(&mut out, Order::Little, place)?;
    }
    for _ in 0..count {
        push_long(&mut out, Order::Little, TILE)?;
    }
    Ok(out)
}

/// Returns an image of `tiles` by `tiles` plain tiles of 256 by 256 samples, as GDAL's driver COG writes them. Each tile stands between the
/// four bytes of its length and a copy of its last four bytes. Each byte of tile t is t, or 255 - t.
pub fn cog(alloc: Global, tiles: u16, is_other: bool) -> Result<Vec<u8>, AllocError> {
    let mut out = head_of_cog(alloc, tiles)?;
    let count = u32::from(tiles).saturating_mul(u32::from(tiles));
    for tile in 0..count {
        let [low, _, _, _] = tile.to_le_bytes();
        let sample = if is_other { !low } else { low };
        push_long(&mut out, Order::Little, TILE)?;
        out.extend_from_slice(&[sample; 65540])?;
    }
    Ok(out)
}
