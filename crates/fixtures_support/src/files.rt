//! The files f1, f1m, f2, f2b, f3, f6 and f6m, from their tables of fields.
ghost use Rattle.fixtures_support.specs.Files.{
  deep_samples,
  deep_tile,
  even_tiles,
  first_level_fields,
  long,
  many_tiles,
  numbers,
  one_tile,
  one_tile_head,
  outside,
  outside_values,
  packed_rows,
  plain_head,
  rising_samples,
  second_level_fields,
  short,
  tile_places,
  two_levels,
};
ghost use Rattle.fixtures_support.specs.Tiff.{directory};
ghost use Rattle.std.specs.Prelude.{IfOk, OnOk, replicate, ◌++◌, ◌*◌, ◌+◌, ◌-◌, ◌<◌, ◌≤◌, ◌^◌, ◌≡◌};

use crate::build::{
    Field, FieldType, Order, Values, push_directory, push_double, push_header, push_long,
    push_short,
};
use std::alloc::{AllocError, Global};

pub(crate) fn short(tag: u16, value: u16) -> Field
    ensures { result ≡ short tag value }
{
    Field {
        tag,
        values: Values::Short(value),
    }
}

fn long(tag: u16, value: u32) -> Field
    ensures { result ≡ long tag value }
{
    Field {
        tag,
        values: Values::Long(value),
    }
}

pub(crate) fn outside(tag: u16, kind: FieldType, count: u32, first: u32) -> Field
    ensures { result ≡ outside tag kind count first }
{
    Field {
        tag,
        values: Values::At { kind, count, first },
    }
}

/// Appends each byte once, in ascending order.
fn push_samples(out: &mut Vec<u8>) -> Result<(), AllocError>
    ensures { OnOk result (out.new.items ≡ out.old.items ++ rising_samples 256) }
{
    for sample in 0..=255u8 {
        out.push(sample)?;
    }
    Ok(())
}

/// Appends the 256 samples of 16 bits from 32768 on.
fn push_deep_samples(out: &mut Vec<u8>, order: Order) -> Result<(), AllocError>
    ensures { OnOk result (out.new.items ≡ out.old.items ++ deep_samples order 256) }
{
    for t in 0..256u16 {
        push_short(out, order, 32768 + t)?;
    }
    Ok(())
}

/// Returns the bytes before the tile of a file of 16 by 16 samples, in one plain tile of 16 by 16.
#[tactic(auto, unfolding(crate::specs::Files::one_tile_head))]
fn head_of_one(alloc: Global, order: Order, bits: u16, size: u32) -> Result<Vec<u8>, AllocError>
    ensures { IfOk result (λ v. v.items ≡ one_tile_head order bits size) }
{
    let mut out = Vec::new(alloc);
    push_header(&mut out, order, 8)?;
    let fields = [
        short(256, 16),
        short(257, 16),
        short(258, bits),
        short(259, 1),
        short(262, 1),
        short(322, 16),
        short(323, 16),
        long(324, 122),
        long(325, size),
    ];
    push_directory(&mut out, order, &fields, 0)?;
    Ok(out)
}

#[tactic(auto, unfolding(crate::specs::Files::one_tile))]
fn one_tile(alloc: Global, order: Order) -> Result<Vec<u8>, AllocError>
    ensures { IfOk result (λ v. v.items ≡ one_tile order) }
{
    let mut out = head_of_one(alloc, order, 8, 256)?;
    push_samples(&mut out)?;
    Ok(out)
}

#[tactic(auto, unfolding(crate::specs::Files::deep_tile))]
fn deep_tile(alloc: Global, order: Order) -> Result<Vec<u8>, AllocError>
    ensures { IfOk result (λ v. v.items ≡ deep_tile order) }
{
    let mut out = head_of_one(alloc, order, 16, 512)?;
    push_deep_samples(&mut out, order)?;
    Ok(out)
}

/// Returns the file f1: 16 by 16 samples in one plain tile of 16 by 16, with the least significant byte first. Sample (x, y) is 16 y + x.
pub fn f1(alloc: Global) -> Result<Vec<u8>, AllocError>
    ensures { IfOk result (λ v. v.items ≡ one_tile Order.Little) }
{
    one_tile(alloc, Order::Little)
}

/// Returns the file f1 with the most significant byte first.
pub fn f1m(alloc: Global) -> Result<Vec<u8>, AllocError>
    ensures { IfOk result (λ v. v.items ≡ one_tile Order.Big) }
{
    one_tile(alloc, Order::Big)
}

/// Returns the file f1 with samples of 16 bits. Sample (x, y) is 32768 + 16 y + x.
pub fn f6(alloc: Global) -> Result<Vec<u8>, AllocError>
    ensures { IfOk result (λ v. v.items ≡ deep_tile Order.Little) }
{
    deep_tile(alloc, Order::Little)
}

/// Returns the file f6 with the most significant byte first.
pub fn f6m(alloc: Global) -> Result<Vec<u8>, AllocError>
    ensures { IfOk result (λ v. v.items ≡ deep_tile Order.Big) }
{
    deep_tile(alloc, Order::Big)
}

/// Returns the bytes before the tiles of an image of the sides `sides`. Its samples have 8 bits. It has `tiles` plain square tiles, of
/// which the first begins at `first`.
#[tactic(auto, unfolding(crate::specs::Files::plain_head))]
pub(crate) fn head_of_plain(
    alloc: Global,
    sides: (u16, u16),
    side: u16,
    tiles: u16,
    first: u32,
) -> Result<Vec<u8>, AllocError>
    requires sizes { side ≤ 256 }
    requires places { first + side * side * tiles < 2 ^ 32 }
    ensures { IfOk result (λ v. v.items ≡ plain_head sides.0 sides.1 side tiles first) }
{
    let count = u32::from(tiles);
    let size = u32::from(side) * u32::from(side);
    let mut out = Vec::new(alloc);
    push_header(&mut out, Order::Little, 8)?;
    let fields = [
        short(256, sides.0),
        short(257, sides.1),
        short(258, 8),
        short(259, 1),
        short(262, 1),
        short(322, side),
        short(323, side),
        outside(324, FieldType::Long, count, 122),
        outside(325, FieldType::Long, count, 122 + 4 * count),
    ];
    push_directory(&mut out, Order::Little, &fields, 0)?;
    push_offsets(&mut out, first, size, count)?;
    let sizes = vec![in alloc; size; usize::from(tiles)]?;
    push_longs(&mut out, &sizes)?;
    Ok(out)
}

/// Appends the offsets of `n` tiles of `size` bytes. The first one is `first`.
pub(crate) fn push_offsets(
    out: &mut Vec<u8>,
    first: u32,
    size: u32,
    n: u32,
) -> Result<(), AllocError>
    requires { first + size * n < 2 ^ 32 }
    ensures { OnOk result (out.new.items ≡ out.old.items ++ tile_places first size n) }
{
    for t in 0..n {
        push_long(out, Order::Little, first + size * t)?;
    }
    Ok(())
}

/// Appends a plain tile of `size` bytes. Each byte is `value`.
pub(crate) fn push_even_tile(out: &mut Vec<u8>, size: usize, value: u8) -> Result<(), AllocError>
    requires { size < 2 ^ 32 }
    ensures { OnOk result (out.new.items ≡ out.old.items ++ replicate size value) }
{
    let len = out.len() + size;
    out.resize(len, value)
}

/// Appends `n` plain tiles of `size` bytes. Each byte of tile t is `first` + t.
pub(crate) fn push_rising_tiles(
    out: &mut Vec<u8>,
    size: usize,
    first: u16,
    n: u16,
) -> Result<(), AllocError>
    requires bytes { first + n ≤ 256 }
    requires size { size < 2 ^ 32 }
    ensures tiles { OnOk result (out.new.items ≡ out.old.items ++ even_tiles size (λ t. first + t) n) }
{
    for t in 0..n {
        push_even_tile(out, size, (first + t) as u8)?;
    }
    Ok(())
}

/// Appends 256 plain tiles. Each byte of tile t is 255 - t.
fn push_falling_tiles(out: &mut Vec<u8>) -> Result<(), AllocError>
    ensures { OnOk result (out.new.items ≡ out.old.items ++ even_tiles 256 (λ t. 255 - t) 256) }
{
    for t in 0..=255u8 {
        out.extend_from_slice(&[255 - t; 256])?;
    }
    Ok(())
}

/// Returns the file f2: 256 by 256 samples in 256 plain tiles of 16 by 16. Each byte of tile t is t.
#[tactic(auto, unfolding(crate::specs::Files::many_tiles))]
pub fn f2(alloc: Global) -> Result<Vec<u8>, AllocError>
    ensures { IfOk result (λ v. v.items ≡ many_tiles (λ t. t)) }
{
    let mut out = head_of_plain(alloc, (256, 256), 16, 256, 2170)?;
    push_rising_tiles(&mut out, 256, 0, 256)?;
    Ok(out)
}

/// Returns the file f2 with other samples: each byte of tile t is 255 - t.
#[tactic(auto, unfolding(crate::specs::Files::many_tiles))]
pub fn f2b(alloc: Global) -> Result<Vec<u8>, AllocError>
    ensures { IfOk result (λ v. v.items ≡ many_tiles (λ t. 255 - t)) }
{
    let mut out = head_of_plain(alloc, (256, 256), 16, 256, 2170)?;
    push_falling_tiles(&mut out)?;
    Ok(out)
}

fn push_first_level(out: &mut Vec<u8>) -> Result<(), AllocError>
    ensures { OnOk result (out.new.items ≡ out.old.items ++ directory Order.Little first_level_fields 170) }
{
    let fields = [
        short(256, 32),
        short(257, 32),
        short(258, 8),
        short(259, 1),
        short(262, 1),
        short(322, 16),
        short(323, 16),
        outside(324, FieldType::Long, 4, 296),
        outside(325, FieldType::Long, 4, 312),
        outside(33550, FieldType::Double, 3, 328),
        outside(34735, FieldType::Short, 16, 352),
        outside(34736, FieldType::Double, 1, 384),
        outside(34737, FieldType::Ascii, 8, 392),
    ];
    push_directory(out, Order::Little, &fields, 170)
}

fn push_second_level(out: &mut Vec<u8>) -> Result<(), AllocError>
    ensures { OnOk result (out.new.items ≡ out.old.items ++ directory Order.Little second_level_fields 0) }
{
    let fields = [
        long(254, 1),
        short(256, 16),
        short(257, 16),
        short(258, 8),
        short(259, 32773),
        short(262, 1),
        short(322, 16),
        short(323, 16),
        long(324, 1424),
        long(325, 32),
    ];
    push_directory(out, Order::Little, &fields, 0)
}

const KEYS: [u16; 16] = [
    1, 1, 0, 3, 1024, 0, 1, 2, 1026, 34737, 7, 0, 2057, 34736, 1, 0,
];

#[tactic(auto, unfolding(crate::specs::Files::numbers))]
pub(crate) fn push_shorts(out: &mut Vec<u8>, values: &[u16]) -> Result<(), AllocError>
    ensures { OnOk result (out.new.items ≡ out.old.items ++ numbers 2 values.now) }
{
    for value in values {
        push_short(out, Order::Little, *value)?;
    }
    Ok(())
}

#[tactic(auto, unfolding(crate::specs::Files::numbers))]
pub(crate) fn push_longs(out: &mut Vec<u8>, values: &[u32]) -> Result<(), AllocError>
    ensures { OnOk result (out.new.items ≡ out.old.items ++ numbers 4 values.now) }
{
    for value in values {
        push_long(out, Order::Little, *value)?;
    }
    Ok(())
}

#[tactic(auto, unfolding(crate::specs::Files::numbers))]
fn push_doubles(out: &mut Vec<u8>, values: &[u64]) -> Result<(), AllocError>
    ensures { OnOk result (out.new.items ≡ out.old.items ++ numbers 8 values.now) }
{
    for bits in values {
        push_double(out, Order::Little, *bits)?;
    }
    Ok(())
}

/// Appends the values that stand outside the entries of the first level.
#[tactic(auto, unfolding(crate::specs::Files::outside_values))]
fn push_outside(out: &mut Vec<u8>) -> Result<(), AllocError>
    ensures { OnOk result (out.new.items ≡ out.old.items ++ outside_values) }
{
    push_longs(out, &[400, 656, 912, 1168])?;
    push_longs(out, &[256; 4])?;
    push_doubles(out, &[0x3ff0_0000_0000_0000; 3])?;
    push_shorts(out, &KEYS)?;
    push_doubles(out, &[0x0102_0304_0506_0708])?;
    out.extend_from_slice(b"WGS 84|\0")
}

fn push_packed_tile(out: &mut Vec<u8>) -> Result<(), AllocError>
    ensures { OnOk result (out.new.items ≡ out.old.items ++ packed_rows 16) }
{
    for row in 0..16u8 {
        out.extend_from_slice(&[0xf1, row])?;
    }
    Ok(())
}

/// Returns the file f3, of two levels. The first has 32 by 32 samples in four plain tiles of 16 by 16, and keys. Each byte of tile t is
/// `16 + t`. The second has 16 by 16 samples in one packed tile, and sample (x, y) is y.
#[tactic(auto, unfolding(crate::specs::Files::two_levels))]
pub fn f3(alloc: Global) -> Result<Vec<u8>, AllocError>
    ensures { IfOk result (λ v. v.items ≡ two_levels) }
{
    let mut out = Vec::new(alloc);
    push_header(&mut out, Order::Little, 8)?;
    push_first_level(&mut out)?;
    push_second_level(&mut out)?;
    push_outside(&mut out)?;
    push_rising_tiles(&mut out, 256, 16, 4)?;
    push_packed_tile(&mut out)?;
    Ok(out)
}
