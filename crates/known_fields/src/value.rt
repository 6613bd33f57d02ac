//! The values of a field, in the bytes of a file that are known.
ghost use Rattle.std.specs.Prelude.{◌≡◌, ◌+◌, ◌<◌, ◌≤◌, ◌^◌, ℕ, if◌then◌else◌, IfSome, List, None, Some, nat_le};
ghost use Rattle.tiff_dir.specs.File.{default_of, kind_of, number, order_of, value};
ghost use Rattle.known_fields.specs.Entry.{value_at};
ghost use Rattle.known_fields.specs.Reads.{AreAllKnown, HaveOrder, Reads};

use crate::KnownBytes;
use crate::entry::{directory_at, place_of};
use crate::numbers::{long, number, order_in, short};
use tiff_dir::tags::{NEW_SUBFILE_TYPE, PLANAR_CONFIGURATION, SAMPLE_FORMAT, SAMPLES_PER_PIXEL};
use tiff_dir::{Kind, Order};

/// Returns the type that has this number, or `None` where none has it.
fn kind_of(number: u16) -> Option<Kind>
    ensures { result ≡ kind_of number }
{
    match number {
        1 => Some(Kind::Byte),
        2 => Some(Kind::Ascii),
        3 => Some(Kind::Short),
        4 => Some(Kind::Long),
        5 => Some(Kind::Rational),
        6 => Some(Kind::SignedByte),
        7 => Some(Kind::Undefined),
        8 => Some(Kind::SignedShort),
        9 => Some(Kind::SignedLong),
        10 => Some(Kind::SignedRational),
        11 => Some(Kind::Float),
        12 => Some(Kind::Double),
        _ => None,
    }
}

/// Returns the standard's default for a field with this tag that is absent, or `None` where there is no default.
fn default_of(tag: u16) -> Option<u64>
    ensures { result ≡ default_of tag }
{
    match tag {
        NEW_SUBFILE_TYPE => Some(0),
        SAMPLES_PER_PIXEL | PLANAR_CONFIGURATION | SAMPLE_FORMAT => Some(1),
        _ => None,
    }
}

/// Returns the place of `len` bytes of values. They are in the last four bytes of an entry, from `at` on, if they fit.
/// Otherwise they are at the offset that stands there. Returns `None` where that isn't known.
fn values_at<B: KnownBytes>(bytes: &B, order: Order, at: u64, len: u64) -> Option<u64>
    requires named { HaveOrder (B.is_of bytes.now) order }
    requires near { at < 2 ^ 62 + 8 }
    ensures at { Reads (B.is_of bytes.now) (B.is_known bytes.now)
        (λ f. if nat_le len 4 then Some at else number f at 4) result }
    ensures near { IfSome result (λ first. first < 2 ^ 62 + 8) }
{
    if len <= 4 {
        return Some(at);
    }
    let first = long(bytes, order, at)?;
    Some(u64::from(first))
}

/// Returns value `index` of the field whose entry is at `place`, or `None` where a byte that it needs isn't known.
fn value_at<B: KnownBytes>(bytes: &B, order: Order, place: u64, index: u32) -> Option<u64>
    requires named { HaveOrder (B.is_of bytes.now) order }
    requires near { place < 2 ^ 62 }
    ensures { Reads (B.is_of bytes.now) (B.is_known bytes.now) (λ f. value_at f place index) result }
{
    let kind = short(bytes, order, place + 2)?;
    let size = kind_of(kind)?.size();
    let count = long(bytes, order, place + 4)?;
    let at = values_at(bytes, order, place + 8, u64::from(count) * size)?;
    if index >= count {
        return None;
    }
    number(bytes, order, at + u64::from(index) * size, size as usize)
}

/// Returns value `index` of the field `tag` in directory `directory`. Both numbers count from 0, in the order of the
/// file. An absent field has the standard's default. Returns `None` where a byte that it needs isn't known, or where
/// the file has no such value. Allocates nothing.
///
/// ```
/// let width = known_value(&WholeFile(&file), 0, IMAGE_WIDTH, 0);
/// ```
pub fn known_value<B: KnownBytes>(bytes: &B, directory: u16, tag: u16, index: u32) -> Option<u64>
    ensures known { IfSome result (λ v. (f : List ℕ) → B.is_of bytes.now f
        → value f directory tag index ≡ Some v) }
    ensures whole { (f : List ℕ) → B.is_of bytes.now f → AreAllKnown (B.is_known bytes.now) f
        → result ≡ value f directory tag index }
{
    let order = order_in(bytes)?;
    let at = directory_at(bytes, order, directory)?;
    let entries = short(bytes, order, u64::from(at))?;
    match place_of(bytes, order, u64::from(at) + 2, entries, tag)? {
        Some(place) => value_at(bytes, order, place, index),
        None => default_of(tag),
    }
}
