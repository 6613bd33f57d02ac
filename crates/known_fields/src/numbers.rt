//! The numbers in the bytes of a file that are known.
ghost use Rattle.std.specs.Prelude.{◌≡◌, ◌<◌, ◌≤◌, ◌^◌, ℕ, IfSome, List, Some, length};
ghost use Rattle.tiff_dir.specs.File.{number, order_of};
ghost use Rattle.tiff_dir.specs.Number.{number_in};
ghost use Rattle.known_fields.specs.Reads.{HaveOrder, Reads};

use crate::KnownBytes;
use byteorder::{BigEndian, ByteOrder, LittleEndian};
use tiff_dir::Order;

/// Returns the byte order that a file's first bytes name, of which these are at least two.
#[tactic(auto, unfolding(tiff_dir::specs::File::order_of))]
fn order_named(text: &[u8]) -> Option<Order>
    ensures { result ≡ order_of text.now }
{
    if text.starts_with(b"II") {
        Some(Order::Little)
    } else if text.starts_with(b"MM") {
        Some(Order::Big)
    } else {
        None
    }
}

/// Returns the file's byte order, which its first two bytes name.
pub(crate) fn order_in<B: KnownBytes>(bytes: &B) -> Option<Order>
    ensures { Reads (B.is_of bytes.now) (B.is_known bytes.now) order_of result }
{
    let mut text = [0; 2];
    if !bytes.copy_known(0, &mut text) {
        return None;
    }
    order_named(&text)
}

/// Returns the number in all of these bytes.
fn number_in(order: Order, text: &[u8]) -> u64
    requires some { 1 ≤ length text.now }
    requires few { length text.now ≤ 8 }
    ensures number { result ≡ number_in order 0 (length text.now) text.now }
    ensures fits { result < 256 ^ length text.now }
{
    match order {
        Order::Little => LittleEndian::read_uint(text, text.len()),
        Order::Big => BigEndian::read_uint(text, text.len()),
    }
}

/// Returns the number in the `size` bytes from `at` on, or `None` where not all of them are known.
pub(crate) fn number<B: KnownBytes>(bytes: &B, order: Order, at: u64, size: usize) -> Option<u64>
    requires named { HaveOrder (B.is_of bytes.now) order }
    requires near { at < 2 ^ 63 }
    requires some { 1 ≤ size }
    requires few { size ≤ 8 }
    ensures number { Reads (B.is_of bytes.now) (B.is_known bytes.now) (λ f. number f at size) result }
    ensures fits { IfSome result (λ v. v < 256 ^ size) }
{
    let mut text = [0; 8];
    let part = &mut text[..size];
    if !bytes.copy_known(at, part) {
        return None;
    }
    Some(number_in(order, part))
}

/// Returns the number in the two bytes from `at` on, or `None` where not both are known.
pub(crate) fn short<B: KnownBytes>(bytes: &B, order: Order, at: u64) -> Option<u16>
    requires named { HaveOrder (B.is_of bytes.now) order }
    requires near { at < 2 ^ 63 }
    ensures number { Reads (B.is_of bytes.now) (B.is_known bytes.now) (λ f. number f at 2) result }
    ensures fits { IfSome result (λ v. v < 2 ^ 16) }
{
    let short = number(bytes, order, at, 2)?;
    Some(short as u16)
}

/// Returns the number in the four bytes from `at` on, or `None` where not all of them are known.
pub(crate) fn long<B: KnownBytes>(bytes: &B, order: Order, at: u64) -> Option<u32>
    requires named { HaveOrder (B.is_of bytes.now) order }
    requires near { at < 2 ^ 63 }
    ensures number { Reads (B.is_of bytes.now) (B.is_known bytes.now) (λ f. number f at 4) result }
    ensures fits { IfSome result (λ v. v < 2 ^ 32) }
{
    let long = number(bytes, order, at, 4)?;
    Some(long as u32)
}
