//! The numbers of a file.
ghost use Rattle.std.specs.Prelude.{◌≡◌, ◌<◌, ◌≤◌, ◌^◌, ◌+◌, length};
ghost use Rattle.tiff_dir.specs.Number.{number_in};
ghost use Rattle.tiff_dir.specs.File.{order_of, number};

use byteorder::{BigEndian, ByteOrder, LittleEndian};
use tiff_dir::Order;

/// Returns the order that the first two bytes name.
#[tactic(auto, unfolding(tiff_dir::specs::File::order_of))]
pub fn order_of(file: &[u8]) -> Option<Order>
    ensures { result ≡ order_of file.now }
{
    if file.starts_with(b"II") {
        Some(Order::Little)
    } else if file.starts_with(b"MM") {
        Some(Order::Big)
    } else {
        None
    }
}

/// Returns the number of the `size` bytes from `at`, which are there.
pub(crate) fn number_in(order: Order, bytes: &[u8], at: usize, size: usize) -> u64
    requires some { 1 ≤ size }
    requires few { size ≤ 8 }
    requires there { at + size ≤ length bytes.now }
    ensures { result ≡ number_in order at size bytes.now }
{
    match order {
        Order::Little => LittleEndian::read_uint(&bytes[at..], size),
        Order::Big => BigEndian::read_uint(&bytes[at..], size),
    }
}

/// Returns the number of the `size` bytes from `at`, where they are in the file.
#[tactic(auto, unfolding(tiff_dir::specs::File::number))]
pub fn number(file: &[u8], at: u64, size: usize) -> Option<u64>
    requires some { 1 ≤ size }
    requires few { size ≤ 8 }
    requires near { at < 2 ^ 63 }
    ensures { result ≡ number file.now at size }
{
    let order = order_of(file)?;
    if at + size as u64 > file.len() as u64 {
        return None;
    }
    Some(number_in(order, file, at as usize, size))
}

pub(crate) fn short_in(order: Order, bytes: &[u8], at: usize) -> u16
    requires { at + 2 ≤ length bytes.now }
    ensures { result ≡ number_in order at 2 bytes.now }
{
    match order {
        Order::Little => LittleEndian::read_u16(&bytes[at..]),
        Order::Big => BigEndian::read_u16(&bytes[at..]),
    }
}

pub(crate) fn long_in(order: Order, bytes: &[u8], at: usize) -> u32
    requires { at + 4 ≤ length bytes.now }
    ensures { result ≡ number_in order at 4 bytes.now }
{
    match order {
        Order::Little => LittleEndian::read_u32(&bytes[at..]),
        Order::Big => BigEndian::read_u32(&bytes[at..]),
    }
}

/// Returns the number of the two bytes from `at`, where they are in the file.
#[tactic(auto, unfolding(tiff_dir::specs::File::number))]
pub fn short(file: &[u8], at: u64) -> Option<u16>
    requires { at < 2 ^ 63 }
    ensures { result ≡ number file.now at 2 }
{
    let order = order_of(file)?;
    if at + 2 > file.len() as u64 {
        return None;
    }
    Some(short_in(order, file, at as usize))
}

/// Returns the number of the four bytes from `at`, where they are in the file.
#[tactic(auto, unfolding(tiff_dir::specs::File::number))]
pub fn long(file: &[u8], at: u64) -> Option<u32>
    requires { at < 2 ^ 63 }
    ensures { result ≡ number file.now at 4 }
{
    let order = order_of(file)?;
    if at + 4 > file.len() as u64 {
        return None;
    }
    Some(long_in(order, file, at as usize))
}
