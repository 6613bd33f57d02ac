//! Byte orders (TIFF 6.0, section 2).
ghost use Rattle.std.specs.Prelude.{◌≡◌, ◌+◌, ◌≤◌, length};

use byteorder::{BigEndian, ByteOrder, LittleEndian};

/// Which byte of a number comes first (TIFF 6.0, section 2).
#[derive(Clone, Copy, Debug, PartialEq, Eq)]
pub enum Order {
    /// `II`: the least significant byte.
    Little,
    /// `MM`: the most significant byte.
    Big,
}

impl Order {
    ghost use Rattle.tiff_dir.specs.Number.{number_in};

    /// Returns the number in the two bytes from `at` on.
    pub(crate) fn short_at(self, bytes: &[u8], at: usize) -> u16
        requires { at + 2 ≤ length bytes.now }
        ensures { result ≡ number_in self at 2 bytes.now }
    {
        match self {
            Order::Little => LittleEndian::read_u16(&bytes[at..]),
            Order::Big => BigEndian::read_u16(&bytes[at..]),
        }
    }

    /// Returns the number in the four bytes from `at` on.
    pub(crate) fn long_at(self, bytes: &[u8], at: usize) -> u32
        requires { at + 4 ≤ length bytes.now }
        ensures { result ≡ number_in self at 4 bytes.now }
    {
        match self {
            Order::Little => LittleEndian::read_u32(&bytes[at..]),
            Order::Big => BigEndian::read_u32(&bytes[at..]),
        }
    }
}
