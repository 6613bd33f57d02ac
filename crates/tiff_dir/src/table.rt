//! The entries in the bytes of a directory's table.
ghost use Rattle.std.specs.Prelude.{◌≡◌, ◌+◌, ◌*◌, ◌≤◌, length};
ghost use Rattle.tiff_dir.specs.declared.limits.TheConstants.{MAX_ENTRIES};

use crate::Order;

/// One entry of a directory: its position in the file, and the numbers in its 12 bytes.
#[derive(Clone, Copy)]
pub struct DirectoryEntry {
    pub tag: u16,
    pub kind: u16,
    pub count: u32,
    pub place: u64,
    /// The number in the first two of the last four bytes.
    pub short: u16,
    /// The number in the last four bytes.
    pub long: u32,
}

/// The table of the directory at offset `at`: the bytes of its entries, and of the offset of the next directory.
#[derive(Clone, Copy)]
pub struct Table<'b> {
    pub order: Order,
    pub at: u32,
    pub entries: u16,
    pub bytes: &'b [u8],
    ghost few: { entries ≤ MAX_ENTRIES },
    ghost whole: { length bytes.now ≡ 12 * entries + 4 },
}

impl Table<'_> {
    ghost use Rattle.std.specs.Prelude.{◌<◌, ◌^◌, IfSome, map};
    ghost use Rattle.tiff_dir.specs.Fault.{ascends};
    ghost use Rattle.tiff_dir.specs.Number.{number_in};
    ghost use Rattle.tiff_dir.specs.Table.{entries_of, entry_at, field_of, entry_with_tag};

    /// Returns the entry in the 12 bytes from `start` on.
    fn entry_at(&self, start: usize) -> DirectoryEntry
        requires { start + 12 ≤ length self.now.bytes.now }
        ensures { result ≡ entry_at self.now.order (self.now.at + 2) start self.now.bytes.now }
    {
        DirectoryEntry {
            tag: self.order.short_at(self.bytes, start),
            kind: self.order.short_at(self.bytes, start + 2),
            count: self.order.long_at(self.bytes, start + 4),
            place: u64::from(self.at) + 2 + start as u64,
            short: self.order.short_at(self.bytes, start + 8),
            long: self.order.long_at(self.bytes, start + 8),
        }
    }

    /// Returns the first entry with the tag, or `None`.
    pub fn find(&self, tag: u16) -> Option<DirectoryEntry>
        ensures near { IfSome result (λ e. e.place + 8 < 2 ^ 33) }
        ensures first { result ≡ entry_with_tag tag (entries_of self.now) }
    {
        for i in 0..self.entries as usize {
            if self.order.short_at(self.bytes, 12 * i) == tag {
                return Some(self.entry_at(12 * i));
            }
        }
        None
    }

    /// Returns whether the tags of the entries ascend.
    pub fn ascends(&self) -> bool
        ensures { result ≡ ascends (map field_of (entries_of self.now)) }
    {
        for i in 1..self.entries as usize {
            if self.order.short_at(self.bytes, 12 * i)
                <= self.order.short_at(self.bytes, 12 * (i - 1))
            {
                return false;
            }
        }
        true
    }

    /// Returns the offset of the next directory.
    pub fn next(&self) -> u32
        ensures { result ≡ number_in self.now.order (12 * self.now.entries) 4 self.now.bytes.now }
    {
        self.order.long_at(self.bytes, 12 * self.entries as usize)
    }
}
