//! Rows of bytes, and their copies.
ghost use Rattle.std.specs.Prelude.{◌≡◌, ◌+◌, ◌*◌, ◌<◌, ◌≤◌, ◌^◌, ℕ, length};
ghost use Rattle.tile_plan.specs.Rows.{AreIn, AreCopied, from_row};

use crate::Bytes;

/// Rows of bytes at equal distances.
#[derive(Clone, Copy)]
pub struct Rows {
    /// The place of the first byte of the first row.
    pub first: usize,
    /// The number of bytes from the beginning of a row to that of the next one.
    pub step: usize,
}

impl Rows {
    /// Returns the rows that begin at column `left` and row `top` of a picture of `columns` columns. A pixel has
    /// `pixel` bytes.
    pub fn from_pixel(columns: usize, left: usize, top: usize, pixel: usize) -> Rows
        requires column { left < columns }
        requires some { 0 < pixel }
        requires fits { (top * columns + columns) * pixel < 2 ^ 63 }
        ensures { result ≡ record { first = (top * columns + left) * pixel; step = columns * pixel } }
    {
        Rows {
            first: (top * columns + left) * pixel,
            step: columns * pixel,
        }
    }

    /// Returns the rows from number `row` on.
    fn from_row(self, row: usize) -> Rows
        requires { self.first + row * self.step < 2 ^ 64 }
        ensures { result ≡ from_row self row }
    {
        Rows {
            first: self.first + row * self.step,
            step: self.step,
        }
    }
}

/// Returns how many rows of `len` bytes lie in the first `size` bytes. Each row begins `step` bytes after the one
/// before.
fn rows_in(size: usize, len: usize, step: usize) -> usize
    requires some { 0 < step }
    requires apart { len ≤ step }
    ensures { (n : ℕ) → n < result → n * step + len ≤ size }
{
    if size < len {
        return 0;
    }
    ((size - len) / step).saturating_add(1)
}

/// Copies `count` rows of `len` bytes out of a slice. The rows don't overlap where they are written.
fn copy_slice_rows(count: usize, len: usize, from: &[u8], read: Rows, to: &mut [u8], write: Rows)
    requires apart { len ≤ write.step }
    requires read { AreIn read count len (length from.now) }
    requires write { AreIn write count len (length to.old) }
    ensures { AreCopied count len from.now read to.old to.new write }
{
    for n in 0..count {
        let at = write.first + n * write.step;
        let start = read.first + n * read.step;
        to[at..at + len].copy_from_slice(&from[start..start + len]);
    }
}

/// Copies the first of the rows.
fn copy_row<B: Bytes>(len: usize, from: &B, read: Rows, to: &mut [u8], write: Rows)
    requires apart { len ≤ write.step }
    requires read { read.first + len ≤ length (B.bytes from.now) }
    requires write { write.first + len ≤ length to.old }
    ensures { AreCopied 1 len (B.bytes from.now) read to.old to.new write }
{
    from.copy_to(read.first, &mut to[write.first..write.first + len]);
}

/// Copies the first of `count` rows, and returns how many it copied. These are the rows that stand in one piece, or
/// else one row.
fn copy_some<B: Bytes>(
    count: usize,
    len: usize,
    from: &B,
    read: Rows,
    to: &mut [u8],
    write: Rows,
) -> usize
    requires some { 0 < count }
    requires far { (0 < read.step) × (len ≤ read.step) }
    requires apart { len ≤ write.step }
    requires read { AreIn read count len (length (B.bytes from.now)) }
    requires write { AreIn write count len (length to.old) }
    ensures some { 0 < result }
    ensures few { result ≤ count }
    ensures copied { AreCopied result len (B.bytes from.now) read to.old to.new write }
{
    let piece = from.piece_at(read.first);
    let whole = rows_in(piece.len(), len, read.step).min(count);
    if whole == 0 {
        copy_row(len, from, read, to, write);
        return 1;
    }
    let rows = Rows {
        first: 0,
        step: read.step,
    };
    copy_slice_rows(whole, len, piece, rows, to, write);
    whole
}

/// Copies `count` rows of `len` bytes. The rows don't overlap where they are written.
pub fn copy_rows<B: Bytes>(
    count: usize,
    len: usize,
    from: &B,
    read: Rows,
    to: &mut [u8],
    write: Rows,
)
    requires far { (0 < read.step) × (len ≤ read.step) }
    requires apart { len ≤ write.step }
    requires read { AreIn read count len (length (B.bytes from.now)) }
    requires write { AreIn write count len (length to.old) }
    ensures { AreCopied count len (B.bytes from.now) read to.old to.new write }
{
    // The length is read for its bound alone.
    let _len = from.len();
    let mut n = 0;
    while n < count {
        n += copy_some(
            count - n,
            len,
            from,
            read.from_row(n),
            to,
            write.from_row(n),
        );
    }
}
