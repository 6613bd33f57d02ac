//! Bytes that are copied out part by part, wherever they stand.
ghost use Rattle.std.specs.Prelude.{◌≡◌, ◌+◌, ◌-◌, ◌≤◌, ℕ, List, length, min};
ghost use Rattle.std.specs.List.{slice_range};

/// Bytes that stand somewhere, in one piece or in several. Places count from 0.
pub trait Bytes {
    /// Names the bytes.
    ghost bytes: { Self → List ℕ };

    /// Counts the bytes that stand in one piece from a place on.
    ghost piece_len: { Self → ℕ → ℕ };

    /// Bounds the length of `room` for `part_at`, however much of it is used.
    ghost room_needed: { Self → ℕ };

    /// Returns the number of bytes.
    fn len(&self) -> usize
        ensures { result ≡ length (bytes self.now) };

    /// Copies the bytes from `at` on to `out`, as many as `out` has.
    fn copy_to(&self, at: usize, out: &mut [u8])
        requires { at + length out.old ≤ length (bytes self.now) }
        ensures { out.new ≡ slice_range (bytes self.now) at (at + length out.old) };

    /// Returns the bytes from `at` on that stand in one piece there. There may be none.
    fn piece_at(&self, at: usize) -> &[u8]
        requires { at ≤ length (bytes self.now) }
        ensures long { length result.now ≡ piece_len self.now at }
        ensures within { at + length result.now ≤ length (bytes self.now) }
        ensures piece { result.now ≡ slice_range (bytes self.now) at (at + length result.now) };

    /// Returns the `len` bytes from `at` on, in one piece. They are copied to `room` where they stand in several.
    fn part_at<'a>(&'a self, at: usize, len: usize, room: &'a mut [u8]) -> &'a [u8]
        requires within { at + len ≤ length (bytes self.now) }
        requires room { room_needed self.now ≤ length room.old }
        ensures { result.now ≡ slice_range (bytes self.now) at (at + len) };
}

/// Bytes in one piece.
#[derive(Clone, Copy)]
pub struct Slice<'a>(pub &'a [u8]);

impl Bytes for Slice<'_> {
    ghost bytes = { λ s. s.0.now };

    ghost piece_len = { λ s at. length s.0.now - at };

    ghost room_needed = { λ s. 0 };

    fn len(&self) -> usize {
        self.0.len()
    }

    fn copy_to(&self, at: usize, out: &mut [u8]) {
        out.copy_from_slice(&self.0[at..at + out.len()]);
    }

    fn piece_at(&self, at: usize) -> &[u8] {
        &self.0[at..]
    }

    fn part_at<'a>(&'a self, at: usize, len: usize, _room: &'a mut [u8]) -> &'a [u8] {
        &self.0[at..at + len]
    }
}

/// The `len` bytes of other bytes from place `first` on.
#[derive(Drop)]
pub struct Part<'a, B: Bytes> {
    /// The other bytes.
    pub of: &'a B,
    /// The place of the first byte in them.
    pub first: usize,
    /// The number of bytes.
    pub len: usize,
    ghost within: { first + len ≤ length (B.bytes of.now) },
}

impl<'a, B: Bytes> Part<'a, B> {
    /// Returns the `len` bytes of `of` from place `first` on.
    pub fn new(of: &'a B, first: usize, len: usize) -> Part<'a, B>
        requires { first + len ≤ length (B.bytes of.now) }
        ensures of { result.of.now ≡ of.now }
        ensures place { (result.first ≡ first) × (result.len ≡ len) }
    {
        Part { of, first, len }
    }
}

impl<B: Bytes> Bytes for Part<'_, B> {
    ghost bytes = { λ s. slice_range (B.bytes s.of.now) s.first (s.first + s.len) };

    ghost piece_len = { λ s at. min (B.piece_len s.of.now (s.first + at)) (s.len - at) };

    ghost room_needed = { λ s. B.room_needed s.of.now };

    fn len(&self) -> usize {
        self.len
    }

    fn copy_to(&self, at: usize, out: &mut [u8]) {
        // The length is read for its bound alone.
        let _len = self.of.len();
        self.of.copy_to(self.first + at, out);
    }

    fn piece_at(&self, at: usize) -> &[u8] {
        // The length is read for its bound alone.
        let _len = self.of.len();
        let piece = self.of.piece_at(self.first + at);
        &piece[..piece.len().min(self.len - at)]
    }

    fn part_at<'a>(&'a self, at: usize, len: usize, room: &'a mut [u8]) -> &'a [u8] {
        // The length is read for its bound alone.
        let _len = self.of.len();
        self.of.part_at(self.first + at, len, room)
    }
}
