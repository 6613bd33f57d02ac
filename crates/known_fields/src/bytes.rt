//! The trait of bytes of a file that are known, and the bytes of a whole file.
ghost use Rattle.std.specs.Prelude.{◌≡◌, ◌+◌, ◌<◌, ◌≤◌, ◌^◌, ℕ, Bool, IsTrue, List, length, nat_le, slice_range};

/// Bytes of one file, as far as they are known.
pub trait KnownBytes {
    /// States that all known bytes may be of this file.
    ghost is_of: { Self → List ℕ → Type 0 };

    /// States whether bytes are known: those from the first number on, as many as the second.
    ghost is_known: { Self → ℕ → ℕ → Bool };

    /// Copies the bytes of the file from `first` on into `out`, where all of them are known. Returns whether they are.
    /// Otherwise `out` may hold anything. Asks no server for bytes.
    fn copy_known(&self, first: u64, out: &mut [u8]) -> bool
        requires some { 0 < length out.old }
        requires near { first + length out.old < 2 ^ 64 }
        ensures exact { result ≡ is_known self.now first (length out.old) }
        ensures slice { IsTrue result → (f : List ℕ) → is_of self.now f
            → (first + length out.old ≤ length f) × (out.new ≡ slice_range f first (first + length out.old)) };
}

/// The bytes of a whole file, all of which are known.
#[derive(Clone, Copy, Debug)]
pub struct WholeFile<'f>(pub &'f [u8]);

impl KnownBytes for WholeFile<'_> {
    ghost is_of = { λ w f. f ≡ w.0.now };

    ghost is_known = { λ w first len. nat_le (first + len) (length w.0.now) };

    fn copy_known(&self, first: u64, out: &mut [u8]) -> bool {
        let first = first as usize;
        let end = first + out.len();
        if end > self.0.len() {
            return false;
        }
        out.copy_from_slice(&self.0[first..end]);
        true
    }
}
