//! The test files, by their names.
use fixtures_support::{f1, f1m, f2, f2b, f3, f4, f5, f6, f6m};
use std::alloc::{AllocError, Global};

/// The files of the crate `fixtures_support`.
#[derive(Clone, Copy, Debug)]
pub enum Fixture {
    F1,
    F1m,
    F2,
    F2b,
    F3,
    F4,
    F5,
    F6,
    F6m,
}

impl Fixture {
    /// Returns the bytes of the file.
    pub fn file(self, alloc: Global) -> Result<Vec<u8>, AllocError> {
        match self {
            Fixture::F1 => f1(alloc),
            Fixture::F1m => f1m(alloc),
            Fixture::F2 => f2(alloc),
            Fixture::F2b => f2b(alloc),
            Fixture::F3 => f3(alloc),
            Fixture::F4 => f4(alloc),
            Fixture::F5 => f5(alloc),
            Fixture::F6 => f6(alloc),
            Fixture::F6m => f6m(alloc),
        }
    }
}

/// Replaces bytes of a file from `place` on.
pub fn change(file: &mut [u8], place: usize, bytes: &[u8]) {
    if let Some(rest) = file.get_mut(place..) {
        for (here, byte) in rest.iter_mut().zip(bytes) {
            *here = *byte;
        }
    }
}
