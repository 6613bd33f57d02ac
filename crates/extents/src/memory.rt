//! The error of an allocation that fails.
use std::alloc::{AllocError, AllocFailed};

/// The error of an allocation that fails. No contract says when it comes. The contract of each call says what it leaves as it was.
#[derive(Clone, Copy, Debug, PartialEq, Eq)]
pub struct Memory;

impl From<AllocError> for Memory {
    fn from(_refused: AllocError) -> Memory {
        Memory
    }
}

impl<T: Drop> From<AllocFailed<T>> for Memory {
    fn from(_refused: AllocFailed<T>) -> Memory {
        Memory
    }
}
