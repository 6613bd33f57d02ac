//! A box as its address and its allocator.
ghost use Rattle.std.specs.Prelude.{◌≡◌};
ghost use Rattle.std.specs.Box.Ownership.{box_owns};

use std::alloc::Allocator;
use std::marker::Model;

/// Owns a value in the heap by its address, with the allocator that frees it.
pub struct RawParts<T, A: Allocator> {
    pub ptr: *mut T,
    pub alloc: A,
    pub ghost value: { T },
}

impl<T, A: Allocator> Model for RawParts<T, A> {
    ghost also_owns = { λ p. box_owns (A.dealloc_token p.alloc) T.row p.ptr p.value };
}

impl<T, A: Allocator> RawParts<T, A> {
    /// Takes a box apart.
    pub fn of(b: Box<T, A>) -> RawParts<T, A>
    where
        T: Drop,
        ensures { result.value ≡ b.value }
    {
        let (ptr, alloc) = Box::into_raw_with_allocator(b);
        RawParts { ptr, alloc }
    }

    /// Makes the box again.
    pub fn into_box(self) -> Box<T, A>
        ensures { result.value ≡ self.value }
    {
        let RawParts { ptr, alloc } = self;
        unsafe { Box::from_raw(alloc, ptr) }
    }
}
