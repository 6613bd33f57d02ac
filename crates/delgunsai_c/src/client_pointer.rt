//! A pointer to a client in the heap, as C holds it.
ghost use Rattle.std.specs.Prelude.{◌≡◌, Option, None, Some, IsSome};
ghost use Rattle.delgunsai_c.specs.declared.held.Held.{Held};
ghost use Rattle.delgunsai_c.specs.Owned.{inside_coded, owned};

use crate::held::Held;
use crate::parts::RawParts;
use std::alloc::Global;
use std::marker::Model;
use std::ptr::null_mut;

/// Owns the client in the heap at its address, or is null. C sees the address alone, since an allocator has no bytes.
#[repr(C)]
#[derive(Drop)]
pub struct ClientPointer {
    at: *mut u8,
    alloc: Global,
    pub ghost inside: { Option Held } by { inside_coded },
}

impl Model for ClientPointer {
    ghost also_owns = { λ p. owned p.inside p.alloc p.at };
}

impl ClientPointer {
    /// Makes the null pointer.
    pub fn none(alloc: Global) -> ClientPointer
        ensures { result.inside ≡ None }
    {
        ClientPointer {
            at: null_mut(),
            alloc,
        }
    }

    /// Makes the pointer that owns the client of these parts.
    pub fn of_parts(parts: RawParts<Held, Global>) -> ClientPointer
        ensures { result.inside ≡ Some parts.value }
    {
        let RawParts { ptr, alloc } = parts;
        ClientPointer {
            at: ptr as *mut u8,
            alloc,
        }
    }

    /// Returns the parts of the client that the pointer owns.
    pub fn into_parts(self) -> RawParts<Held, Global>
        requires { IsSome self.inside }
        ensures { Some result.value ≡ self.inside }
    {
        let ClientPointer { at, alloc } = self;
        RawParts {
            ptr: at as *mut Held,
            alloc,
        }
    }
}
