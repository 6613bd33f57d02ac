//! The handle in which C holds a client.
ghost use Rattle.std.specs.Prelude.{◌≡◌, ◌↔◌, None, Some, IfSome, IsSome, IsTrue};

use crate::client_pointer::ClientPointer;
use crate::held::Held;
use crate::parts::RawParts;
use std::alloc::Global;

/// Holds a client in the heap, or none. C makes a handle of zeros, which has none.
#[repr(C)]
#[derive(Drop)]
pub struct Handle {
    place: ClientPointer,
    full: bool,
    ghost known: { IsTrue full ↔ IsSome place.inside },
}

impl Handle {
    ghost use Rattle.delgunsai_c.specs.Handle.{client_of, held_of};

    /// Makes a handle without a client.
    fn empty(alloc: Global) -> Handle
        ensures { client_of result ≡ None }
    {
        Handle {
            place: ClientPointer::none(alloc),
            full: false,
        }
    }

    /// Takes the client out, or returns `None` where there is none. The handle then has none.
    pub fn take(&mut self, alloc: Global) -> Option<Box<Held>>
        ensures left { client_of self.new ≡ None }
        ensures some { IfSome result (λ b. client_of self.old ≡ Some b.value.client) }
        ensures none { result ≡ None → client_of self.old ≡ None }
        ensures held_left { held_of self.new ≡ None }
        ensures held_some { IfSome result (λ b. held_of self.old ≡ Some b.value) }
        ensures held_none { result ≡ None → held_of self.old ≡ None }
    {
        let old = std::mem::replace(self, Handle::empty(alloc));
        let Handle { place, full } = old;
        if full {
            Some(place.into_parts().into_box())
        } else {
            None
        }
    }

    /// Puts a client in.
    pub fn put(&mut self, client: Box<Held>)
        ensures is { client_of self.new ≡ Some client.value.client }
        ensures held { held_of self.new ≡ Some client.value }
    {
        *self = Handle {
            place: ClientPointer::of_parts(RawParts::of(client)),
            full: true,
        };
    }
}
