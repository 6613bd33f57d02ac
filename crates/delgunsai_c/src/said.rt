//! What an answer did, in numbers.
ghost use Rattle.std.specs.Prelude.{◌≡◌};

use cog_client::{Current, Delivered};

/// Holds what an answer did, or what it says, in the numbers of `struct cog_said`.
#[repr(C)]
#[derive(Clone, Copy, Debug, PartialEq, Eq)]
pub struct Said {
    pub kind: u32,
    pub number: u32,
}

impl Said {
    ghost use Rattle.delgunsai_c.specs.Said.{said_of_delivered, said_of_current};

    /// Returns what a delivered answer did. Kind 1 is taken, and `number` counts the blocks that were stored. Kind 2 is a restart. Kind 3
    /// is ignored, and `number` is the reason (`docs/PROFILE.md`).
    pub fn of_delivered(delivered: Delivered) -> Said
        ensures { result ≡ said_of_delivered delivered }
    {
        match delivered {
            Delivered::Took(blocks) => Said {
                kind: 1,
                number: blocks,
            },
            Delivered::Restarted => Said { kind: 2, number: 0 },
            Delivered::Ignored(why) => Said {
                kind: 3,
                number: why.number() as u32,
            },
        }
    }

    /// Returns what the answer to a check says of the ETag. Kind 1 is the same ETag, kind 2 another one. Kind 3 is neither, and `number` is
    /// the reason.
    pub fn of_current(current: Current) -> Said
        ensures { result ≡ said_of_current current }
    {
        match current {
            Current::Same => Said { kind: 1, number: 0 },
            Current::Other => Said { kind: 2, number: 0 },
            Current::Unknown(why) => Said {
                kind: 3,
                number: why.number() as u32,
            },
        }
    }
}
