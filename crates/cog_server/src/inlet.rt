//! The traits of where a connection's bytes come from, and where they go.
ghost use Rattle.std.specs.Prelude.{◌≡◌, ◌≤◌, ◌<◌, ◌||◌, ℕ, Bool, List, Option, IfOk, is_err, length};
ghost use Rattle.std.specs.Io.KnownBytes.{append_known};
ghost use Rattle.cog_server.specs.Moved.{moved, is_stopped};

use thiserror::Error;

/// The call failed, and moved no byte.
#[derive(Clone, Copy, Debug, Error, PartialEq, Eq)]
#[error("failed")]
pub struct Failed;

/// Gives the bytes of a connection.
pub trait Inlet {
    /// Names the bytes that it has given, where they are known.
    ghost given: { Self → Option (List ℕ) };

    /// States that nothing more comes.
    ghost is_over: { Self → Type 0 };

    /// States whether a read has failed.
    ghost has_failed: { Self → Bool };

    /// Reads bytes into the front of `room`, and returns how many. It returns 0 only at the end, or where `room` is
    /// empty. Fails where the read fails.
    fn read(&mut self, room: &mut [u8]) -> Result<usize, Failed>
        ensures bound { IfOk result (λ n. n ≤ length room.new) }
        ensures bytes { given self.new ≡ append_known (given self.old) (moved result room.new) }
        ensures end { IfOk result (λ n. n ≡ 0 → 0 < length room.new → is_over self.new) }
        ensures failed { has_failed self.new ≡ (has_failed self.old || is_err result) };

    /// Returns whether a read has failed.
    fn failed(&self) -> bool
        ensures { result ≡ has_failed self.now };
}

/// Takes the bytes of a connection.
pub trait Outlet {
    /// Names the bytes that it has taken, where they are known.
    ghost taken: { Self → Option (List ℕ) };

    /// States whether a write has failed, or has taken none of some bytes.
    ghost has_failed: { Self → Bool };

    /// Takes bytes from the front of `bytes`, and returns how many. Fails where the write fails.
    fn write(&mut self, bytes: &[u8]) -> Result<usize, Failed>
        ensures bound { IfOk result (λ n. n ≤ length bytes.now) }
        ensures bytes { taken self.new ≡ append_known (taken self.old) (moved result bytes.now) }
        ensures failed { has_failed self.new ≡ (has_failed self.old || is_stopped result bytes.now) };

    /// Returns whether a write has failed, or has taken none of some bytes.
    fn failed(&self) -> bool
        ensures { result ≡ has_failed self.now };
}
