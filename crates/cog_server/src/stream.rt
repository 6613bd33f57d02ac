//! Readers and writers of the standard library as the two ends of a connection.
ghost use Rattle.std.specs.Prelude.{◌≡◌, ◌≤◌, ◌||◌, true, false, None, IfOk, OnOk, is_err, length};
ghost use Rattle.std.specs.Io.KnownBytes.{ReadConsumes, WriteAppends};
ghost use Rattle.cog_server.specs.Moved.{is_stopped};

use crate::inlet::{Failed, Inlet, Outlet};
use std::io::{Read, Write};

/// A reader or a writer, and whether it has failed. As an end of a connection it doesn't state which bytes go through
/// it. A call that was interrupted counts as failed.
#[derive(Drop)]
pub struct Stream<T> {
    inner: T,
    failed: bool,
    ended: bool,
}

impl<T> Stream<T> {
    ghost use Rattle.cog_server.specs.Scripted.{inner_of, stream_failed};

    /// Makes a stream that hasn't failed.
    pub fn new(inner: T) -> Self
        ensures inner { inner_of result ≡ inner }
        ensures unfailed { stream_failed result ≡ false }
    {
        Stream {
            inner,
            failed: false,
            ended: false,
        }
    }
}

impl<R: Read> Inlet for Stream<R> {
    ghost use Rattle.cog_server.specs.Scripted.{inner_of, stream_ended, stream_failed};

    ghost given = { λ _. None };

    ghost is_over = { λ s. s.ended ≡ true };

    ghost has_failed = { λ s. s.failed };

    /// Reads what the inner reader gives, where its bytes are known.
    fn read(&mut self, room: &mut [u8]) -> Result<usize, Failed>
        ensures bound { IfOk result (λ n. n ≤ length room.new) }
        ensures inner { ReadConsumes (R.remaining (inner_of self.old)) (R.remaining (inner_of self.new)) result room.new }
        ensures end { OnOk result (stream_ended self.new ≡ is_stopped result room.new) }
        ensures failed { stream_failed self.new ≡ (stream_failed self.old || is_err result) }
    {
        match self.inner.read(room) {
            Ok(n) => {
                self.ended = n == 0 && !room.is_empty();
                Ok(n)
            }
            Err(_) => {
                self.failed = true;
                Err(Failed)
            }
        }
    }

    fn failed(&self) -> bool {
        self.failed
    }
}

impl<W: Write> Outlet for Stream<W> {
    ghost use Rattle.cog_server.specs.Scripted.{inner_of, stream_failed};

    ghost taken = { λ _. None };

    ghost has_failed = { λ s. s.failed };

    /// Writes what the inner writer takes, where its bytes are known.
    fn write(&mut self, bytes: &[u8]) -> Result<usize, Failed>
        ensures bound { IfOk result (λ n. n ≤ length bytes.now) }
        ensures inner { WriteAppends (W.contents (inner_of self.old)) (W.contents (inner_of self.new)) result bytes.now }
        ensures failed { stream_failed self.new ≡ (stream_failed self.old || is_stopped result bytes.now) }
    {
        match self.inner.write(bytes) {
            Ok(n) => {
                if n == 0 && !bytes.is_empty() {
                    self.failed = true;
                }
                Ok(n)
            }
            Err(_) => {
                self.failed = true;
                Err(Failed)
            }
        }
    }

    fn failed(&self) -> bool {
        self.failed
    }
}
