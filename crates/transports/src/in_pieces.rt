//! A transport whose answers come in pieces.
ghost use Rattle.std.specs.Prelude.{◌≡◌};

use cog_client::{Lost, Pieces, Transport};
use std::alloc::Global;

/// Hands over each answer of another transport in pieces. The first pieces have the given sizes, one after another, but at least a byte
/// each. Each further piece fills the room that it is given. It speaks for what the other transport speaks for, and counts its exchanges.
#[derive(Drop)]
pub struct InPieces<'p, T> {
    inner: T,
    sizes: &'p [usize],
    left: &'p [usize],
    answer: Vec<u8>,
    at: usize,
}

impl<'p, T> InPieces<'p, T> {
    ghost use Rattle.std.specs.Prelude.{◌≡◌, ◌<◌, ◌≤◌, []};
    ghost use Rattle.transports.specs.Transports.{rest_of, source_of};

    /// Makes one to which no answer has come.
    pub fn new(alloc: Global, inner: T, sizes: &'p [usize]) -> Self
        ensures source { source_of result ≡ inner }
        ensures rest { rest_of result ≡ [] }
    {
        InPieces {
            inner,
            sizes,
            left: sizes,
            answer: Vec::new(alloc),
            at: 0,
        }
    }

    /// Returns what is still to come of the answer.
    fn rest(&self) -> &[u8]
        ensures { result.now ≡ rest_of self.now }
    {
        match self.answer.get(self.at..) {
            Some(rest) => rest,
            None => &[],
        }
    }

    /// Returns the size of the next piece, at most `room`.
    fn next_size(&mut self, room: usize) -> usize
        ensures source { source_of self.new ≡ source_of self.old }
        ensures rest { rest_of self.new ≡ rest_of self.old }
        ensures few { result ≤ room }
        ensures some { 0 < room → 0 < result }
    {
        match self.left.split_first() {
            None => room,
            Some((size, left)) => {
                self.left = left;
                (*size).max(1).min(room)
            }
        }
    }
}

impl<T: Transport> Pieces for InPieces<'_, T> {
    ghost use Rattle.std.specs.Prelude.{◌≡◌, ◌+◌, ◌<◌, Some};
    ghost use Rattle.transports.specs.Transports.{rest_of, source_of};

    ghost speaks_for = { λ s. T.speaks_for (source_of s) };

    ghost answers = { λ s request text. T.answers (source_of s) request (Some text) };

    ghost has_lost = { λ s. T.has_lost (source_of s) };

    ghost count = { λ s. T.count (source_of s) };

    ghost rest = { rest_of };

    fn start(&mut self, request: &[u8]) -> Result<(), Lost> {
        self.left = self.sizes;
        self.answer.clear();
        self.at = 0;
        self.answer = self.inner.exchange(request)?;
        Ok(())
    }

    fn next(&mut self, out: &mut [u8]) -> Result<usize, Lost> {
        let size = self.next_size(out.len());
        let rest = self.rest();
        let n = rest.len().min(size);
        out[..n].copy_from_slice(&rest[..n]);
        self.at += n;
        Ok(n)
    }

    fn starts(&self) -> u64 {
        self.inner.exchanges()
    }
}
