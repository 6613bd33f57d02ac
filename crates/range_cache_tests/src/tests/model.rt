//! The rules of the cache, as a plain list.
ghost use Rattle.std.specs.Prelude.{◌<◌, ◌+◌, ◌^◌};

use std::alloc::{AllocError, Global};
use tiff_dir::Span;

/// The number of bytes of a block.
pub const BLOCK: u64 = 16384;

/// The numbers of the blocks that are there, the most recently used first, and the most that there may be.
#[derive(Drop)]
pub struct Model {
    numbers: Vec<u64>,
    capacity: usize,
}

impl Model {
    pub fn new(alloc: Global, capacity: usize) -> Model {
        Model {
            numbers: Vec::new(alloc),
            capacity,
        }
    }

    pub fn has(&self, n: u64) -> bool {
        self.numbers.contains(&n)
    }

    pub fn clear(&mut self) {
        self.numbers.clear();
    }

    /// Brings a block to the front, where it is there.
    fn raise(&mut self, n: u64) -> Result<(), AllocError> {
        if let Some(at) = self.numbers.iter().position(|m| *m == n) {
            let block = self.numbers.remove(at);
            self.numbers.insert(0, block)?;
        }
        Ok(())
    }

    /// Puts a block at the front, where it isn't there. The last one leaves a full list. Returns how many blocks were stored.
    fn store(&mut self, n: u64) -> Result<u32, AllocError> {
        if self.has(n) {
            return Ok(0);
        }
        if self.numbers.len() >= self.capacity {
            self.numbers.pop();
        }
        self.numbers.insert(0, n)?;
        Ok(1)
    }

    /// Puts each block that a piece brings. Returns how many were stored.
    pub fn put(
        &mut self,
        complete: u64,
        first: u64,
        end: u64,
        wanted: Span,
    ) -> Result<u32, AllocError>
        requires { complete < 2 ^ 40 }
    {
        let mut count = 0u32;
        for n in 0..complete / BLOCK + 1 {
            let start = n * BLOCK;
            let stop = (start + BLOCK).min(complete);
            let inside = first <= start && stop <= end;
            let asked = wanted.first <= start && stop <= wanted.last.saturating_add(1);
            if start < complete && inside && asked {
                count = count.saturating_add(self.store(n)?);
            }
        }
        Ok(count)
    }

    /// Brings the blocks of a range to the front. Returns the first and the last byte that is missing.
    pub fn read(
        &mut self,
        complete: u64,
        first: u64,
        end: u64,
    ) -> Result<Option<(u64, u64)>, AllocError>
        requires { complete < 2 ^ 40 }
    {
        let mut missing = None;
        let mut goes_on = true;
        for n in 0..complete / BLOCK + 1 {
            let start = n * BLOCK;
            let touched = first < start + BLOCK && start < end;
            if touched && !self.has(n) && goes_on {
                let begin = missing.map_or(start, |m: (u64, u64)| m.0);
                missing = Some((begin, (start + BLOCK).min(complete).saturating_sub(1)));
            }
            if touched && self.has(n) && missing.is_some() {
                goes_on = false;
            }
        }
        for n in 0..complete / BLOCK + 1 {
            if first < n * BLOCK + BLOCK && n * BLOCK < end {
                self.raise(n)?;
            }
        }
        Ok(missing)
    }
}
