//! A random run of calls by a fixed generator, beside the rules as a plain list.
ghost use Rattle.std.specs.Prelude.{◌<◌, ◌+◌, ◌^◌};

use super::model::{BLOCK, Model};
use super::piece::{piece, put, read};
use assertion_support::expect_eq;
use fixtures_support::Numbers;
use range_cache::Cache;
use std::process::Abort;
use std::test::Fail;
use tiff_dir::Span;

/// Returns the next number below `n`.
fn below(numbers: &mut Numbers, n: u64) -> u64
    requires { 0 < n }
    ensures { result < n }
{
    numbers.below(n as usize) as u64
}

/// A cache, the rules, and the length of the file whose blocks both hold.
#[derive(Drop)]
struct Trial {
    cache: Cache,
    model: Model,
    numbers: Numbers,
    complete: u64,
    ghost moderate: { (16384 < complete) × (complete < 2 ^ 32) },
}

impl Trial {
    /// Puts a piece of up to 66 blocks, of which a part is wanted.
    fn put<R: Abort + AllocGlobal>(&mut self, rt: &R) -> Result<(), Fail> {
        let complete = self.complete;
        let first = below(&mut self.numbers, complete);
        let len = below(&mut self.numbers, (complete - first + 1).min(66 * BLOCK));
        let wanted_first = first.saturating_sub(below(&mut self.numbers, 2 * BLOCK));
        let wanted = Span {
            first: wanted_first,
            last: wanted_first + below(&mut self.numbers, 66 * BLOCK),
        };
        let bytes = piece(rt.alloc(), first, len as usize)?;
        let count = put(&mut self.cache, complete, first, &bytes, wanted)
            .ok()
            .ok_or("no memory")?;
        let want = self.model.put(complete, first, first + len, wanted)?;
        expect_eq!(rt; count, want, "seed 2026: {len} bytes from {first}");
        Ok(())
    }

    /// Reads a range of up to 1,048,576 bytes.
    fn read<R: Abort + AllocGlobal>(&mut self, rt: &R) -> Result<(), Fail> {
        let complete = self.complete;
        let first = below(&mut self.numbers, complete);
        let len = 1 + below(&mut self.numbers, (complete - first).min(1048576));
        let bytes = piece(rt.alloc(), first, len as usize)?;
        let mut out = vec![in rt.alloc(); 0u8; len as usize]?;
        let gap = read(&mut self.cache, complete, first, &mut out).err();
        let want = self.model.read(complete, first, first + len)?;
        expect_eq!(rt;
            gap.map(|m| (m.first, m.last)),
            want,
            "seed 2026: {len} bytes from {first}"
        );
        if gap.is_none() {
            assert_eq!(rt;
                out.as_slice(),
                bytes.as_slice(),
                "seed 2026: {len} bytes from {first}"
            );
        }
        Ok(())
    }

    /// Puts a piece or reads a range, at random.
    fn call<R: Abort + AllocGlobal>(&mut self, rt: &R) -> Result<(), Fail> {
        if below(&mut self.numbers, 2) == 0 {
            self.put(rt)
        } else {
            self.read(rt)
        }
    }

    fn clear(&mut self) {
        self.cache.clear();
        self.model.clear();
    }

    /// Expects that both have the same blocks.
    fn compare<R: Abort>(&self, rt: &R) {
        let whole = Span {
            first: 0,
            last: self.complete - 1,
        };
        for n in 0..self.complete / BLOCK + 1 {
            let there = n * BLOCK >= self.complete || !self.cache.wants(self.complete, whole, n);
            let want = n * BLOCK >= self.complete || self.model.has(n);
            expect_eq!(rt; there, want, "seed 2026: block {n}");
        }
    }
}

/// Makes `calls` calls with a cache of `blocks` blocks.
fn run<R: Abort + AllocGlobal>(rt: &R, blocks: u32, complete: u64, calls: u32) -> Result<(), Fail>
    requires { (16384 < complete) × (complete < 2 ^ 32) }
{
    let mut trial = Trial {
        cache: Cache::new(rt.alloc(), blocks).ok().ok_or("no cache")?,
        model: Model::new(rt.alloc(), blocks as usize),
        numbers: Numbers::new(2026),
        complete,
    };
    for call in 0..calls {
        trial.call(rt)?;
        if call % 100 == 99 {
            trial.compare(rt);
        }
    }
    trial.compare(rt);
    trial.clear();
    trial.compare(rt);
    trial.put(rt)
}

#[test]
fn agrees_with_the_model_at_66_blocks(rt: HostRuntime) -> Result<(), Fail> {
    run(&rt, 66, 90 * BLOCK + 5000, 800)
}

#[test]
fn agrees_with_the_model_at_4096_blocks(rt: HostRuntime) -> Result<(), Fail> {
    run(&rt, 4096, 6000 * BLOCK + 77, 1600)
}
