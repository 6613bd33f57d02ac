//! Random runs, with answers that are cut, lost, repeated or late, of a file that is replaced again and again. Each report is what the
//! plain program reads in the file that has its tag.
//!
//! Whole answers lead to a report, however far the client looks ahead. It comes at the latest with the answer after as many as the query
//! costs.
ghost use Rattle.std.specs.Prelude.{◌<◌};

use super::revisions::{Revision, is_right, revision_of};
use cog_client::{Client, Outcome};
use cog_client_support::{AHEAD, NotDone, client_of_a, cog, revisions_of_f5};
use cog_reader_support::{Plain, of_level};
use fixtures_support::{Numbers, f2, f2b};
use reference_support::cost;
use std::alloc::{AllocError, Global};
use std::process::Abort;
use std::test::Fail;
use tiff_dir::Query;

/// A run: the first state of the generator, how many windows are read, and whether the client looks ahead.
#[derive(Clone, Copy, Debug)]
struct Run {
    seed: u64,
    windows: u32,
    is_looking: bool,
}

/// The revisions that answers are of, and the answers that may come again.
#[derive(Drop)]
struct Net<'a> {
    revisions: &'a [Revision<'a>],
    now: usize,
    kept: Vec<Vec<u8>>,
    numbers: Numbers,
}

impl<'a> Net<'a> {
    /// Returns the server's answer to the client's request: a part of the present publication, or all of it where the client has another.
    fn answer(&self, alloc: Global, client: &Client) -> Result<Vec<u8>, NotDone> {
        let revision = self.revisions.get(self.now).ok_or(NotDone::NoSuchPart)?;
        let publication = revision.publication;
        let span = client.asked().ok_or(NotDone::NoSuchPart)?;
        match client.tag() {
            Some(tag) if tag.as_bytes() != publication.tag.as_bytes() => publication.whole(alloc),
            _ => publication.asked(alloc, span),
        }
    }

    /// Keeps an answer. It may take the place of another one, and at most eight are kept.
    fn keep(&mut self, answer: Vec<u8>) -> Result<(), AllocError> {
        let at = self.numbers.below(8);
        match self.kept.get_mut(at) {
            Some(place) => *place = answer,
            None => self.kept.push(answer)?,
        }
        Ok(())
    }

    /// Delivers a kept answer.
    fn repeat(&mut self, client: &mut Client) -> Result<(), NotDone> {
        let at = self.numbers.below(8);
        if let Some(answer) = self.kept.get(at) {
            client.deliver(answer)?;
        }
        Ok(())
    }

    /// Returns how many bytes of an answer come.
    fn end(&mut self, len: usize, is_cut: bool) -> usize {
        if is_cut && len > 0 {
            self.numbers.below(len)
        } else {
            len
        }
    }

    /// Makes a request, if there is one, and delivers its answer or a front of it.
    fn exchange(
        &mut self,
        alloc: Global,
        client: &mut Client,
        is_cut: bool,
    ) -> Result<(), NotDone> {
        if client.request()?.is_none() {
            return Ok(());
        }
        let answer = self.answer(alloc, client)?;
        let end = self.end(answer.len(), is_cut);
        client.deliver(answer.get(..end).unwrap_or(&[]))?;
        self.keep(answer)?;
        Ok(())
    }

    /// Lets one thing happen: the file is replaced, an answer comes again or is cut, or a request or its answer is lost. Or everything is
    /// forgotten, or all goes well.
    fn happen(&mut self, alloc: Global, client: &mut Client) -> Result<(), NotDone> {
        match self.numbers.below(10) {
            0 => self.now = self.numbers.below(4),
            1 | 2 => self.repeat(client)?,
            3 => {
                client.request()?;
            }
            4 | 5 => self.exchange(alloc, client, true)?,
            6 => client.forget(),
            _ => self.exchange(alloc, client, false)?,
        }
        Ok(())
    }

    /// Lets things happen until a report stands: at first anything, and then only whole answers. Returns whether the report is right.
    fn settle(
        &mut self,
        alloc: Global,
        client: &mut Client,
        query: Query,
    ) -> Result<bool, NotDone> {
        client.open(query);
        for step in 0..60u32 {
            if step < 30 {
                self.happen(alloc, client)?;
            } else {
                self.exchange(alloc, client, false)?;
            }
            if let Some(report) = client.report() {
                let is_window = matches!(&report.outcome, Outcome::Window(_));
                return Ok(is_window && is_right(alloc, report, self.revisions, query)?);
            }
        }
        Ok(false)
    }

    /// Sets how many blocks the client looks ahead, at random.
    fn look(&mut self, client: &mut Client) {
        let at = self.numbers.below(4);
        client.look_ahead(AHEAD[at]);
    }

    /// Makes a request, if there is one, and delivers its whole answer. How far the client looks ahead may be another each time.
    fn exchange_looking(&mut self, alloc: Global, client: &mut Client) -> Result<(), NotDone> {
        self.look(client);
        if client.request()?.is_none() {
            return Ok(());
        }
        self.look(client);
        let answer = self.answer(alloc, client)?;
        client.deliver(&answer)?;
        Ok(())
    }

    /// Lets some things happen. Then only whole answers of the present file come, one more than the query costs. Returns whether the report
    /// is right.
    fn is_in_time(
        &mut self,
        alloc: Global,
        client: &mut Client,
        query: Query,
    ) -> Result<bool, NotDone> {
        for _ in 0..self.numbers.below(8) {
            self.look(client);
            self.happen(alloc, client)?;
        }
        client.open(query);
        let revision = self.revisions.get(self.now).ok_or(NotDone::NoSuchPart)?;
        let file = revision.publication.file;
        let cost = cost(alloc, file, query)?.ok_or(NotDone::NoSuchPart)?;
        for _ in 0..cost.saturating_add(1) {
            self.exchange_looking(alloc, client)?;
        }
        match client.report() {
            None => Ok(false),
            Some(report) => Ok(is_right(alloc, report, self.revisions, query)?),
        }
    }
}

/// Returns where a window begins along a side, and its length there, at most 300.
fn stretch(numbers: &mut Numbers, side: u32) -> (u32, u32)
    requires { 0 < side }
{
    let first = numbers.below(side as usize);
    let len = 1 + numbers.below((side as usize - first).min(300));
    (first as u32, len as u32)
}

/// Reads the windows of a run, in an image of the sides `sides`, by requests that look ahead or don't. Returns the first that isn't read
/// right.
fn wrong_window(
    alloc: Global,
    net: &mut Net<'_>,
    sides: (u32, u32),
    run: Run,
) -> Result<Option<Query>, NotDone>
    requires width { 0 < sides.0 }
    requires length { 0 < sides.1 }
{
    let mut client = client_of_a(alloc, 66)?;
    for _ in 0..run.windows {
        let (x, w) = stretch(&mut net.numbers, sides.0);
        let (y, h) = stretch(&mut net.numbers, sides.1);
        let query = of_level(x, y, w, h, 0);
        let is_read = if run.is_looking {
            net.is_in_time(alloc, &mut client, query)?
        } else {
            net.settle(alloc, &mut client, query)?
        };
        if !is_read {
            return Ok(Some(query));
        }
    }
    Ok(None)
}

/// Reads windows of two files that are published in turn. Returns the first that isn't read right.
fn wrong_of_two(
    alloc: Global,
    files: [&Plain; 2],
    sides: (u32, u32),
    run: Run,
) -> Result<Option<Query>, NotDone>
    requires width { 0 < sides.0 }
    requires length { 0 < sides.1 }
{
    let [old, new] = files;
    let revisions = [
        revision_of("\"1-1\"", old),
        revision_of("\"1-2\"", new),
        revision_of("\"1-3\"", old),
        revision_of("\"1-4\"", new),
    ];
    let mut net = Net {
        revisions: &revisions,
        now: 0,
        kept: Vec::new(alloc),
        numbers: Numbers::new(run.seed),
    };
    wrong_window(alloc, &mut net, sides, run)
}

/// Expects that windows of two files are read right. Their images have the sides `sides`.
fn expect_right(
    rt: &(impl Abort + AllocGlobal),
    files: (Vec<u8>, Vec<u8>),
    sides: (u32, u32),
    run: Run,
) -> Result<(), Fail>
    requires width { 0 < sides.0 }
    requires length { 0 < sides.1 }
{
    let (old, new) = files;
    let (old, new) = (Plain::new(rt.alloc(), old)?, Plain::new(rt.alloc(), new)?);
    let found = wrong_of_two(rt.alloc(), [&old, &new], sides, run)?;
    assert!(rt; found.is_none(), "{run:?}: {found:?}");
    Ok(())
}

/// Expects the same of f2, which is replaced by f2b and back.
fn expect_small(rt: &(impl Abort + AllocGlobal), run: Run) -> Result<(), Fail> {
    expect_right(rt, (f2(rt.alloc())?, f2b(rt.alloc())?), (256, 256), run)
}

#[test]
fn reads_small_tiles_whatever_befalls_the_answers(rt: HostRuntime) -> Result<(), Fail> {
    let run = Run {
        seed: 1,
        windows: 300,
        is_looking: false,
    };
    expect_small(&rt, run)
}

#[test]
fn reads_large_tiles_whatever_befalls_the_answers(rt: HostRuntime) -> Result<(), Fail> {
    let files = revisions_of_f5(rt.alloc())?;
    let run = Run {
        seed: 1,
        windows: 60,
        is_looking: false,
    };
    expect_right(&rt, files, (1280, 1024), run)
}

#[test]
fn reports_small_tiles_in_time_however_far_it_looks(rt: HostRuntime) -> Result<(), Fail> {
    let run = Run {
        seed: 2,
        windows: 450,
        is_looking: true,
    };
    expect_small(&rt, run)
}

#[test]
fn reports_more_small_tiles_in_time_however_far_it_looks(rt: HostRuntime) -> Result<(), Fail> {
    let run = Run {
        seed: 3,
        windows: 450,
        is_looking: true,
    };
    expect_small(&rt, run)
}

#[test]
fn reports_tiles_that_stand_apart_in_time_however_far_it_looks(
    rt: HostRuntime,
) -> Result<(), Fail> {
    let files = (cog(rt.alloc(), 3, false)?, cog(rt.alloc(), 3, true)?);
    let run = Run {
        seed: 4,
        windows: 100,
        is_looking: true,
    };
    expect_right(&rt, files, (768, 768), run)
}
