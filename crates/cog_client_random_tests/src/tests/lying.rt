//! Answers that are changed at random: numbers, bits and tags, folded and doubled fields, bodies of another revision. They are cut or
//! longer, and come in pieces of any size.
//!
//! The client comes to a report or to none. Where no answer lied about the bytes of its tag's revision, the report is what the plain
//! program reads in that revision.
use super::changed::{Parts, honest};
use super::revisions::{Revision, is_right, revision_of};
use cog_client::Client;
use cog_client_support::{NotDone, client_of_a, hand};
use cog_reader_support::{Plain, of_level};
use fixtures_support::{Numbers, f2, f2b, f3, f6};
use std::alloc::Global;
use std::process::Abort;
use std::test::Fail;
use tiff_dir::Query;

/// A server of two revisions that may lie, and the number of the one that it has.
#[derive(Drop)]
struct Liar<'a> {
    revisions: &'a [Revision<'a>],
    now: usize,
    numbers: Numbers,
    /// Whether no answer has lied since the client last forgot everything.
    is_honest: bool,
    answers: usize,
    reports: usize,
}

/// Returns a window of up to 20 by 20 samples, or Info.
fn query(numbers: &mut Numbers) -> Query {
    if numbers.below(5) == 0 {
        return Query::Info;
    }
    let (x, y) = (numbers.below(260) as u32, numbers.below(260) as u32);
    let (w, h) = (numbers.below(20) as u32, numbers.below(20) as u32);
    of_level(x, y, w, h, numbers.below(2) as u32)
}

impl<'a> Liar<'a> {
    /// Returns the revision that the server has, or the other one.
    fn revision(&self, is_other: bool) -> Result<Revision<'a>, NotDone> {
        let at = if is_other { self.now ^ 1 } else { self.now };
        self.revisions.get(at).copied().ok_or(NotDone::NoSuchPart)
    }

    /// Changes an answer, with a lie or without one.
    fn change(&mut self, alloc: Global, parts: &mut Parts<'a>, lies: bool) -> Result<(), NotDone> {
        if lies {
            let other = self.revision(true)?;
            parts.lie(alloc, &mut self.numbers, other)?;
            self.is_honest = false;
        } else {
            parts.change_form(&mut self.numbers)?;
        }
        Ok(())
    }

    /// Answers the client's request, and returns whether there was one. Every second answer is changed, and every fourth is cut, at random.
    fn exchange(
        &mut self,
        alloc: Global,
        client: &mut Client,
        lies: bool,
    ) -> Result<bool, NotDone> {
        if client.request()?.is_none() {
            return Ok(false);
        }
        if self.numbers.below(8) == 0 {
            self.now ^= 1;
        }
        let mut parts = honest(alloc, self.revision(false)?, client)?;
        if self.numbers.below(2) == 0 {
            self.change(alloc, &mut parts, lies)?;
        }
        let text = parts.text(alloc)?;
        let len = match self.numbers.below(4) {
            0 => self.numbers.below(text.len().max(1)),
            _ => text.len(),
        };
        let piece = match self.numbers.below(3) {
            0 => 1 + self.numbers.below(200),
            1 => 1 + self.numbers.below(70_000),
            _ => 16_384,
        };
        hand(client, text.get(..len).unwrap_or(&[]), Some(piece))?;
        self.answers = self.answers.saturating_add(1);
        Ok(true)
    }

    /// Asks a query. A report comes within eight exchanges, or none comes. Returns whether it is right, where no answer lied.
    fn ask(&mut self, alloc: Global, client: &mut Client) -> Result<bool, NotDone> {
        if !self.is_honest || self.numbers.below(4) == 0 {
            client.forget();
            self.is_honest = true;
        }
        let query = query(&mut self.numbers);
        let lies = self.numbers.below(2) == 0;
        client.open(query);
        for _ in 0..8 {
            if !self.exchange(alloc, client, lies)? {
                break;
            }
        }
        let Some(report) = client.report() else {
            return Ok(true);
        };
        self.reports = self.reports.saturating_add(1);
        Ok(!self.is_honest || is_right(alloc, report, self.revisions, query)?)
    }
}

/// Expects no wrong report, and enough reports, in `answers` answers of these revisions.
fn expect_right(
    rt: &(impl Abort + AllocGlobal),
    (old, new): (Vec<u8>, Vec<u8>),
    answers: usize,
    seed: u64,
) -> Result<(), Fail> {
    let alloc = rt.alloc();
    let (old, new) = (Plain::new(alloc, old)?, Plain::new(alloc, new)?);
    let revisions = [revision_of("\"1-1\"", &old), revision_of("\"1-2\"", &new)];
    let mut liar = Liar {
        revisions: &revisions,
        now: 0,
        numbers: Numbers::new(seed),
        is_honest: true,
        answers: 0,
        reports: 0,
    };
    let mut client = client_of_a(alloc, 66)?;
    for ask in 0..200_000u32 {
        if liar.answers >= answers {
            break;
        }
        assert!(rt; liar.ask(alloc, &mut client)?, "seed {seed}, query {ask}");
    }
    let reports = liar.reports;
    assert!(rt; liar.answers >= answers, "seed {seed}");
    assert!(rt; reports > answers / 10, "seed {seed}: {reports} reports");
    Ok(())
}

#[test]
fn reports_nothing_wrong_of_a_first_file_of_two_levels(rt: HostRuntime) -> Result<(), Fail> {
    expect_right(&rt, (f3(rt.alloc())?, f6(rt.alloc())?), 40_000, 1)
}

#[test]
fn reports_nothing_wrong_of_a_first_file_of_one_tile(rt: HostRuntime) -> Result<(), Fail> {
    expect_right(&rt, (f6(rt.alloc())?, f3(rt.alloc())?), 40_000, 20_261_125)
}

#[test]
fn reports_nothing_wrong_of_files_of_five_blocks(rt: HostRuntime) -> Result<(), Fail> {
    expect_right(&rt, (f2(rt.alloc())?, f2b(rt.alloc())?), 10_000, 3)
}

#[test]
fn reports_nothing_wrong_of_files_of_five_blocks_and_of_one(rt: HostRuntime) -> Result<(), Fail> {
    expect_right(
        &rt,
        (f2(rt.alloc())?, f3(rt.alloc())?),
        10_000,
        4_294_967_296,
    )
}
