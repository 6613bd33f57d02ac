//! Every list of up to four of these fates, and of up to three where the answers come in pieces. The heads of the answers have 165 to 174
//! bytes, and that of f2's first answer has 171. So an answer that is cut after 0, 170 or 171 bytes brings no whole block. After 16,555
//! bytes the first block of f2 is whole, and the other answers are shorter.
//!
//! An answer that is lost or brings no block changes nothing of what is needed. The report stands after the first answer that brings
//! blocks, and that of f2 after the second.
use super::fetched::{Fetched, fetch_by, fetch_pieces_by};
use super::{LAST_TILE, window};
use cog_client::{Query, Report};
use cog_server::Server;
use fixtures_support::{f1, f2, f3};
use std::process::Abort;
use std::test::Fail;
use transports::{Fate, server_of_one};

const FATES: [Fate; 6] = [
    Fate::Lost,
    Fate::Cut(0),
    Fate::Cut(170),
    Fate::Cut(171),
    Fate::Cut(16555),
    Fate::Whole,
];

/// As many exchanges as the longest list has fates.
const TRIES: u32 = 4;

/// The sizes of the first pieces of each answer, in which the head and the first block come in parts.
const SIZES: [usize; 4] = [1, 169, 2, 10_000];

/// What is fetched, how many answers that bring blocks it needs, and the report.
#[derive(Clone, Copy)]
struct Case<'a> {
    server: &'a Server,
    query: Query,
    needed: usize,
    report: &'a Report,
}

fn brings_blocks(fate: Fate) -> bool {
    matches!(fate, Fate::Cut(16555) | Fate::Whole)
}

/// Returns how many fates of the list are used up until `needed` answers have brought blocks. Returns `None` where there are fewer.
fn used_up(fates: &[Fate], needed: usize) -> Option<usize> {
    let mut left = needed;
    for (i, fate) in fates.iter().enumerate() {
        if brings_blocks(*fate) {
            left = left.saturating_sub(1);
        }
        if left == 0 {
            return Some(i.saturating_add(1));
        }
    }
    None
}

fn are_same(found: Option<&Report>, want: Option<&Report>) -> bool {
    match (found, want) {
        (None, None) => true,
        (Some(found), Some(want)) => {
            found.query == want.query && found.tag == want.tag && found.outcome == want.outcome
        }
        _ => false,
    }
}

impl Case<'_> {
    /// Returns whether the right report was fetched, in the right number of exchanges, where `used` fates are used up.
    fn is_met(&self, fetched: &Fetched, used: Option<usize>) -> bool {
        let exchanges = used.unwrap_or(TRIES as usize) as u64;
        let want = used.map(|_| self.report);
        fetched.exchanges == exchanges && are_same(fetched.report.as_ref(), want)
    }
}

/// Expects the right report, in the right number of exchanges, where the answers have these fates.
fn expect_list(
    rt: &(impl Abort + AllocGlobal),
    case: &Case<'_>,
    fates: &[Fate],
) -> Result<(), Fail> {
    let fetched = fetch_by(rt.alloc(), case.server, case.query, fates, TRIES)?;
    let is_met = case.is_met(&fetched, used_up(fates, case.needed));
    assert!(rt; is_met, "{fates:?}");
    Ok(())
}

/// Expects the same where the answers come in pieces.
fn expect_list_in_pieces(
    rt: &(impl Abort + AllocGlobal),
    case: &Case<'_>,
    fates: &[Fate],
) -> Result<(), Fail> {
    let fetched = fetch_pieces_by(rt.alloc(), case.server, case.query, fates, &SIZES, TRIES)?;
    let is_met = case.is_met(&fetched, used_up(fates, case.needed));
    assert!(rt; is_met, "{fates:?}, in pieces");
    Ok(())
}

/// Expects the same where the answers come whole, and, for up to three fates, in pieces.
fn expect_both(
    rt: &(impl Abort + AllocGlobal),
    case: &Case<'_>,
    fates: &[Fate],
) -> Result<(), Fail> {
    expect_list(rt, case, fates)?;
    if fates.len() > 3 {
        return Ok(());
    }
    expect_list_in_pieces(rt, case, fates)
}

/// Sets the list of a number: its digits to the base 6, the last one first.
fn set_fates(fates: &mut [Fate], number: usize) {
    let mut rest = number;
    for fate in fates.iter_mut() {
        *fate = FATES[rest % 6];
        rest /= 6;
    }
}

/// Expects the same for the lists of the numbers below `count`.
fn expect_lists(
    rt: &(impl Abort + AllocGlobal),
    case: &Case<'_>,
    fates: &mut [Fate],
    count: usize,
) -> Result<(), Fail> {
    for number in 0..count {
        set_fates(fates, number);
        expect_both(rt, case, fates)?;
    }
    Ok(())
}

/// Expects the same for all lists of a case.
fn expect_every(rt: &(impl Abort + AllocGlobal), case: &Case<'_>) -> Result<(), Fail> {
    expect_both(rt, case, &[])?;
    expect_lists(rt, case, &mut [Fate::Lost; 1], 6)?;
    expect_lists(rt, case, &mut [Fate::Lost; 2], 36)?;
    expect_lists(rt, case, &mut [Fate::Lost; 3], 216)?;
    expect_lists(rt, case, &mut [Fate::Lost; 4], 1296)
}

/// Expects the same for all lists, beside the report of a run in which every answer comes whole.
fn expect_all(
    rt: &(impl Abort + AllocGlobal),
    file: Vec<u8>,
    query: Query,
    needed: usize,
) -> Result<(), Fail> {
    let server = server_of_one(rt.alloc(), 1, b"a", file)?;
    let ample = fetch_by(rt.alloc(), &server, query, &[Fate::Whole; 4], TRIES)?;
    let report = ample.report.ok_or("no report")?;
    let case = Case {
        server: &server,
        query,
        needed,
        report: &report,
    };
    expect_every(rt, &case)
}

#[test]
fn fetches_a_window_of_one_answer_whatever_is_lost(rt: HostRuntime) -> Result<(), Fail> {
    expect_all(&rt, f1(rt.alloc())?, window(2, 1, 3, 2), 1)
}

#[test]
fn fetches_a_window_of_two_answers_whatever_is_lost(rt: HostRuntime) -> Result<(), Fail> {
    expect_all(&rt, f2(rt.alloc())?, LAST_TILE, 2)
}

#[test]
fn fetches_info_whatever_is_lost(rt: HostRuntime) -> Result<(), Fail> {
    expect_all(&rt, f3(rt.alloc())?, Query::Info, 1)
}
