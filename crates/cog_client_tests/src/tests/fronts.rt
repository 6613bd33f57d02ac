//! Every front of an answer, each to a new client: whole, byte by byte, and in pieces of 171 bytes.
use super::only;
use assertion_support::expect_eq;
use cog_client_support::Answer::{Part, Text};
use cog_client_support::Step::{Ignores, IsSilent, Stands, Takes};
use cog_client_support::{ASKS_FRONT, FIRST, NotDone, OLD, Publication, otherwise_by};
use fixtures_support::f2;
use std::alloc::Global;
use std::ops::Range;
use std::process::Abort;
use std::test::Fail;

/// Returns the number of the first step that doesn't go as expected. A new client is answered with a front that has `body` bytes of the
/// body, or with a front of the head alone.
fn front_otherwise(
    alloc: Global,
    files: &[Publication<'_>],
    front: &[u8],
    body: Option<u32>,
    piece: Option<usize>,
) -> Result<Option<usize>, NotDone> {
    let (taken, tag) = match body {
        None => (Ignores(Text(front), 1), None),
        Some(body) => (Takes(Text(front), body / 16384), Some(OLD)),
    };
    let steps = [taken, IsSilent, Stands(Some(FIRST), tag)];
    otherwise_by(alloc, files, &[&ASKS_FRONT, &steps], piece)
}

/// How a front comes. Its head has 171 bytes.
const WAYS: [Option<usize>; 3] = [None, Some(1), Some(171)];

/// Returns the length of the first front of the answer that isn't taken as expected, of the lengths `lens`.
fn len_otherwise(
    alloc: Global,
    files: &[Publication<'_>],
    answer: &[u8],
    lens: Range<u32>,
) -> Result<Option<u32>, NotDone> {
    for len in lens {
        let front = answer.get(..len as usize).ok_or(NotDone::NoSuchPart)?;
        for piece in WAYS {
            if front_otherwise(alloc, files, front, len.checked_sub(171), piece)?.is_some() {
                return Ok(Some(len));
            }
        }
    }
    Ok(None)
}

/// Expects what fronts of the lengths `lens` do, of the first answer of two exchanges. Its head has 171 bytes, and its body has 65,536.
fn expect_fronts(rt: &(impl Abort + AllocGlobal), lens: Range<u32>) -> Result<(), Fail> {
    let file = f2(rt.alloc())?;
    let files = only(&file);
    let answer = Part(0, 0, 65535).text(rt.alloc(), &files)?;
    expect_eq!(rt; answer.len(), 65707);
    expect_eq!(rt; len_otherwise(rt.alloc(), &files, &answer, lens)?, None);
    Ok(())
}

#[test]
fn ignores_fronts_of_the_head(rt: HostRuntime) -> Result<(), Fail> {
    expect_fronts(&rt, 0..171)
}

#[test]
fn keeps_no_part_of_a_block(rt: HostRuntime) -> Result<(), Fail> {
    expect_fronts(&rt, 171..16555)
}

#[test]
fn keeps_the_first_block_of_a_front(rt: HostRuntime) -> Result<(), Fail> {
    expect_fronts(&rt, 16555..32939)
}

#[test]
fn keeps_two_blocks_of_a_front(rt: HostRuntime) -> Result<(), Fail> {
    expect_fronts(&rt, 32939..49323)
}

#[test]
fn keeps_three_blocks_of_a_front(rt: HostRuntime) -> Result<(), Fail> {
    expect_fronts(&rt, 49323..65708)
}
