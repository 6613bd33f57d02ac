//! Windows that need several requests, blocks that leave a full cache, and a file that is replaced meanwhile.
use assertion_support::expect_eq;
use cog_client_support::Answer::{Part, Whole};
use cog_client_support::Step::{
    Asks, AsksNothing, Ignores, IsSilent, Opens, Reports, Restarts, Stands, Takes, TakesMore,
};
use cog_client_support::{
    FIRST, NEW, NotDone, OLD, Publication, Session, Step, WAYS, client_of_a, otherwise,
    revisions_of_f5,
};
use cog_reader_support::Want;
use std::alloc::{AllocError, Global};
use std::test::Fail;

/// Returns the samples of f5. Each sample of tile t is t, or 255 - t in the other revision.
fn samples(alloc: Global, is_other: bool) -> Result<Vec<u8>, AllocError> {
    let mut samples = Vec::new(alloc);
    for i in 0..5120u32 {
        let tile = (i / 1280 * 5 + i % 5) as u8;
        let sample = if is_other { !tile } else { tile };
        samples.extend_from_slice(&[sample; 256])?;
    }
    Ok(samples)
}

/// How a client that keeps `blocks` blocks reads the whole image. It has the steps before the report, whether the report is of the other
/// revision, and the steps after it.
#[derive(Clone, Copy)]
struct Reading {
    name: &'static str,
    blocks: u32,
    before: &'static [&'static [Step<'static>]],
    is_replaced: bool,
    after: &'static [Step<'static>],
}

/// Steps up to the request for the first group: the first 16 tiles, of 1,048,576 bytes.
const ASKS_FIRST_GROUP: [Step<'static>; 4] = [
    Opens(0, 0, 1280, 1024),
    Asks(FIRST, None),
    Takes(Part(0, 0, 65535), 4),
    Asks((65536, 1064959), Some(OLD)),
];

/// Steps up to the request for the second group: the other four tiles.
const ASKS_SECOND_GROUP: [Step<'static>; 2] = [
    TakesMore(Part(0, 65536, 1064959), 61),
    Asks((1064960, 1327103), Some(OLD)),
];

const TAKES_SECOND_GROUP: [Step<'static>; 1] = [Takes(Part(0, 1064960, 1327103), 16)];

const TWO_GROUPS: [&[Step<'static>]; 3] = [
    &ASKS_FIRST_GROUP,
    &ASKS_SECOND_GROUP,
    &TAKES_SECOND_GROUP,
];

/// The least cache keeps the last 66 blocks, so blocks 0 to 14 have left. Of tile 0 no block is left, of tile 3 two of four, and of tile 19
/// all.
const LEAST: Reading = Reading {
    name: "the least cache",
    blocks: 66,
    before: &TWO_GROUPS,
    is_replaced: false,
    after: &[
        Opens(0, 0, 1, 1),
        Asks((16384, 81919), Some(OLD)),
        Takes(Part(0, 16384, 81919), 4),
        Reports(OLD, Want::Window(1, 1, 1, 8, &[0])),
    ],
};

const LEFT: Reading = Reading {
    name: "blocks that have left",
    blocks: 66,
    before: &TWO_GROUPS,
    is_replaced: false,
    after: &[
        Opens(768, 0, 1, 1),
        Asks((212992, 245759), Some(OLD)),
        Takes(Part(0, 212992, 245759), 2),
        Reports(OLD, Want::Window(1, 1, 1, 8, &[3])),
        Opens(1279, 1023, 1, 1),
        AsksNothing,
        Reports(OLD, Want::Window(1, 1, 1, 8, &[19])),
        Opens(1024, 0, 1, 1),
        Asks((278528, 311295), Some(OLD)),
        Takes(Part(0, 278528, 311295), 2),
        Reports(OLD, Want::Window(1, 1, 1, 8, &[4])),
        Opens(0, 255, 1, 1),
        Asks((16384, 81919), Some(OLD)),
        Takes(Part(0, 16384, 81919), 4),
        Reports(OLD, Want::Window(1, 1, 1, 8, &[0])),
    ],
};

/// A cache with room for every block. Nothing is asked any more after the image is read.
const GREATEST: Reading = Reading {
    name: "the greatest cache",
    blocks: 4096,
    before: &[
        &ASKS_FIRST_GROUP,
        &ASKS_SECOND_GROUP,
        &TAKES_SECOND_GROUP,
        &[
            Stands(None, Some(OLD)),
            Opens(0, 0, 1, 1),
            AsksNothing,
            Reports(OLD, Want::Window(1, 1, 1, 8, &[0])),
            Opens(0, 0, 1280, 1024),
            IsSilent,
            AsksNothing,
        ],
    ],
    is_replaced: false,
    after: &[],
};

/// A cache with room for exactly these 81 blocks.
const EXACT: Reading = Reading {
    name: "a cache of as many blocks",
    blocks: 81,
    ..GREATEST
};

/// The limits of a request in the middle of a file, and the gaps that answers leave in it.
const GAPS: Reading = Reading {
    name: "gaps",
    blocks: 66,
    before: &[
        &ASKS_FIRST_GROUP,
        &[
            Ignores(Part(0, 65535, 65535), 12),
            Ignores(Part(0, 1064960, 1064960), 12),
            TakesMore(Part(0, 65536, 65536), 0),
            TakesMore(Part(0, 1064959, 1064959), 0),
            TakesMore(Part(0, 65535, 65536), 0),
            TakesMore(Part(0, 1064959, 1064960), 0),
            TakesMore(Part(0, 65536, 81919), 1),
            TakesMore(Part(0, 98304, 114687), 1),
            TakesMore(Part(0, 114688, 147456), 2),
            TakesMore(Part(0, 1000000, 1327103), 3),
            Asks((81920, 98303), Some(OLD)),
            TakesMore(Part(0, 81920, 98303), 1),
            Asks((147456, 1015807), Some(OLD)),
            TakesMore(Part(0, 147456, 1015807), 53),
            Asks((1064960, 1327103), Some(OLD)),
            Takes(Part(0, 1064960, 1327103), 16),
        ],
    ],
    is_replaced: false,
    after: &[],
};

/// The file is replaced by a longer one after 16 of the 20 tiles are read.
const REPLACED: Reading = Reading {
    name: "replaced midway",
    blocks: 66,
    before: &[
        &ASKS_FIRST_GROUP,
        &ASKS_SECOND_GROUP,
        &[
            Restarts(Whole(1)),
            Stands(Some(FIRST), Some(NEW)),
            Ignores(Part(0, 1064960, 1327103), 10),
            Asks((65536, 1064959), Some(NEW)),
            TakesMore(Part(1, 65536, 1064959), 61),
            Asks((1064960, 1327103), Some(NEW)),
            Takes(Part(1, 1064960, 1327103), 16),
        ],
    ],
    is_replaced: true,
    after: &[],
};

/// Returns whether the report is the whole image.
fn is_whole(
    alloc: Global,
    session: &mut Session<'_>,
    tag: &str,
    samples: &[u8],
) -> Result<bool, NotDone> {
    session.step(alloc, Reports(tag, Want::Window(1280, 1024, 1, 8, samples)))
}

impl Reading {
    /// Returns the number of the first step of a session that doesn't go as expected. The report counts as a step between the others.
    fn go(
        &self,
        alloc: Global,
        session: &mut Session<'_>,
        samples: &[u8],
    ) -> Result<Option<usize>, NotDone> {
        let tag = if self.is_replaced { NEW } else { OLD };
        let mut place = 0usize;
        for steps in self.before {
            place = place.saturating_add(steps.len());
        }
        if let Some(step) = session.go_through(alloc, self.before)? {
            return Ok(Some(step));
        }
        if !is_whole(alloc, session, tag, samples)? {
            return Ok(Some(place));
        }
        match session.go(alloc, self.after)? {
            Some(step) => Ok(Some(place.saturating_add(1).saturating_add(step))),
            None => Ok(None),
        }
    }

    /// Returns the number of the first step of a new client that doesn't go as expected. Answers come whole or in pieces.
    fn otherwise(
        &self,
        alloc: Global,
        files: &[Publication<'_>],
        samples: &[u8],
    ) -> Result<Option<usize>, NotDone> {
        for piece in WAYS {
            let client = client_of_a(alloc, self.blocks)?;
            let mut session = Session::new(client, &*files, piece);
            let step = self.go(alloc, &mut session, samples)?;
            if step.is_some() {
                return Ok(step);
            }
        }
        Ok(None)
    }
}

/// Returns the name of the first of these readings that doesn't go as expected, and the number of its step.
fn reading_otherwise(
    alloc: Global,
    files: &[Publication<'_>],
    readings: &[Reading],
) -> Result<Option<(&'static str, usize)>, NotDone> {
    let (old, new) = (samples(alloc, false)?, samples(alloc, true)?);
    for reading in readings {
        let samples = if reading.is_replaced { &new } else { &old };
        if let Some(step) = reading.otherwise(alloc, files, samples)? {
            return Ok(Some((reading.name, step)));
        }
    }
    Ok(None)
}

const READINGS: [Reading; 6] = [LEAST, LEFT, GREATEST, EXACT, GAPS, REPLACED];

#[test]
fn reads_a_large_image_by_several_requests(rt: HostRuntime) -> Result<(), Fail> {
    let (old, new) = revisions_of_f5(rt.alloc())?;
    let files = Publication::in_turn(OLD, &old, NEW, &new);
    let found = reading_otherwise(rt.alloc(), &files, &READINGS)?;
    expect_eq!(rt; found, None);
    Ok(())
}

/// Steps with a window of the first revision, and then windows of the next.
const TWO_REVISIONS: [Step<'static>; 17] = [
    Opens(0, 0, 1, 1),
    Asks(FIRST, None),
    Takes(Part(0, 0, 65535), 4),
    Asks((65536, 81919), Some(OLD)),
    Takes(Part(0, 65536, 81919), 1),
    Reports(OLD, Want::Window(1, 1, 1, 8, &[0])),
    Opens(1279, 1023, 1, 1),
    Asks((1261568, 1327103), Some(OLD)),
    Restarts(Whole(1)),
    IsSilent,
    Asks((1261568, 1327103), Some(NEW)),
    Takes(Part(1, 1261568, 1327103), 4),
    Reports(NEW, Want::Window(1, 1, 1, 8, &[236])),
    Opens(0, 0, 1, 1),
    Asks((65536, 81919), Some(NEW)),
    Takes(Part(1, 65536, 81919), 1),
    Reports(NEW, Want::Window(1, 1, 1, 8, &[255])),
];

#[test]
fn reads_windows_of_two_revisions(rt: HostRuntime) -> Result<(), Fail> {
    let (old, new) = revisions_of_f5(rt.alloc())?;
    let files = Publication::in_turn(OLD, &old, NEW, &new);
    let found = otherwise(rt.alloc(), &files, &[&TWO_REVISIONS])?;
    expect_eq!(rt; found, None);
    Ok(())
}
