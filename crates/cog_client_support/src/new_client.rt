//! New clients of a file that is published twice, and the steps that many of them begin with.
use crate::answers::{Answer, NEW, NotDone, OLD, Publication};
use crate::session::otherwise;
use crate::steps::{FIRST, Positions, Step};
use cog_reader_support::Fixture;
use std::alloc::Global;

/// The files that are published as `a` in turn, and their tags.
#[derive(Clone, Copy)]
pub struct Revisions<'a> {
    pub tags: [&'a str; 2],
    pub files: [Fixture; 2],
}

/// The file f2, published twice.
pub const F2_TWICE: Revisions<'static> = Revisions {
    tags: [OLD, NEW],
    files: [Fixture::F2, Fixture::F2],
};

/// The file f2, replaced by f2b.
pub const F2_REPLACED: Revisions<'static> = Revisions {
    tags: [OLD, NEW],
    files: [Fixture::F2, Fixture::F2b],
};

/// The last part of f2, which is missing after its first four blocks.
pub const END: Positions = (65536, 67705);

/// The window of f2's last tile is asked, and then the first bytes of the file.
pub const ASKS_FRONT: [Step<'static>; 2] = [Step::Opens(240, 240, 16, 16), Step::Asks(FIRST, None)];

/// The first bytes came, and the last part is asked.
pub const ASKS_END: [Step<'static>; 4] = [
    Step::Opens(240, 240, 16, 16),
    Step::Asks(FIRST, None),
    Step::Takes(Answer::Part(0, 0, 65535), 4),
    Step::Asks(END, Some(OLD)),
];

impl Revisions<'_> {
    /// Does these lists of steps, one after another, with new clients that have the least cache. Answers come whole, and in pieces of five
    /// sizes. Returns the number of the first step that didn't go as expected, counted from the first of all.
    pub fn otherwise(
        &self,
        alloc: Global,
        parts: &[&[Step<'_>]],
    ) -> Result<Option<usize>, NotDone> {
        let [old, new] = self.files;
        let [tag, next_tag] = self.tags;
        let (old, new) = (old.file(alloc)?, new.file(alloc)?);
        let files = Publication::in_turn(tag, &old, next_tag, &new);
        otherwise(alloc, &files, parts)
    }
}
