//! A file in memory, and the groups of its windows.
ghost use Rattle.std.specs.Prelude.{◌≡◌, Some, slice_get, IfOk, IfSome, IsTrue, length};
ghost use Rattle.tile_plan.specs.Levels.{is_inside};

use reference_support::{Course, walk_over};
use std::alloc::Global;
use std::test::Fail;
use tiff_dir::{FileFault, Level, Order, Place, Query};
use tile_plan::{Group, PlanError, Rectangle, groups, rect};

/// A file whose directories have no fault.
#[derive(Drop)]
pub struct Image {
    pub file: Vec<u8>,
    pub order: Order,
    pub levels: Vec<Level>,
}

/// Returns the bytes of a field's values.
fn array<'a>(file: &'a [u8], place: &Place) -> Option<&'a [u8]>
    ensures { IfSome result (λ bytes. length bytes.now ≡ place.now.len) }
{
    let bytes = file.get(place.first as usize..)?.get(..place.len as usize)?;
    Some(bytes)
}

impl Image {
    pub fn new(alloc: Global, file: Vec<u8>) -> Result<Image, Fail> {
        let Course { end, ranges: _ } = walk_over(alloc, &file).ok().ok_or("no memory")?;
        let walk = end.ok().ok_or("the file has a fault")?;
        let order = walk.order();
        let levels = Vec::from_slice(alloc, walk.levels())?;
        Ok(Image {
            file,
            order,
            levels,
        })
    }

    /// Returns a level and its arrays.
    fn arrays(&self, n: usize) -> Result<Arrays<'_>, FileFault>
        ensures { IfOk result (λ a. slice_get self.now.levels.items n ≡ Some a.level.now) }
    {
        let level = self.levels.get(n).ok_or(FileFault::Outside)?;
        Ok(Arrays {
            order: self.order,
            level,
            offsets: array(&self.file, &level.offsets).ok_or(FileFault::PastEnd)?,
            counts: array(&self.file, &level.counts).ok_or(FileFault::PastEnd)?,
        })
    }

    /// Returns the groups of a window.
    pub fn plan(&self, alloc: Global, query: Query) -> Result<Vec<Group>, PlanError> {
        let rect = rect(&self.levels, query)?;
        let arrays = self.arrays(rect.level)?;
        arrays.groups(alloc, rect, self.file.len() as u64)
    }
}

/// Changes a byte of a file.
pub fn change(file: &mut [u8], place: usize, byte: u8) {
    if let Some(here) = file.get_mut(place) {
        *here = byte;
    }
}

/// A level and the bytes of its arrays.
#[derive(Clone, Copy)]
struct Arrays<'a> {
    order: Order,
    level: &'a Level,
    offsets: &'a [u8],
    counts: &'a [u8],
    ghost offsets_len: { length offsets.now ≡ level.now.offsets.len },
    ghost counts_len: { length counts.now ≡ level.now.counts.len },
}

impl Arrays<'_> {
    /// Returns the groups of a rectangle, in a file of `complete` bytes.
    fn groups(&self, alloc: Global, rect: Rectangle, complete: u64) -> Result<Vec<Group>, PlanError>
        requires { IsTrue (is_inside self.now.level.now rect.x rect.y rect.w rect.h) }
    {
        groups(
            alloc,
            self.order,
            self.level,
            rect,
            complete,
            self.offsets,
            self.counts,
        )
    }
}
