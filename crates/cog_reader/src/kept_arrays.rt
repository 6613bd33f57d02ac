//! The tile arrays of the level that was read last.
ghost use Rattle.std.specs.Prelude.{◌≡◌, ◌+◌, ℕ, ⊤, List, Some, IsSomeAnd, OnErr, OnOk, length, slice_get};
ghost use Rattle.tiff_dir.specs.Described.{layout_of};
ghost use Rattle.tiff_dir.specs.File.{order_of};
ghost use Rattle.tiff_dir.specs.WalkState.{WalkState};
ghost use Rattle.tiff_dir.specs.Level.{level_layout};
ghost use Rattle.tiff_dir.specs.Walk.{levels_of, HasEnded, IsArrayOf};
ghost use Rattle.cog_reader.specs.KeptArrays.{array_after, arrays_held, next_array, HasBoth, HoldsOffsets, IsKeptOf, KeptAgrees};
ghost use Rattle.cog_reader.specs.declared.kept_arrays.KeptArrays.TheVariants as kept;

use extents::Memory;
use std::alloc::Global;
use std::mem;
use tiff_dir::{Level, Order, Place};
use tile_plan::Arrays;

/// The arrays of the level that was read last, as far as they were read, with the level's number.
#[derive(Drop)]
pub enum KeptArrays {
    /// None of them was read.
    Nothing,
    /// The offsets alone.
    Offsets(usize, Vec<u8>),
    /// The offsets and the byte counts.
    Both(usize, Arrays),
}

/// The array of a level that is read next.
pub enum NextArray<'a> {
    /// It stands at this place.
    Read(Place),
    /// There is none: both are kept.
    Both(&'a Arrays),
}

impl KeptArrays {
    ghost use Rattle.cog_reader.specs.NextArray.{IsNextArray};

    /// Returns the array of level `number` that is read next.
    pub fn next(&self, number: usize, level: &Level) -> NextArray<'_>
        ensures { IsNextArray self.now number level.now result }
    {
        match self {
            KeptArrays::Both(kept, arrays) if *kept == number => NextArray::Both(arrays),
            KeptArrays::Offsets(kept, _) if *kept == number => NextArray::Read(level.counts),
            _ => NextArray::Read(level.offsets),
        }
    }

    /// Returns the place of the array of level `number` that is read after the next one, or `None`.
    pub fn after_next(&self, number: usize, level: &Level) -> Option<Place>
        ensures { result ≡ array_after self.now number level.now }
    {
        match self {
            KeptArrays::Both(kept, _) if *kept == number => None,
            KeptArrays::Offsets(kept, _) if *kept == number => None,
            _ => Some(level.counts),
        }
    }

    /// Returns the arrays of a level, both of which are kept.
    pub fn both(&self) -> &Arrays
        requires { HasBoth self.now (λ _. ⊤) }
        ensures { (n : ℕ) × (self.now ≡ kept.Both n result.now) }
    {
        match self {
            KeptArrays::Both(_, arrays) => arrays,
            KeptArrays::Nothing | KeptArrays::Offsets(..) => unreachable!(),
        }
    }

    /// Adds the next array of level `number`, instead of what was kept of another level.
    fn with(self, number: usize, order: Order, level: &Level, array: Vec<u8>) -> KeptArrays
        requires wanted { IsSomeAnd (next_array self number level.now) (λ p. length array.items ≡ p.len) }
        requires offsets { HoldsOffsets self number level.now }
        ensures more { arrays_held result number ≡ arrays_held self number + 1 }
        ensures sound { (w : WalkState) → HasEnded w → slice_get (levels_of w) number ≡ Some level.now → IsKeptOf w result }
        ensures same { (f : List ℕ) → order_of f ≡ Some order → level_layout f number ≡ Some (layout_of level.now) → KeptAgrees f self
            → IsSomeAnd (next_array self number level.now) (λ p. IsArrayOf f p array.items) → KeptAgrees f result }
    {
        match self {
            KeptArrays::Offsets(kept, offsets) => {
                if kept == number {
                    let arrays = Arrays {
                        order,
                        level: *level,
                        offsets,
                        counts: array,
                    };
                    return KeptArrays::Both(number, arrays);
                }
                KeptArrays::Offsets(number, array)
            }
            _other => KeptArrays::Offsets(number, array),
        }
    }

    /// Adds the bytes of the next array of level `number`. Fails with `Memory` alone, and then changes nothing.
    pub fn add(
        &mut self,
        alloc: Global,
        number: usize,
        order: Order,
        level: &Level,
        bytes: &[u8],
    ) -> Result<(), Memory>
        requires wanted { IsSomeAnd (next_array self.old number level.now) (λ p. length bytes.now ≡ p.len) }
        requires offsets { HoldsOffsets self.old number level.now }
        ensures more { OnOk result (arrays_held self.new number ≡ arrays_held self.old number + 1) }
        ensures sound { OnOk result ((w : WalkState) → HasEnded w → slice_get (levels_of w) number ≡ Some level.now → IsKeptOf w self.new) }
        ensures same { OnOk result ((f : List ℕ) → order_of f ≡ Some order → level_layout f number ≡ Some (layout_of level.now)
            → KeptAgrees f self.old → IsSomeAnd (next_array self.old number level.now) (λ p. IsArrayOf f p bytes.now)
            → KeptAgrees f self.new) }
        ensures err { OnErr result (self.new ≡ self.old) }
    {
        let array = Vec::from_slice(alloc, bytes)?;
        let kept = mem::replace(self, KeptArrays::Nothing);
        *self = kept.with(number, order, level, array);
        Ok(())
    }
}
