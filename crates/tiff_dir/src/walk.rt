//! The walk over the directories of a file (TIFF 6.0, section 2), by one byte range after another.
ghost use Rattle.std.specs.Prelude.{◌≡◌, ℕ, ◌+◌, ◌<◌, ◌≤◌, List, ◌∷◌, ◌++◌, Some, IsSomeAnd, IfOk, IfErr, OnOk, OnErr, length, slice_get};
ghost use Rattle.std.specs.Option.{option_to_list};
ghost use Rattle.tiff_dir.specs.Fault.{IsFaultOfDirectories};
ghost use Rattle.tiff_dir.specs.File.{order_of};
ghost use Rattle.tiff_dir.specs.Described.{AreLevels};
ghost use Rattle.tiff_dir.specs.Geo.{IsGeoFault};
ghost use Rattle.tiff_dir.specs.Needs.{needs_of_directories};
ghost use Rattle.tiff_dir.specs.Walk.{given_of, levels_of, to_come, wanted, WalkAgrees, AreGeoPlaces, AreTyped, HasEnded, IfFile, IsWanted, IsWantedOf, Wants};

use crate::geo::{GeoEntries, GeoPlaces};
use crate::stage::Stage;
use crate::steps::{geo_after, range, step};
use crate::{FileFault, Level, Order, Span, WalkError};
use std::alloc::Global;
use std::marker::Model;

/// A walk over the directories of a file, which is given these byte ranges one after another:
/// - the header, 8 bytes,
/// - of each directory the number of its entries, 2 bytes,
/// - then its entries and the offset of the next directory, 12 bytes for each entry, and 4,
/// - of a level the values of BitsPerSample and SampleFormat that stand outside its entries, 6 bytes each.
#[derive(Drop)]
pub struct Walk {
    stage: Stage,
    levels: Vec<Level>,
    geo: GeoEntries,
    given: u32,
}

impl Model for Walk {
    ghost use Rattle.tiff_dir.specs.WalkState.{WalkState};
    ghost use Rattle.tiff_dir.specs.Shape.{IsSoFar};

    ghost Value = { WalkState };

    ghost view = { λ w. record { stage = w.stage; levels = w.levels.items; geo = w.geo; given = w.given } };

    ghost invariant = { λ w. IsSoFar w.stage w.levels.items w.geo w.given };
}

/// Adds the level, if there is one. Fails with `Memory` alone.
fn keep(levels: &mut Vec<Level>, level: Option<Level>) -> Result<(), WalkError>
    ensures ok { OnOk result (levels.new.items ≡ levels.old.items ++ option_to_list level) }
    ensures err { OnErr result (levels.new.items ≡ levels.old.items) }
    ensures memory { IfErr result (λ e. e ≡ WalkError.Memory) }
{
    if let Some(level) = level {
        levels.push(level)?;
    }
    Ok(())
}

impl Walk {
    /// Makes a walk that knows nothing yet. It allocates nothing.
    ///
    /// ```
    /// let mut walk = Walk::new(alloc);
    /// while let Some(span) = walk.need(file.len() as u64)? {
    ///     walk.give(&file[span.first as usize..=span.last as usize])?;
    /// }
    /// let levels = walk.levels();
    /// ```
    pub fn new(alloc: Global) -> Walk
        ensures agrees { (f : List ℕ) → WalkAgrees result f }
        ensures come { (f : List ℕ) → to_come result f ≡ needs_of_directories f }
        ensures given { given_of result ≡ 0 }
    {
        Walk {
            stage: Stage::Header,
            levels: Vec::new(alloc),
            geo: GeoEntries::none(),
            given: 0,
        }
    }

    /// Returns the byte range that is needed next, or `None` at the end. `file_length` is the file's length in bytes.
    /// The range has at most 1,048,576 bytes, all of them in the file. Fails with `PastEnd` where it ends after the
    /// file, and then the walk stays as it is.
    pub fn need(&self, file_length: u64) -> Result<Option<Span>, FileFault>
        ensures wanted { IfOk result (Wants self.now file_length) }
        // The only fault is that the range ends after the file.
        ensures past { IfErr result (λ fault. (fault ≡ FileFault.PastEnd)
            × IsSomeAnd (wanted self.now) (λ r. file_length < r.first + r.len)) }
        ensures fault { IfErr result (λ fault. (f : List ℕ) → length f ≡ file_length → WalkAgrees self.now f
            → IsFaultOfDirectories f fault) }
        // It is the first of the ranges still to come, and there is none exactly at the end.
        ensures first { (f : List ℕ) → WalkAgrees self.now f → slice_get (to_come self.now f) 0 ≡ wanted self.now }
    {
        let Some(span) = range(self.stage) else {
            return Ok(None);
        };
        if span.last >= file_length {
            return Err(FileFault::PastEnd);
        }
        Ok(Some(span))
    }

    /// Returns the byte order of the file, after the walk has ended.
    pub fn order(&self) -> Order
        requires { HasEnded self.now }
        ensures order { (f : List ℕ) → WalkAgrees self.now f → order_of f ≡ Some result }
    {
        match self.stage {
            Stage::Ended { order, .. } => order,
            _ => unreachable!(),
        }
    }

    /// Returns the levels of the file, after the walk has ended. There is at least one, and each is smaller than the
    /// one before.
    pub fn levels(&self) -> &[Level]
        requires { HasEnded self.now }
        ensures levels { (f : List ℕ) → WalkAgrees self.now f → AreLevels f result.now }
        ensures held { result.now ≡ levels_of self.now }
        ensures some { 0 < length result.now }
    {
        self.levels.as_slice()
    }

    /// Returns the places of the values of the geo fields, after the walk has ended. The fields are looked at in the
    /// order directory, doubles, ascii, scale, tiepoints, transformation. Their faults concern the query `Info` alone.
    /// Fails with the first of them:
    /// - `FieldType`: a field has another type or count.
    /// - `TooLarge`: a field has more than 65,536 bytes.
    pub fn geo_places(&self) -> Result<GeoPlaces, FileFault>
        requires { HasEnded self.now }
        ensures places { IfOk result (λ places. (f : List ℕ) → WalkAgrees self.now f → AreGeoPlaces f places) }
        ensures typed { IfOk result AreTyped }
        ensures fault { IfErr result (λ fault. (f : List ℕ) → WalkAgrees self.now f → IsGeoFault f fault) }
    {
        self.geo.places()
    }

    /// Returns how many ranges the walk has taken.
    pub fn given(&self) -> u32
        ensures count { result ≡ given_of self.now }
        ensures few { (HasEnded self.now → ⊥) → result ≤ 64 }
    {
        self.given
    }

    /// Takes the bytes of the range that is needed next, as many as it has. Fails with the first fault that they show,
    /// in the order of the checks, or with `Memory`. The numbers of these faults are 1 to 12, but not that of
    /// `PastEnd`. A failure changes nothing.
    pub fn give(&mut self, bytes: &[u8]) -> Result<(), WalkError>
        requires { IsWanted self.old (length bytes.now) }
        ensures agrees { OnOk result ((f : List ℕ) → WalkAgrees self.old f → IsWantedOf f self.old bytes.now → WalkAgrees self.new f) }
        ensures come { OnOk result ((f : List ℕ) → WalkAgrees self.old f
            → IsSomeAnd (wanted self.old) (λ r. to_come self.old f ≡ r ∷ to_come self.new f)) }
        ensures fault { IfFile result (λ fault. (f : List ℕ) → WalkAgrees self.old f → IsWantedOf f self.old bytes.now
            → IsFaultOfDirectories f fault) }
        ensures given { OnOk result (given_of self.new ≡ given_of self.old + 1) }
        ensures few { OnOk result (given_of self.old ≤ 64) }
        ensures err { OnErr result (self.new ≡ self.old) }
    {
        let previous = self.levels.last().copied();
        let step = step(self.stage, bytes, self.given, previous)?;
        let geo = geo_after(self.stage, bytes, self.geo);
        keep(&mut self.levels, step.level)?;
        self.stage = step.stage;
        self.geo = geo;
        self.given += 1;
        Ok(())
    }
}
