//! The values and places of a level's fields, as the table of a directory has them.
ghost use Rattle.std.specs.Prelude.{◌≡◌, ◌+◌, ◌*◌, ◌<◌, ◌^◌, true, length, MatchResult};
ghost use Rattle.tiff_dir.specs.Profile.{planes_fit, samples_fit};
ghost use Rattle.tiff_dir.specs.Stage.{IsArrayPlace, IsBounded};
ghost use Rattle.tiff_dir.specs.Table.{counts_samples, draft_in, kind_in, entries_of, long_in, place_in, place_or, short_or, single_or, HasCounts, HasValues, IsCountFault, IsValueFault};

use crate::field_values::{BLACK_IS_ZERO, CHUNKY, PLANAR, RGB};
use crate::stage::Draft;
use crate::table::{DirectoryEntry, Table};
use crate::tags::{
    BITS_PER_SAMPLE, COMPRESSION, IMAGE_LENGTH, IMAGE_WIDTH, PHOTOMETRIC_INTERPRETATION,
    PLANAR_CONFIGURATION, SAMPLE_FORMAT, SAMPLES_PER_PIXEL, TILE_BYTE_COUNTS, TILE_LENGTH,
    TILE_OFFSETS, TILE_WIDTH,
};
use crate::{Compression, FileFault, Kind, Place};

/// Returns the type with this number, of those that the profile has.
fn kind_in(number: u16) -> Kind
    ensures { result ≡ kind_in number }
{
    match number {
        3 => Kind::Short,
        4 => Kind::Long,
        2 => Kind::Ascii,
        _ => Kind::Double,
    }
}

/// Returns the place of the values of an entry, which has a type of the profile.
pub(crate) fn place_of_entry(entry: DirectoryEntry) -> Place
    requires { entry.place + 8 < 2 ^ 33 }
    ensures place { result ≡ place_in entry }
    ensures array { IsArrayPlace result }
{
    let kind = kind_in(entry.kind);
    let len = u64::from(entry.count) * kind.size();
    let first = if len <= 4 {
        entry.place + 8
    } else {
        u64::from(entry.long)
    };
    Place {
        first,
        len,
        count: entry.count,
        kind,
    }
}

/// Returns whether the number of samples goes with the PhotometricInterpretation: one with BlackIsZero, three with RGB.
fn fits_samples(samples: u16, photometric: u16) -> bool
    ensures { result ≡ samples_fit samples photometric }
{
    samples == 1 && photometric == BLACK_IS_ZERO || samples == 3 && photometric == RGB
}

/// Returns whether the samples of one pixel stand together.
fn fits_planes(planar: u16, samples: u16) -> bool
    ensures { result ≡ planes_fit planar samples }
{
    planar == CHUNKY || planar == PLANAR && samples == 1
}

impl Table<'_> {
    /// Returns the only value of a field, or `default` where it is absent.
    pub fn single(&self, tag: u16, default: u32) -> u32
        ensures { result ≡ single_or (entries_of self.now) tag default }
    {
        match self.find(tag) {
            Some(entry) if entry.kind == 3 => u32::from(entry.short),
            Some(entry) => entry.long,
            None => default,
        }
    }

    /// Returns the first value of a field of SHORT, or `default` where it is absent.
    pub fn short(&self, tag: u16, default: u16) -> u16
        ensures { result ≡ short_or (entries_of self.now) tag default }
    {
        match self.find(tag) {
            Some(entry) => entry.short,
            None => default,
        }
    }

    /// Returns the number in the last four bytes of a field's entry, or `None` where it is absent.
    pub fn long(&self, tag: u16) -> Option<u32>
        ensures { result ≡ long_in (entries_of self.now) tag }
    {
        match self.find(tag) {
            Some(entry) => Some(entry.long),
            None => None,
        }
    }

    /// Returns the place of the field's values.
    fn place(&self, tag: u16) -> Place
        ensures place { result ≡ place_or (entries_of self.now) tag }
        ensures array { IsArrayPlace result }
    {
        match self.find(tag) {
            Some(entry) => place_of_entry(entry),
            None => Place {
                first: 0,
                len: 0,
                count: 0,
                kind: Kind::Long,
            },
        }
    }

    /// Returns what a table that keeps the profile says of its level, whose compression is known.
    #[tactic(auto, unfolding(crate::specs::Table::draft_in))]
    pub fn draft(&self, compression: Compression) -> Draft
        ensures draft { result ≡ draft_in (entries_of self.now) compression }
        ensures bounded { IsBounded result }
    {
        Draft {
            width: self.single(IMAGE_WIDTH, 0),
            length: self.single(IMAGE_LENGTH, 0),
            tile_width: self.single(TILE_WIDTH, 0),
            tile_length: self.single(TILE_LENGTH, 0),
            samples: self.short(SAMPLES_PER_PIXEL, 1),
            compression,
            offsets: self.place(TILE_OFFSETS),
            counts: self.place(TILE_BYTE_COUNTS),
        }
    }

    /// Checks the values that always stand in their entries, and returns the compression that they name. Fails with
    /// `Unsupported` where one is outside the profile.
    pub fn check_values(&self) -> Result<Compression, FileFault>
        ensures { MatchResult result (HasValues (entries_of self.now)) (IsValueFault (entries_of self.now)) }
    {
        let photometric = self.short(PHOTOMETRIC_INTERPRETATION, 0);
        if photometric != BLACK_IS_ZERO && photometric != RGB {
            return Err(FileFault::Unsupported(PHOTOMETRIC_INTERPRETATION));
        }
        let samples = self.short(SAMPLES_PER_PIXEL, 1);
        if !fits_samples(samples, photometric) {
            return Err(FileFault::Unsupported(SAMPLES_PER_PIXEL));
        }
        let planar = self.short(PLANAR_CONFIGURATION, CHUNKY);
        if !fits_planes(planar, samples) {
            return Err(FileFault::Unsupported(PLANAR_CONFIGURATION));
        }
        let Some(compression) = Compression::of_number(self.short(COMPRESSION, 0)) else {
            return Err(FileFault::Unsupported(COMPRESSION));
        };
        Ok(compression)
    }

    /// Returns whether the field is absent or has a value for each sample.
    fn has_samples(&self, tag: u16) -> bool
        ensures { result ≡ counts_samples (entries_of self.now) tag }
    {
        let samples = self.short(SAMPLES_PER_PIXEL, 1);
        match self.find(tag) {
            Some(entry) => entry.count == u32::from(samples),
            None => true,
        }
    }

    /// Checks that BitsPerSample and SampleFormat have a value for each sample. Fails with `FieldType`.
    pub fn check_counts(&self) -> Result<(), FileFault>
        ensures { MatchResult result (λ _. HasCounts (entries_of self.now)) (IsCountFault (entries_of self.now)) }
    {
        if !self.has_samples(BITS_PER_SAMPLE) {
            return Err(FileFault::FieldType(BITS_PER_SAMPLE));
        }
        if !self.has_samples(SAMPLE_FORMAT) {
            return Err(FileFault::FieldType(SAMPLE_FORMAT));
        }
        Ok(())
    }
}
