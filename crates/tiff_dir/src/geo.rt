//! The fields that georeference the image (OGC 19-008), of the first directory.
ghost use Rattle.std.specs.Prelude.{◌≡◌, ◌+◌, ◌<◌, ◌^◌, IfOk, IfSome, MatchResult};
ghost use Rattle.std.specs.Option.{ForSome};
ghost use Rattle.tiff_dir.specs.GeoEntries.{geo_in, place_by, AreNear, ArePlacesBy, IsFaultBy};
ghost use Rattle.tiff_dir.specs.Table.{entries_of};
ghost use Rattle.tiff_dir.specs.Walk.{AreTyped};

use crate::limits::MAX_GEO_BYTES;
use crate::profile::is_allowed;
use crate::rule::{Rule, Typing, ValueCount};
use crate::table::{DirectoryEntry, Table};
use crate::tags::{
    GEO_ASCII_PARAMS, GEO_DOUBLE_PARAMS, GEO_KEY_DIRECTORY, MODEL_PIXEL_SCALE, MODEL_TIEPOINT,
    MODEL_TRANSFORMATION,
};
use crate::values::place_of_entry;
use crate::{FileFault, Place};

const DIRECTORY: Rule = Rule {
    tag: GEO_KEY_DIRECTORY,
    typing: Typing::Short,
    count: ValueCount::Multiple(1),
    required: false,
};

const DOUBLES: Rule = Rule {
    tag: GEO_DOUBLE_PARAMS,
    typing: Typing::Double,
    count: ValueCount::Multiple(1),
    required: false,
};

const ASCII: Rule = Rule {
    tag: GEO_ASCII_PARAMS,
    typing: Typing::Ascii,
    count: ValueCount::Multiple(1),
    required: false,
};

const SCALE: Rule = Rule {
    tag: MODEL_PIXEL_SCALE,
    typing: Typing::Double,
    count: ValueCount::Exactly(3),
    required: false,
};

const TIEPOINTS: Rule = Rule {
    tag: MODEL_TIEPOINT,
    typing: Typing::Double,
    count: ValueCount::Multiple(6),
    required: false,
};

const TRANSFORMATION: Rule = Rule {
    tag: MODEL_TRANSFORMATION,
    typing: Typing::Double,
    count: ValueCount::Exactly(16),
    required: false,
};

/// The places of the values of the geo fields. A field that the first directory hasn't is `None`.
#[derive(Clone, Copy, Debug, PartialEq, Eq)]
pub struct GeoPlaces {
    /// GeoKeyDirectory (34735): SHORT.
    pub directory: Option<Place>,
    /// GeoDoubleParams (34736): DOUBLE.
    pub doubles: Option<Place>,
    /// GeoAsciiParams (34737): ASCII.
    pub ascii: Option<Place>,
    /// ModelPixelScale (33550): three DOUBLE.
    pub scale: Option<Place>,
    /// ModelTiepoint (33922): six DOUBLE for each point.
    pub tiepoints: Option<Place>,
    /// ModelTransformation (34264): sixteen DOUBLE.
    pub transformation: Option<Place>,
}

/// The entries of the geo fields. A field that the first directory hasn't is `None`.
#[derive(Clone, Copy)]
pub struct GeoEntries {
    pub directory: Option<DirectoryEntry>,
    pub doubles: Option<DirectoryEntry>,
    pub ascii: Option<DirectoryEntry>,
    pub scale: Option<DirectoryEntry>,
    pub tiepoints: Option<DirectoryEntry>,
    pub transformation: Option<DirectoryEntry>,
}

/// Returns the place of the values of the rule's field, if its entry is there. Fails with `FieldType` where the type or
/// the count is another, and with `TooLarge` where the values have more than 65,536 bytes.
fn place_by(rule: Rule, entry: Option<DirectoryEntry>) -> Result<Option<Place>, FileFault>
    requires { ForSome entry (λ e. e.place + 8 < 2 ^ 33) }
    ensures place { result ≡ place_by rule entry }
    ensures near { IfOk result (λ o. IfSome o (λ p. p.first < 2 ^ 33)) }
{
    let Some(entry) = entry else {
        return Ok(None);
    };
    if !is_allowed(rule, entry) {
        return Err(FileFault::FieldType(rule.tag));
    }
    let place = place_of_entry(entry);
    if place.len > MAX_GEO_BYTES {
        return Err(FileFault::TooLarge);
    }
    Ok(Some(place))
}

impl GeoEntries {
    /// Returns entries of which none is there.
    pub const fn none() -> GeoEntries
        ensures near { AreNear result }
    {
        GeoEntries {
            directory: None,
            doubles: None,
            ascii: None,
            scale: None,
            tiepoints: None,
            transformation: None,
        }
    }

    /// Returns the entries of the geo fields that a table has.
    pub fn of(table: &Table<'_>) -> GeoEntries
        ensures entries { result ≡ geo_in (entries_of table.now) }
        ensures near { AreNear result }
    {
        GeoEntries {
            directory: table.find(DIRECTORY.tag),
            doubles: table.find(DOUBLES.tag),
            ascii: table.find(ASCII.tag),
            scale: table.find(SCALE.tag),
            tiepoints: table.find(TIEPOINTS.tag),
            transformation: table.find(TRANSFORMATION.tag),
        }
    }

    /// Returns the places of the values of the geo fields. Fails with the fault of the first field that has one.
    pub fn places(self) -> Result<GeoPlaces, FileFault>
        requires { AreNear self }
        ensures places { MatchResult result (ArePlacesBy self) (IsFaultBy self) }
        ensures typed { IfOk result AreTyped }
    {
        let directory = place_by(DIRECTORY, self.directory)?;
        let doubles = place_by(DOUBLES, self.doubles)?;
        let ascii = place_by(ASCII, self.ascii)?;
        let scale = place_by(SCALE, self.scale)?;
        let tiepoints = place_by(TIEPOINTS, self.tiepoints)?;
        let transformation = place_by(TRANSFORMATION, self.transformation)?;
        Ok(GeoPlaces {
            directory,
            doubles,
            ascii,
            scale,
            tiepoints,
            transformation,
        })
    }
}
