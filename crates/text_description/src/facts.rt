//! What the levels and the keys of a file mean (TIFF 6.0; GeoTIFF 1.1, OGC 19-008, annex A).
ghost use Rattle.std.specs.Prelude.{◌≡◌, ◌≤◌, ◌==◌, IfOk, IsTrue, find, length, option_copied};
ghost use Rattle.std.specs.List.{before_first, position};
ghost use Rattle.std.specs.Cow.{cow_str_bytes};
ghost use Rattle.std.specs.Str.Lossy.{utf8_lossy};
ghost use Rattle.text_description.specs.Facts.{citation, compression_name, geodetic_citation, has_label, is_end, named_in, number_of, numbered, photometric_name, raster_type_by, raster_type_of, system_number, text_of, type_name, value_of, IsFactsOf, IsSystemBy};

use cog_client::Info;
use geokeys::{Key, KeyValue};
use serde::Serialize;
use std::alloc::{AllocError, Global};
use std::borrow::CowStr;
use tiff_dir::{Codec, Compression, Level};

/// Holds what a level says of its pixels.
#[derive(Clone, Copy, Debug, PartialEq, Eq, Serialize)]
pub struct LevelFacts {
    /// The number of columns and of rows.
    pub size: (u32, u32),
    /// The number of columns and of rows of a tile.
    pub block: (u32, u32),
    /// The number of tiles.
    pub tiles: u32,
    /// The number of bytes that the tiles have in the file, where TileByteCounts is known.
    #[serde(skip_serializing_if = "Option::is_none")]
    pub bytes: Option<u64>,
    /// The number of samples of a pixel.
    pub samples: u16,
    /// The number of bits of a sample.
    pub bits: u16,
    /// GDAL's name for the type of a sample: `Byte` or `UInt16`.
    #[serde(rename = "type")]
    pub kind: &'static str,
    /// The name of PhotometricInterpretation's value (TIFF 6.0, section 8).
    pub photometric: &'static str,
    pub compression: &'static str,
}

/// Says what a pixel is (GTRasterTypeGeoKey).
#[derive(Clone, Copy, Debug, PartialEq, Eq, Serialize)]
pub enum RasterType {
    /// An area (1).
    Area,
    /// A point (2).
    Point,
}

/// Holds the number and the name of the coordinate system, as far as the keys have them.
#[derive(Debug, Drop, Serialize)]
pub struct CoordinateSystem<'a> {
    /// The number in ProjectedCRSGeoKey or GeodeticCRSGeoKey. Most of these are EPSG's.
    #[serde(skip_serializing_if = "Option::is_none")]
    pub number: Option<u16>,
    /// The name in a citation.
    #[serde(skip_serializing_if = "Option::is_none")]
    pub name: Option<CowStr<'a>>,
}

/// GTRasterTypeGeoKey (OGC 19-008, section 7.5.2).
const RASTER_TYPE: u16 = 1025;

/// ProjectedCRSGeoKey.
const PROJECTED: u16 = 3072;

/// GeodeticCRSGeoKey.
const GEODETIC: u16 = 2048;

/// The value of a CRS key that leaves the system undefined.
const UNDEFINED: u16 = 0;

/// The value of a CRS key whose system other keys define.
const USER_DEFINED: u16 = 32767;

/// ProjectedCitationGeoKey.
const PROJECTED_CITATION: u16 = 3073;

/// GeodeticCitationGeoKey.
const GEODETIC_CITATION: u16 = 2049;

/// GTCitationGeoKey.
const CITATION: u16 = 1026;

/// The label before the name of a projected system in a citation, as ERDAS writes it.
const PROJECTED_LABEL: &[u8] = b"PCS Name = ";

/// The label before the name of a geodetic system in a citation, as GDAL writes it.
const GEODETIC_LABEL: &[u8] = b"GCS Name = ";

impl LevelFacts {
    /// Returns the facts of a level: its sides, its tiles and its samples. `bytes` is the number of bytes that its tiles have, if it is
    /// known.
    pub fn of(level: &Level, bytes: Option<u64>) -> LevelFacts
        ensures facts { IsFactsOf level.now result }
        ensures bytes { result.bytes ≡ bytes }
    {
        LevelFacts {
            size: (level.width, level.length),
            block: (level.tile_width, level.tile_length),
            tiles: level.offsets.count,
            bytes,
            samples: level.samples,
            bits: level.bits,
            kind: type_name(level.bits),
            photometric: photometric_name(level.samples),
            compression: compression_name(level.compression),
        }
    }
}

/// Returns GDAL's name for the type of a sample of `bits` bits, 8 or 16.
fn type_name(bits: u16) -> &'static str
    ensures { result.now ≡ type_name bits }
{
    if bits == 8 { "Byte" } else { "UInt16" }
}

/// Returns the name of PhotometricInterpretation's value (TIFF 6.0, section 8): BlackIsZero for one sample a pixel, RGB for three.
fn photometric_name(samples: u16) -> &'static str
    ensures { result.now ≡ photometric_name samples }
{
    if samples == 1 { "BlackIsZero" } else { "RGB" }
}

fn compression_name(compression: Compression) -> &'static str
    ensures { result.now ≡ compression_name compression }
{
    match compression {
        Compression::Plain => "none",
        Compression::Packed(Codec::PackBits) => "PackBits",
    }
}

/// Returns the first key with the number `id`.
fn key_of(keys: &[Key], id: u16) -> Option<&Key>
    ensures { option_copied result ≡ find (λ key. key.id == id) keys.now }
{
    keys.iter().find(|key| key.id == id)
}

/// Returns the value of the first key with the number `id`.
fn value_of(keys: &[Key], id: u16) -> Option<&KeyValue>
    ensures { option_copied result ≡ value_of id keys.now }
{
    match key_of(keys, id) {
        Some(key) => Some(&key.value),
        None => None,
    }
}

/// Returns the number in the first key `id`, or `None` where its value is none.
fn number_of(keys: &[Key], id: u16) -> Option<u16>
    ensures { result ≡ number_of id keys.now }
{
    match value_of(keys, id) {
        Some(KeyValue::Short(number)) => Some(*number),
        _ => None,
    }
}

/// Returns the index of the bar or NUL that ends a text, or `None` where the text has neither.
fn place_of_end(bytes: &[u8]) -> Option<usize>
    ensures { result ≡ position is_end bytes.now }
{
    bytes.iter().position(|byte| *byte == b'|' || *byte == 0)
}

/// Returns a text up to its first bar or NUL. Some writers give a key the texts of other keys, too, which follow it.
fn before_end(bytes: &[u8]) -> &[u8]
    ensures { result.now ≡ before_first is_end bytes.now }
{
    match place_of_end(bytes) {
        Some(count) => &bytes[..count],
        None => bytes,
    }
}

/// Returns whether a text begins with the label of a name.
fn has_label(text: &[u8]) -> bool
    ensures label { result ≡ has_label text.now }
    ensures long { IsTrue result → 11 ≤ length text.now }
{
    text.starts_with(PROJECTED_LABEL) || text.starts_with(GEODETIC_LABEL)
}

/// Returns the name in a text: what follows the label, or all of it where it has no label.
fn named_in(text: &[u8]) -> &[u8]
    ensures { result.now ≡ named_in text.now }
{
    if has_label(text) {
        &text[GEODETIC_LABEL.len()..]
    } else {
        text
    }
}

/// Returns the name in the text of the first key `id`, or `None` where its value is no text.
fn text_of(keys: &[Key], id: u16) -> Option<&[u8]>
    ensures { option_copied result ≡ text_of id keys.now }
{
    match value_of(keys, id) {
        Some(KeyValue::Ascii(bytes)) => Some(named_in(before_end(bytes))),
        _ => None,
    }
}

/// Returns the number in a CRS key, or `None` where the key leaves the system undefined or to other keys.
fn numbered(number: u16) -> Option<u16>
    ensures { result ≡ numbered number }
{
    match number {
        UNDEFINED | USER_DEFINED => None,
        _ => Some(number),
    }
}

/// Returns the number of the coordinate system: by ProjectedCRSGeoKey, or by GeodeticCRSGeoKey where that key is missing.
fn system_number(keys: &[Key]) -> Option<u16>
    ensures { result ≡ system_number keys.now }
{
    match value_of(keys, PROJECTED).or(value_of(keys, GEODETIC)) {
        Some(KeyValue::Short(number)) => numbered(*number),
        _ => None,
    }
}

/// Returns the citation of a geodetic system. With ProjectedCRSGeoKey it is `None`: the text then names the base of the projected system.
fn geodetic_citation(keys: &[Key]) -> Option<&[u8]>
    ensures { option_copied result ≡ geodetic_citation keys.now }
{
    match value_of(keys, PROJECTED) {
        Some(_) => None,
        None => text_of(keys, GEODETIC_CITATION),
    }
}

/// Returns the first citation that names the system and not its base: the projected, the geodetic, or the general one.
fn citation(keys: &[Key]) -> Option<&[u8]>
    ensures { option_copied result ≡ citation keys.now }
{
    let general = text_of(keys, CITATION);
    text_of(keys, PROJECTED_CITATION).or(geodetic_citation(keys).or(general))
}

impl RasterType {
    /// Returns what the file says that a pixel is, or `None` where it doesn't say one of the two.
    pub fn of(info: &Info) -> Option<RasterType>
        ensures { result ≡ raster_type_by info.now.geo.keys.items }
    {
        match number_of(&info.geo.keys, RASTER_TYPE) {
            Some(number) => RasterType::numbered(number),
            None => None,
        }
    }

    /// Returns the raster type of a value of GTRasterTypeGeoKey (OGC 19-008, section 7.5.2): 1 is an area, 2 a point.
    fn numbered(number: u16) -> Option<RasterType>
        ensures { result ≡ raster_type_of number }
    {
        match number {
            1 => Some(RasterType::Area),
            2 => Some(RasterType::Point),
            _ => None,
        }
    }
}

impl<'a> CoordinateSystem<'a> {
    /// Returns the number and the name of the coordinate system, or `None` where no key has either. Fails where no memory is left.
    pub fn of(alloc: Global, info: &'a Info) -> Result<Option<CoordinateSystem<'a>>, AllocError>
        ensures { IfOk result (IsSystemBy info.now.geo.keys.items) }
    {
        let keys = info.geo.keys.as_slice();
        let number = system_number(keys);
        let name = match citation(keys) {
            Some(bytes) => Some(readable(alloc, bytes)?),
            None => None,
        };
        if number.is_none() && name.is_none() {
            return Ok(None);
        }
        Ok(Some(CoordinateSystem { number, name }))
    }
}

/// Returns bytes as text, with U+FFFD for what isn't UTF-8. Fails where no memory is left.
#[tactic(auto, using(crate::proofs::TextLemmas::stays))]
pub fn readable(alloc: Global, bytes: &[u8]) -> Result<CowStr<'_>, AllocError>
    ensures { IfOk result (λ text. cow_str_bytes text ≡ utf8_lossy bytes.now) }
{
    match str::from_utf8(bytes) {
        Ok(text) => Ok(CowStr::Borrowed(text)),
        Err(_) => Ok(CowStr::Owned(String::from_utf8_lossy(alloc, bytes)?)),
    }
}
