//! The description of a file.
ghost use Rattle.std.specs.Prelude.{◌≡◌, IfOk, IfSome, None, Ok, string_bytes};
ghost use Rattle.text_description.specs.Text.{IsJson, IsLine, NamesTag};
ghost use Rattle.std.specs.Cow.{cow_str_bytes};
ghost use Rattle.std.specs.Option.{option_map};
ghost use Rattle.text_description.specs.Description.{Describes, AreLevelsBy, IsFactsBy, HasMasks, HasNoData, HasNoInfo, is_point};
ghost use Rattle.std.specs.List.{AllZip};
ghost use Rattle.text_description.specs.Placement.{corners_by, geo_transform_of};

use crate::facts::{CoordinateSystem, LevelFacts, RasterType, readable};
use crate::no_data::{count_masks, no_data_text};
use crate::placement::{Corners, Placement};
use crate::words::words_of;
use cog_client::{Client, Memory, Outcome};
use known_fields::known_sum;
use serde::Serialize;
use std::alloc::{AllocError, Global};
use std::borrow::CowStr;
use tiff_dir::Level;

/// Chooses the form in which a description is printed.
#[derive(Clone, Copy, Debug, PartialEq, Eq)]
pub enum Form {
    /// Words for people, one fact a line.
    Words,
    /// JSON for programs.
    Json,
}

/// Holds what a file says of itself. In JSON a fact that gdalinfo prints, too, has gdalinfo's key.
#[derive(Debug, Drop, Serialize)]
#[serde(rename_all = "camelCase")]
pub struct Description<'a> {
    /// The ETag, with its quotes.
    pub tag: CowStr<'a>,
    /// The file's length in bytes.
    pub length: u64,
    /// The columns and rows of level 0.
    #[serde(skip_serializing_if = "Option::is_none")]
    pub size: Option<(u32, u32)>,
    /// The levels, the largest first.
    pub levels: Vec<LevelFacts>,
    /// The value of the pixels that mean no data, as the file has it, where it has the field GDAL_NODATA.
    #[serde(skip_serializing_if = "Option::is_none", rename = "noDataValue")]
    pub no_data: Option<String>,
    /// How many transparency masks the file has, where its directories are known. They aren't read.
    #[serde(skip_serializing_if = "Option::is_none")]
    pub masks: Option<u16>,
    #[serde(skip_serializing_if = "Option::is_none")]
    pub coordinate_system: Option<CoordinateSystem<'a>>,
    #[serde(skip_serializing_if = "Option::is_none")]
    pub raster_type: Option<RasterType>,
    #[serde(skip)]
    pub placement: Option<Placement>,
    #[serde(skip_serializing_if = "Option::is_none")]
    pub geo_transform: Option<[f64; 6]>,
    #[serde(skip_serializing_if = "Option::is_none")]
    pub corner_coordinates: Option<Corners>,
}

impl<'a> Description<'a> {
    /// Makes the description of the file that a client reads, from its report of Info and the levels that it knows. Returns `None` where no
    /// report of Info stands. Fails where no memory is left.
    pub fn of(alloc: Global, client: &'a Client) -> Result<Option<Description<'a>>, Memory>
        ensures described { IfOk result (λ made. IfSome made (Describes client.now)) }
        ensures levels { IfOk result (λ made. IfSome made (λ d. AreLevelsBy client.now d.levels.items)) }
        ensures no_data { IfOk result (λ made. IfSome made (λ d. IfSome d.no_data (λ text. HasNoData client.now (string_bytes text)))) }
        ensures masks { IfOk result (λ made. IfSome made (λ d. IfSome d.masks (HasMasks client.now))) }
        ensures none { result ≡ Ok None → HasNoInfo client.now }
    {
        let (Some(report), Some(length)) = (client.report(), client.complete()) else {
            return Ok(None);
        };
        let Outcome::Info(info) = &report.outcome else {
            return Ok(None);
        };
        let raster_type = RasterType::of(info);
        let placement = Placement::of(info, is_point(raster_type));
        let size = info.sides.first().copied();
        Ok(Some(Description {
            tag: readable(alloc, report.tag.as_bytes())?,
            length,
            size,
            levels: levels_of(alloc, client)?,
            no_data: no_data_of(alloc, client)?,
            masks: count_masks(client),
            coordinate_system: CoordinateSystem::of(alloc, info)?,
            raster_type,
            placement,
            geo_transform: geo_transform_of(placement),
            corner_coordinates: corners_by(placement, size),
        }))
    }

    /// Returns the description as text: one fact a line, or JSON with line breaks and indents. In words the first line has the ETag. The
    /// text ends with a line feed. Fails where no memory is left.
    pub fn text(&self, alloc: Global, form: Form) -> Result<String, Memory>
        ensures json { form ≡ Form.Json → IfOk result (λ text. IsLine IsJson (string_bytes text)) }
        ensures words { form ≡ Form.Words → IfOk result (λ text. NamesTag (cow_str_bytes self.now.tag) (string_bytes text)) }
    {
        match form {
            Form::Words => words_of(alloc, self),
            Form::Json => {
                let mut text = json_text(alloc, self)?;
                text.push('\n')?;
                Ok(text)
            }
        }
    }
}

/// Returns the text of the field GDAL_NODATA, with U+FFFD for what isn't UTF-8. Fails where no memory is left.
fn no_data_of(alloc: Global, client: &Client) -> Result<Option<String>, AllocError>
    ensures { IfOk result (λ o. IfSome o (λ text. HasNoData client.now (string_bytes text))) }
{
    match no_data_text(alloc, client)? {
        Some(bytes) => Ok(Some(String::from_utf8_lossy(alloc, &bytes)?)),
        None => Ok(None),
    }
}

/// Returns whether a pixel is a point.
pub(crate) fn is_point(raster_type: Option<RasterType>) -> bool
    ensures { result ≡ is_point raster_type }
{
    matches!(raster_type, Some(RasterType::Point))
}

/// Returns the numbers of a placement as GDAL's GetGeoTransform has them, or `None` without a placement.
fn geo_transform_of(placement: Option<Placement>) -> Option<[f64; 6]>
    ensures { result ≡ option_map geo_transform_of placement }
{
    let placement = placement?;
    Some(placement.numbers())
}

/// Returns the corners of an image of `size` columns and rows, where both the placement and the size are known.
fn corners_by(placement: Option<Placement>, size: Option<(u32, u32)>) -> Option<Corners>
    ensures { result ≡ corners_by placement size }
{
    let placement = placement?;
    Some(placement.corners(size?))
}

/// Returns the facts of a client's levels, or none until the client knows all directories.
fn levels_of(alloc: Global, client: &Client) -> Result<Vec<LevelFacts>, Memory>
    ensures { IfOk result (λ facts. AreLevelsBy client.now facts.items) }
{
    match client.levels() {
        Some(levels) => Ok(facts_of(alloc, client, levels)?),
        None => Ok(Vec::new(alloc)),
    }
}

/// Returns the facts of each level, in the order of the levels. The bytes of its tiles are counted where the client knows them.
#[tactic(auto, using(crate::proofs::LevelLemmas::next_one))]
fn facts_of(alloc: Global, client: &Client, levels: &[Level]) -> Result<Vec<LevelFacts>, Memory>
    ensures { IfOk result (λ facts. AllZip (IsFactsBy client.now) levels.now facts.items) }
{
    let mut facts = Vec::new(alloc);
    for level in levels {
        facts.push(LevelFacts::of(level, known_sum(client, level.counts)))?;
    }
    Ok(facts)
}

/// Returns a description in JSON, with line breaks and indents. A number that JSON doesn't have (NaN or an infinity) is `null`. Fails only
/// where no memory is left.
fn json_text(alloc: Global, description: &Description<'_>) -> Result<String, Memory>
    ensures { IfOk result (λ text. IsJson (string_bytes text)) }
{
    match serde_json::to_string_pretty(alloc, description) {
        Ok(text) => Ok(text),
        Err(_) => Err(Memory),
    }
}
