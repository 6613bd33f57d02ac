//! What georeferences an image, read from the bytes of its geo fields.
ghost use Rattle.std.specs.Prelude.{◌≡◌, ◌%◌, ℕ, List, IfErr, IfOk, length, map};
ghost use Rattle.std.specs.Option.{option_map};
ghost use Rattle.tiff_dir.specs.Walk.{WalkAgrees, HasEnded};
ghost use Rattle.geokeys.specs.Doubles.{doubles_in};
ghost use Rattle.cog_reader.specs.GeoFields.{present_in, IsReadOf};
ghost use Rattle.cog_reader.specs.Outcome.{level_sides, IsInfoOf};
ghost use Rattle.cog_reader.specs.ReaderStep.{IsInfoError};

use crate::Info;
use crate::fields::GeoFields;
use extents::Memory;
use geokeys::{Geo, GeoError, doubles};
use std::alloc::Global;
use tiff_dir::{Level, Order, Place, Walk, law_what_comes};

/// Returns the sides of the levels: their widths and lengths in pixels.
fn sides(alloc: Global, levels: &[Level]) -> Result<Vec<(u32, u32)>, Memory>
    ensures { IfOk result (λ v. v.items ≡ map level_sides levels.now) }
{
    Ok(
        levels
            .iter()
            .map(|level| (level.width, level.length))
            .collect(alloc)?,
    )
}

/// Returns the items of a field, or `None` where it is absent.
fn items(
    alloc: Global,
    order: Order,
    place: Option<Place>,
    bytes: &[u8],
) -> Result<Option<Vec<[u8; 8]>>, Memory>
    requires { length bytes.now % 8 ≡ 0 }
    ensures { IfOk result (λ o. option_map (λ v. v.items) o ≡ option_map (λ _. doubles_in order bytes.now) place) }
{
    match place {
        Some(_) => Ok(Some(doubles(alloc, order, bytes)?)),
        None => Ok(None),
    }
}

/// Returns what Info says of the file, whose geo fields were all read. Fails with the fault of its keys, or with
/// `Memory`.
pub fn info(alloc: Global, walk: &Walk, fields: &GeoFields) -> Result<Info, GeoError>
    requires ended { HasEnded walk.now }
    requires read { fields.now.given ≡ length (present_in fields.now.places) }
    ensures info { IfOk result (λ i. (f : List ℕ) → WalkAgrees walk.now f → IsReadOf f fields.now → IsInfoOf f i) }
    ensures refused { IfErr result (λ e. (f : List ℕ) → WalkAgrees walk.now f → IsReadOf f fields.now → IsInfoError f e) }
{
    law_what_comes();
    let order = walk.order();
    let parts = fields.parts();
    let geo = Geo::read(alloc, order, parts.directory, parts.doubles, parts.ascii)?;
    let places = fields.places();
    Ok(Info {
        sides: sides(alloc, walk.levels())?,
        geo,
        scale: items(alloc, order, places.scale, parts.scale)?,
        tiepoints: items(alloc, order, places.tiepoints, parts.tiepoints)?,
        transformation: items(alloc, order, places.transformation, parts.transformation)?,
    })
}
