//! Where columns and rows lie, by each form of the fields, with the numbers that gdalinfo prints for such a file.
use assertion_support::expect_eq;
use cog_client::Info;
use geokeys::Geo;
use std::alloc::Global;
use std::num::f64_to_bits_with_nan;
use std::test::Fail;
use text_description::{Corners, Placement};

/// Returns the items of a field: doubles, each with the most significant byte first.
fn items(alloc: Global, numbers: &[f64]) -> Result<Option<Vec<[u8; 8]>>, Fail> {
    let mut items = Vec::new(alloc);
    for number in numbers {
        items.push(f64_to_bits_with_nan(*number).to_be_bytes())?;
    }
    Ok(if items.is_empty() { None } else { Some(items) })
}

/// Returns the contents of Info of an image with these fields. A field without numbers isn't there.
pub fn info(alloc: Global, scale: &[f64], tiepoints: &[f64], matrix: &[f64]) -> Result<Info, Fail> {
    Ok(Info {
        sides: vec![in alloc; (20, 20)]?,
        geo: Geo {
            minor: 0,
            keys: Vec::new(alloc),
        },
        scale: items(alloc, scale)?,
        tiepoints: items(alloc, tiepoints)?,
        transformation: items(alloc, matrix)?,
    })
}

/// The scale and the tiepoint of an image of 20 columns and 20 rows of 60 m.
const SCALE: [f64; 3] = [60.0, 60.0, 0.0];

const TIEPOINT: [f64; 6] = [0.0, 0.0, 0.0, 440720.0, 3751320.0, 0.0];

/// The same place, by a tiepoint in the image.
const INNER_TIEPOINT: [f64; 6] = [10.0, 5.0, 0.0, 441320.0, 3751020.0, 0.0];

/// An image that is turned by a quarter and a half.
const TURNED: [f64; 16] = [
    30.0, 40.0, 0.0, 1000.0, 40.0, -30.0, 0.0, 2000.0, 0.0, 0.0, 0.0, 0.0, 0.0, 0.0, 0.0, 1.0,
];

/// The fields of an image: its scale, its tiepoints and its transformation.
type Fields<'a> = [&'a [f64]; 3];

/// Returns where an image with these fields lies, if it does.
fn placement_of(
    alloc: Global,
    fields: Fields<'_>,
    is_point: bool,
) -> Result<Option<Placement>, Fail> {
    let [scale, tiepoints, matrix] = fields;
    let info = info(alloc, scale, tiepoints, matrix)?;
    Ok(Placement::of(&info, is_point))
}

/// Returns the numbers of gdalinfo's geoTransform, or `None`.
fn numbers_of(alloc: Global, fields: Fields<'_>, is_point: bool) -> Result<Option<[f64; 6]>, Fail> {
    let placement = placement_of(alloc, fields, is_point)?;
    Ok(placement.map(|placement| placement.numbers()))
}

#[test]
fn places_columns_and_rows_as_gdalinfo_does(rt: HostRuntime) -> Result<(), Fail> {
    let alloc = rt.alloc();
    let by_scale: [&[f64]; 3] = [&SCALE, &TIEPOINT, &[]];
    let want = [440720.0, 60.0, 0.0, 3751320.0, 0.0, -60.0];
    expect_eq!(rt; numbers_of(alloc, by_scale, false)?, Some(want));
    let inner: [&[f64]; 3] = [&SCALE, &INNER_TIEPOINT, &[]];
    expect_eq!(rt; numbers_of(alloc, inner, false)?, Some(want));
    let want = [440690.0, 60.0, 0.0, 3751350.0, 0.0, -60.0];
    expect_eq!(rt; numbers_of(alloc, by_scale, true)?, Some(want));
    Ok(())
}

#[test]
fn places_what_is_turned_as_gdalinfo_does(rt: HostRuntime) -> Result<(), Fail> {
    let alloc = rt.alloc();
    let turned: [&[f64]; 3] = [&[], &[], &TURNED];
    let want = [1000.0, 30.0, 40.0, 2000.0, 40.0, -30.0];
    expect_eq!(rt; numbers_of(alloc, turned, false)?, Some(want));
    let want = [965.0, 30.0, 40.0, 1995.0, 40.0, -30.0];
    expect_eq!(rt; numbers_of(alloc, turned, true)?, Some(want));
    Ok(())
}

#[test]
fn tells_corners_as_gdalinfo_does(rt: HostRuntime) -> Result<(), Fail> {
    let Some(placement) = placement_of(rt.alloc(), [&SCALE, &TIEPOINT, &[]], false)? else {
        return Err(Fail::new("no placement"));
    };
    let corners = placement.corners((20, 20));
    let want = Corners {
        upper_left: (440720.0, 3751320.0),
        lower_left: (440720.0, 3750120.0),
        lower_right: (441920.0, 3750120.0),
        upper_right: (441920.0, 3751320.0),
        center: (441320.0, 3750720.0),
    };
    expect_eq!(rt; corners, want);
    Ok(())
}

/// Expects no place for no fields, a scale alone, a tiepoint alone, two tiepoints, and half a transformation.
#[test]
fn guesses_no_place(rt: HostRuntime) -> Result<(), Fail> {
    let alloc = rt.alloc();
    let two = [TIEPOINT, INNER_TIEPOINT];
    let rows: [Fields<'_>; 5] = [
        [&[], &[], &[]],
        [&SCALE, &[], &[]],
        [&[], &TIEPOINT, &[]],
        [&SCALE, two.as_flattened(), &[]],
        [&[], &[], &TURNED[..7]],
    ];
    for fields in rows {
        expect_eq!(rt; placement_of(alloc, fields, false)?, None);
    }
    Ok(())
}
