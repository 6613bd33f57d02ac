//! The pixels of a level that a rectangle meets, beside what GDAL 3.6.2 and rasterio 1.3.5 find. Where a row names `gdal_translate`, its
//! sides are edges of pixels: `-projwin` takes the same pixels then. Where it names rasterio, `from_bounds` is rounded outwards, and cut to
//! the image.
use super::places;
use assertion_support::expect_eq;
use cog_client::{Info, Query};
use geokeys::{Key, KeyValue};
use std::alloc::Global;
use std::test::Fail;
use text_description::{Bounds, NoPixels, window_covering};
use tiff_dir::Pick;

/// A file by the sides of its levels, its scale, its tiepoints, its transformation, and GTRasterTypeGeoKey.
#[derive(Clone, Copy)]
pub struct Image {
    pub sides: &'static [(u32, u32)],
    pub scale: &'static [f64],
    pub tiepoints: &'static [f64],
    pub matrix: &'static [f64],
    pub raster_type: u16,
}

/// An image of 64 by 64 pixels of a hundredth of a degree, as `gdal_translate -a_ullr 106 48 106.64 47.36` writes them.
pub const DEGREES: Image = Image {
    sides: &[(64, 64), (32, 32), (16, 16)],
    scale: &[0.010000000000000009, 0.010000000000000009, 0.0],
    tiepoints: &[0.0, 0.0, 0.0, 106.0, 48.0, 0.0],
    matrix: &[],
    raster_type: 1,
};

/// The same image, with pixels that are points.
pub const POINTS: Image = Image {
    tiepoints: &[0.0, 0.0, 0.0, 106.005, 47.995, 0.0],
    raster_type: 2,
    ..DEGREES
};

/// An image of 101 by 67 pixels of 60 m, and levels whose sides aren't halves.
pub const METRES: Image = Image {
    sides: &[(101, 67), (51, 34), (26, 17)],
    scale: &[60.0, 60.0, 0.0],
    tiepoints: &[0.0, 0.0, 0.0, 440720.0, 3751320.0, 0.0],
    matrix: &[],
    raster_type: 1,
};

/// An image of 64 by 64 pixels of a hundredth of a degree, whose first row is the southernmost.
const SOUTH_FIRST: Image = Image {
    sides: &[(64, 64)],
    scale: &[],
    tiepoints: &[],
    matrix: &[
        0.01, 0.0, 0.0, 106.0, 0.0, 0.01, 0.0, 47.36, 0.0, 0.0, 0.0, 0.0, 0.0, 0.0, 0.0, 1.0,
    ],
    raster_type: 1,
};

/// Returns the contents of Info of an image.
pub fn info_of(alloc: Global, image: &Image) -> Result<Info, Fail> {
    let mut info = places::info(alloc, image.scale, image.tiepoints, image.matrix)?;
    info.sides = Vec::from_slice(alloc, image.sides)?;
    info.geo.keys.push(Key {
        id: 1025,
        value: KeyValue::Short(image.raster_type),
    })?;
    Ok(info)
}

/// A rectangle by its west, south, east and north side.
type Sides = [f64; 4];

/// Returns the query of a level for a rectangle, or why no pixels are read.
fn read(
    alloc: Global,
    image: &Image,
    level: u32,
    sides: Sides,
) -> Result<Result<Query, NoPixels>, Fail> {
    let [west, south, east, north] = sides;
    let bounds = Bounds {
        west,
        south,
        east,
        north,
    };
    Ok(window_covering(&info_of(alloc, image)?, &bounds, level))
}

/// The first column and row, and the numbers of columns and rows.
type Pixels = [u32; 4];

/// Returns whether a rectangle meets exactly these pixels of a level.
fn is_met(
    alloc: Global,
    image: &Image,
    level: u32,
    sides: Sides,
    pixels: Pixels,
) -> Result<bool, Fail> {
    let [x, y, w, h] = pixels;
    let pick = Pick::Level(level);
    let window = Query::Window { x, y, w, h, pick };
    Ok(read(alloc, image, level, sides)? == Ok(window))
}

const INNER: Sides = [106.105, 47.507, 106.31, 47.893];

const ODD: Sides = [440781.0, 3749321.0, 443721.0, 3751199.0];

/// Expects the rows of rasterio, in each level, and those of `gdal_translate -projwin`.
#[test]
fn meets_the_pixels_that_gdal_takes(rt: HostRuntime) -> Result<(), Fail> {
    #[rattlefmt::skip]
    let rows: [(&Image, u32, Sides, Pixels); 12] = [
        (&DEGREES, 0, INNER, [10, 10, 21, 40]),
        (&DEGREES, 1, INNER, [5, 5, 11, 20]),
        (&DEGREES, 2, INNER, [2, 2, 6, 11]),
        (&POINTS, 0, INNER, [10, 10, 21, 40]),
        (&SOUTH_FIRST, 0, INNER, [10, 14, 21, 40]),
        (&METRES, 0, ODD, [1, 2, 50, 32]),
        (&METRES, 1, ODD, [0, 1, 26, 16]),
        (&METRES, 2, ODD, [0, 0, 13, 9]),
        (&DEGREES, 0, [105.5, 47.9, 106.05, 49.0], [0, 0, 5, 10]),
        (&DEGREES, 0, [100.0, 40.0, 120.0, 50.0], [0, 0, 64, 64]),
        (&DEGREES, 0, [106.3, 47.7, 106.5, 47.9], [30, 10, 20, 20]),
        (&METRES, 0, [440780.0, 3750120.0, 441380.0, 3751200.0], [1, 2, 10, 18]),
    ];
    for (image, level, sides, pixels) in rows {
        assert!(rt;
            is_met(rt.alloc(), image, level, sides, pixels)?,
            "{pixels:?}"
        );
    }
    Ok(())
}

/// Expects a point in the pixel that `gdallocationinfo -geoloc` prints, and a point on an edge in the pixel after it.
#[test]
fn meets_the_pixel_of_a_point(rt: HostRuntime) -> Result<(), Fail> {
    #[rattlefmt::skip]
    let rows: [(&Image, u32, [f64; 2], [u32; 2]); 6] = [
        (&DEGREES, 0, [106.105, 47.507], [10, 49]),
        (&POINTS, 0, [106.105, 47.507], [10, 49]),
        (&SOUTH_FIRST, 0, [106.105, 47.507], [10, 14]),
        (&METRES, 0, [440780.0, 3751200.0], [1, 2]),
        (&METRES, 1, [443000.0, 3750000.0], [19, 11]),
        (&METRES, 0, [440720.0, 3751320.0], [0, 0]),
    ];
    for (image, level, [x, y], [column, row]) in rows {
        let sides = [x, y, x, y];
        let pixels = [column, row, 1, 1];
        assert!(rt;
            is_met(rt.alloc(), image, level, sides, pixels)?,
            "{pixels:?}"
        );
    }
    Ok(())
}

/// Expects that rectangles beyond each side of the image, and up to it, meet nothing.
#[test]
fn meets_nothing_outside(rt: HostRuntime) -> Result<(), Fail> {
    let rows: [Sides; 6] = [
        [106.64, 47.4, 107.0, 47.9],
        [105.0, 47.4, 106.0, 47.9],
        [106.1, 48.0, 106.2, 49.0],
        [106.1, 47.0, 106.2, 47.36],
        [106.64, 47.36, 106.64, 47.36],
        [0.0, 0.0, 1.0, 1.0],
    ];
    for sides in rows {
        let found = read(rt.alloc(), &DEGREES, 0, sides)?;
        expect_eq!(rt; found, Err(NoPixels::Outside));
    }
    Ok(())
}

/// Expects that rectangles meet nothing without a place, nor in an image that is turned by a quarter and a half. The same holds for pixels
/// without a width.
#[test]
fn meets_nothing_without_a_place(rt: HostRuntime) -> Result<(), Fail> {
    let nowhere = Image {
        tiepoints: &[],
        ..DEGREES
    };
    let turned = Image {
        matrix: &[30.0, 40.0, 0.0, 1000.0, 40.0, -30.0, 0.0, 2000.0],
        scale: &[],
        ..nowhere
    };
    let flat = Image {
        scale: &[0.0, 0.01, 0.0],
        ..DEGREES
    };
    for (image, why) in [
        (nowhere, NoPixels::NotPlaced),
        (turned, NoPixels::Turned),
        (flat, NoPixels::Turned),
    ] {
        expect_eq!(rt; read(rt.alloc(), &image, 0, INNER)?, Err(why));
    }
    Ok(())
}

/// Expects that of a missing level a window is asked for that isn't there, either.
#[test]
fn asks_for_a_level_that_is_not_there(rt: HostRuntime) -> Result<(), Fail> {
    assert!(rt; is_met(rt.alloc(), &DEGREES, 3, INNER, [0, 0, 1, 1])?);
    Ok(())
}
