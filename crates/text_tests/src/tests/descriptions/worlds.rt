//! World files, beside those that `gdal_translate -srcwin X Y W H -co TFW=YES` of GDAL 3.6.2 writes of the same images.
use super::rectangles::{DEGREES, Image, METRES, POINTS, info_of};
use assertion_support::expect_eq;
use cog_client::Query;
use std::alloc::Global;
use std::test::Fail;
use text_description::{WorldFile, world_file};
use tiff_dir::Pick;

/// Returns the world file of a window of one pixel.
fn world_of(
    alloc: Global,
    image: &Image,
    level: u32,
    x: u32,
    y: u32,
) -> Result<Option<WorldFile>, Fail> {
    let query = Query::Window {
        x,
        y,
        w: 1,
        h: 1,
        pick: Pick::Level(level),
    };
    Ok(world_file(&info_of(alloc, image)?, &query))
}

/// Returns the numbers of a world file, in the order of its lines.
fn numbers_of(world: WorldFile) -> [f64; 6] {
    [
        world.across.0,
        world.across.1,
        world.down.0,
        world.down.1,
        world.first.0,
        world.first.1,
    ]
}

/// Returns whether the numbers are close. GDAL writes ten digits after the point, and doubles have nine there where places have millions of
/// metres.
fn is_close(found: [f64; 6], want: [f64; 6]) -> bool {
    (0..6).all(|k| (found[k] - want[k]).abs() < 0.000000001)
}

#[test]
fn places_a_window_as_gdal_does(rt: HostRuntime) -> Result<(), Fail> {
    #[rattlefmt::skip]
    let rows: [(&Image, u32, u32, u32, [f64; 6]); 4] = [
        (&METRES, 0, 3, 4, [60.0, 0.0, 0.0, -60.0, 440930.0, 3751050.0]),
        (&METRES, 1, 0, 1, [118.8235294118, 0.0, 0.0, -118.2352941176, 440779.4117647059, 3751142.6470588236]),
        (&DEGREES, 0, 10, 49, [0.01, 0.0, 0.0, -0.01, 106.105, 47.505]),
        (&POINTS, 0, 10, 49, [0.01, 0.0, 0.0, -0.01, 106.105, 47.505]),
    ];
    for (image, level, x, y, want) in rows {
        let Some(world) = world_of(rt.alloc(), image, level, x, y)? else {
            return Err(Fail::new("no world file"));
        };
        assert!(rt; is_close(numbers_of(world), want), "{level} {x} {y}");
    }
    Ok(())
}

/// The six lines of a window of the image of 60 m.
const LINES: &str = "\
60.0
0.0
0.0
-60.0
440930.0
3751050.0
";

#[test]
fn writes_six_lines(rt: HostRuntime) -> Result<(), Fail> {
    let Some(world) = world_of(rt.alloc(), &METRES, 0, 3, 4)? else {
        return Err(Fail::new("no world file"));
    };
    let lines = format!(in rt.alloc(); "{world}")?;
    assert_eq!(rt; lines.as_str(), LINES);
    Ok(())
}

/// Expects no world file without a place, and none for a window whose level is picked by columns.
#[test]
fn guesses_no_world_file(rt: HostRuntime) -> Result<(), Fail> {
    let nowhere = Image {
        tiepoints: &[],
        ..DEGREES
    };
    expect_eq!(rt; world_of(rt.alloc(), &nowhere, 0, 0, 0)?, None);
    let (x, y, w, h, pick) = (0, 0, 8, 8, Pick::Columns(4));
    let by_columns = Query::Window { x, y, w, h, pick };
    let info = info_of(rt.alloc(), &DEGREES)?;
    expect_eq!(rt; world_file(&info, &by_columns), None);
    expect_eq!(rt; world_file(&info, &Query::Info), None);
    Ok(())
}
