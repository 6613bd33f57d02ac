//! `cogread window --bounds` and `--world` over a server in memory.
use super::describes::points;
use super::reads::told_of;
use fixtures_support::f1;
use programs_support::{Capture, Told};
use read_command::{Area, Asked, Part};
use std::alloc::Global;
use std::test::Fail;
use text_description::Bounds;
use transports::server_of_one;

/// Returns the file whose pixels are points, with the sample 16y + x at x, y. Its first pixel begins at 440690 m to the east and 3751350 m
/// to the north, and pixels have 60 m.
fn rising(alloc: Global) -> Result<Vec<u8>, Fail> {
    let mut file = points(alloc)?;
    file.truncate(264);
    for sample in 0..=u8::MAX {
        file.push(sample)?;
    }
    Ok(file)
}

/// A rectangle from within column 2 and row 1 to within column 4 and row 2.
const INNER: Bounds = Bounds {
    west: 440811.0,
    south: 3751171.0,
    east: 440989.0,
    north: 3751289.0,
};

/// A rectangle beyond the east side, which lies at 441650 m.
const BEYOND: Bounds = Bounds {
    west: 441650.0,
    east: 441700.0,
    ..INNER
};

/// Asks for a rectangle of level `level`, with its world file or without.
fn rectangle(bounds: Bounds, level: u32, has_world: bool) -> Asked {
    let area = Area::Bounds(bounds);
    Asked::Part(Part {
        area,
        level,
        has_world,
    })
}

/// Three columns from column 2 on, and two rows from row 1 on, with their world file.
const PLACED: Asked = Asked::Part(Part {
    area: Area::Pixels {
        x: 2,
        y: 1,
        w: 3,
        h: 2,
    },
    level: 0,
    has_world: true,
});

const PICTURE: &str = "P5\n3 2\n255\n\x12\x13\x14\x22\x23\x24";

/// The picture, and after it the six lines of its world file.
const PLACED_PICTURE: &str =
    "P5\n3 2\n255\n\x12\x13\x14\x22\x23\x2460.0\n0.0\n0.0\n-60.0\n440840.0\n3751260.0\n";

/// Returns what is printed for what is asked of a file.
fn told_of_file(rt: &HostRuntime, file: Vec<u8>, asked: Asked) -> Result<Told, Fail> {
    let server = server_of_one(rt.alloc(), 1, b"a", file)?;
    Ok(told_of(Capture::new(rt), &server, asked))
}

#[test]
fn reads_what_a_rectangle_meets(rt: HostRuntime) -> Result<(), Fail> {
    let outside =
        "cogread: no window: the rectangle meets no pixel. Give W S E N in the file's own coordinates: describe prints those of its corners\n";
    for (asked, out, err, status) in [
        (rectangle(INNER, 0, false), PICTURE, "", 0),
        (rectangle(INNER, 0, true), PLACED_PICTURE, "", 0),
        (PLACED, PLACED_PICTURE, "", 0),
        (rectangle(BEYOND, 0, false), "", outside, 2),
        (rectangle(INNER, 1, true), "", "cogread: fault 14\n", 3),
    ] {
        let told = told_of_file(&rt, rising(rt.alloc())?, asked)?;
        assert!(rt; told.is(out, err, status), "{told:?}");
    }
    Ok(())
}

/// Expects the line that the file f1 doesn't say where its pixels lie.
#[test]
fn tells_that_a_file_has_no_place(rt: HostRuntime) -> Result<(), Fail> {
    let no_window =
        "cogread: no window: the file doesn't say where its pixels lie. Give X Y W H, in pixels\n";
    let no_world =
        "cogread: no world file: the file doesn't say where its pixels lie. Leave --world out\n";
    for (asked, err) in [
        (rectangle(INNER, 0, false), no_window),
        (rectangle(INNER, 0, true), no_window),
        (PLACED, no_world),
    ] {
        let told = told_of_file(&rt, f1(rt.alloc())?, asked)?;
        assert!(rt; told.is("", err, 2), "{told:?}");
    }
    Ok(())
}
