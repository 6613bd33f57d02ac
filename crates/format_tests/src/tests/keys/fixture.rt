//! The keys of a file of two levels.
use super::{Value, is_wanted};
use assertion_support::expect_eq;
use fixtures_support::f3;
use geokeys::Geo;
use reference_support::{Course, walk_over};
use std::test::Fail;
use tiff_dir::{GeoPlaces, Order, Place};

/// Returns the bytes of a field.
fn field(file: &[u8], place: Option<Place>) -> Option<&[u8]> {
    let place = place?;
    let first = usize::try_from(place.first).ok()?;
    let len = usize::try_from(place.len).ok()?;
    file.get(first..first.checked_add(len)?)
}

/// Returns the byte order of a file without faults, and where its geo fields stand.
fn places_of(rt: &impl AllocGlobal, file: &[u8]) -> Result<(Order, GeoPlaces), Fail> {
    let Course { end, ranges: _ } = walk_over(rt.alloc(), file).ok().ok_or("no memory")?;
    match end {
        Ok(walk) => Ok((walk.order(), walk.geo_places().ok().ok_or("no places")?)),
        Err(_) => Err(Fail::new("a fault")),
    }
}

const KEYS: [(u16, Value<'static>); 3] = [
    (1024, Value::Short(2)),
    (1026, Value::Ascii(b"WGS 84|")),
    (2057, Value::Doubles(&[[1, 2, 3, 4, 5, 6, 7, 8]])),
];

#[test]
fn reads_the_keys_of_f3(rt: HostRuntime) -> Result<(), Fail> {
    let file = f3(rt.alloc())?;
    let (order, places) = places_of(&rt, &file)?;
    let directory = field(&file, places.directory).ok_or("no directory")?;
    let doubles = field(&file, places.doubles).ok_or("no doubles")?;
    let ascii = field(&file, places.ascii).ok_or("no text")?;
    expect_eq!(rt; (directory.len(), doubles.len(), ascii.len()), (32, 8, 8));
    assert!(rt; directory.len() == 32 && doubles.len() == 8);
    let found = Geo::read(rt.alloc(), order, directory, doubles, ascii);
    assert!(rt; is_wanted(&found, Ok((0, &KEYS))), "{found:?}");
    Ok(())
}
