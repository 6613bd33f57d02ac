//! The fields that georeference the image.
use super::{Entry, begun, end_of, fields, place, put_directory};
use assertion_support::expect_eq;
use fixtures_support::f3;
use std::test::Fail;
use tiff_dir::{FileFault, GeoPlaces, Kind, Order};

/// Returns the fault or the places of the geo fields, from a walk over the file.
fn places_of(rt: &impl AllocGlobal, file: &[u8]) -> Result<Result<GeoPlaces, FileFault>, Fail> {
    match end_of(rt, file)? {
        Ok(walk) => Ok(walk.geo_places()),
        Err(_) => Err(Fail::new("a fault")),
    }
}

/// Returns a file of one level with these fields after its own.
fn with_geo(rt: &impl AllocGlobal, geo: &[Entry]) -> Result<Vec<u8>, Fail> {
    let mut entries = fields(rt, &[])?;
    for entry in geo {
        entries.push(*entry)?;
    }
    let mut file = begun(rt, Order::Little, 8)?;
    put_directory(&mut file, Order::Little, entries.as_slice(), 0)?;
    Ok(file)
}

const NONE: GeoPlaces = GeoPlaces {
    directory: None,
    doubles: None,
    ascii: None,
    scale: None,
    tiepoints: None,
    transformation: None,
};

#[test]
fn finds_the_geo_fields(rt: HostRuntime) -> Result<(), Fail> {
    let file = f3(rt.alloc())?;
    let want = GeoPlaces {
        directory: Some(place(352, 32, 16, Kind::Short)),
        doubles: Some(place(384, 8, 1, Kind::Double)),
        ascii: Some(place(392, 8, 8, Kind::Ascii)),
        scale: Some(place(328, 24, 3, Kind::Double)),
        tiepoints: None,
        transformation: None,
    };
    assert_eq!(rt; places_of(&rt, file.as_slice())?, Ok(want));
    Ok(())
}

#[test]
fn ignores_geo_fields_of_later_directories(rt: HostRuntime) -> Result<(), Fail> {
    let mut file = begun(&rt, Order::Big, 8)?;
    put_directory(&mut file, Order::Big, fields(&rt, &[])?.as_slice(), 122)?;
    let second = [(254, 4, 1, 4), (33550, 12, 3, 328), (34735, 3, 16, 352)];
    put_directory(&mut file, Order::Big, &second, 0)?;
    assert_eq!(rt; places_of(&rt, file.as_slice())?, Ok(NONE));
    Ok(())
}

#[test]
fn finds_geo_values_in_their_entry(rt: HostRuntime) -> Result<(), Fail> {
    let file = with_geo(&rt, &[(34735, 3, 2, 0), (34737, 2, 4, 0)])?;
    let want = GeoPlaces {
        directory: Some(place(126, 4, 2, Kind::Short)),
        ascii: Some(place(138, 4, 4, Kind::Ascii)),
        ..NONE
    };
    assert_eq!(rt; places_of(&rt, file.as_slice())?, Ok(want));
    Ok(())
}

/// A row has geo fields, and the fault that is reported first.
type GeoRow = (&'static [Entry], Option<FileFault>);

// Each row with a fault also has one that comes later in the order of the checks.
#[rattlefmt::skip]
const GEO_ROWS: [GeoRow; 18] = [
    (&[(33922, 12, 12, 0), (34264, 12, 16, 0)], None),
    (&[(34735, 3, 32768, 0)], None),
    (&[(34737, 2, 65536, 0)], None),
    (&[(34735, 4, 16, 0), (34736, 11, 1, 0)], Some(FileFault::FieldType(34735))),
    (&[(34735, 3, 0, 0), (34736, 11, 1, 0)], Some(FileFault::FieldType(34735))),
    (&[(34735, 3, 32769, 0), (34736, 11, 1, 0)], Some(FileFault::TooLarge)),
    (&[(34736, 11, 1, 0), (34737, 1, 1, 0)], Some(FileFault::FieldType(34736))),
    (&[(34736, 12, 8193, 0), (34737, 1, 1, 0)], Some(FileFault::TooLarge)),
    (&[(33550, 12, 4, 0), (34737, 1, 1, 0)], Some(FileFault::FieldType(34737))),
    (&[(33550, 12, 4, 0), (34737, 2, 65537, 0)], Some(FileFault::TooLarge)),
    (&[(33550, 12, 2, 0), (33922, 12, 5, 0)], Some(FileFault::FieldType(33550))),
    (&[(33550, 4, 3, 0), (33922, 12, 5, 0)], Some(FileFault::FieldType(33550))),
    (&[(33922, 12, 7, 0), (34264, 12, 15, 0)], Some(FileFault::FieldType(33922))),
    (&[(33922, 12, 0, 0), (34264, 12, 15, 0)], Some(FileFault::FieldType(33922))),
    (&[(33922, 12, 8196, 0), (34264, 12, 15, 0)], Some(FileFault::TooLarge)),
    (&[(34264, 12, 15, 0)], Some(FileFault::FieldType(34264))),
    (&[(34264, 12, 17, 0)], Some(FileFault::FieldType(34264))),
    (&[(34264, 255, 16, 0)], Some(FileFault::FieldType(34264))),
];

#[test]
fn tells_the_first_fault_of_geo_fields(rt: HostRuntime) -> Result<(), Fail> {
    for (geo, want) in GEO_ROWS {
        let file = with_geo(&rt, geo)?;
        let found = places_of(&rt, file.as_slice())?.err();
        expect_eq!(rt; found, want, "at {geo:?}");
    }
    Ok(())
}
