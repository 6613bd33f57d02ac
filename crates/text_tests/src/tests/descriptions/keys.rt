//! What keys say of the coordinate system and of pixels (GeoTIFF 1.1, OGC 19-008, annex A).
use super::places::info;
use assertion_support::expect_eq;
use cog_client::Info;
use geokeys::{Key, KeyValue};
use std::alloc::{AllocError, Global};
use std::test::Fail;
use text_description::{CoordinateSystem, RasterType};

/// Returns the contents of Info of an image with these keys.
fn info_of(alloc: Global, keys: Vec<Key>) -> Result<Info, Fail> {
    let mut info = info(alloc, &[], &[], &[])?;
    info.geo.keys = keys;
    Ok(info)
}

/// Makes keys that have numbers.
fn numbers(alloc: Global, keys: &[(u16, u16)]) -> Result<Vec<Key>, AllocError> {
    let mut made = Vec::new(alloc);
    for (id, number) in keys {
        made.push(Key {
            id: *id,
            value: KeyValue::Short(*number),
        })?;
    }
    Ok(made)
}

/// Makes keys that have texts.
fn texts(alloc: Global, keys: &[(u16, &[u8])]) -> Result<Vec<Key>, AllocError> {
    let mut made = Vec::new(alloc);
    for (id, text) in keys {
        made.push(Key {
            id: *id,
            value: KeyValue::Ascii(Vec::from_slice(alloc, text)?),
        })?;
    }
    Ok(made)
}

/// Expects the number of a projected system before that of the geodetic one that it stands on. The geodetic one is never reported instead.
/// The numbers 0 (undefined) and 32767 (user-defined) don't count.
#[test]
fn tells_the_number_of_a_system(rt: HostRuntime) -> Result<(), Fail> {
    let alloc = rt.alloc();
    for (keys, want) in [
        ([(2048, 4326), (3072, 32633)].as_slice(), Some(32633)),
        (&[(1024, 2), (2048, 4326)], Some(4326)),
        (&[(1024, 2)], None),
        (&[(2048, 0)], None),
        (&[(2048, 32767)], None),
        (&[(2048, 4326), (3072, 0)], None),
        (&[(2048, 4326), (3072, 32767)], None),
    ] {
        let info = info_of(alloc, numbers(alloc, keys)?)?;
        let number = match CoordinateSystem::of(alloc, &info)? {
            Some(system) => system.number,
            None => None,
        };
        expect_eq!(rt; number, want);
    }
    Ok(())
}

/// Keys with texts.
type Texts = &'static [(u16, &'static [u8])];

/// Expects that a text ends at a bar or a NUL, and that a label before the name isn't part of it. A text that isn't UTF-8 is reported as
/// far as it is.
#[test]
fn tells_the_text_of_a_system(rt: HostRuntime) -> Result<(), Fail> {
    let alloc = rt.alloc();
    let rows: [(Texts, &str); 7] = [
        (&[(1026, b"all"), (2049, b"WGS 84|")], "WGS 84"),
        (&[(2049, b"WGS 84|"), (3073, b"UTM 33\0")], "UTM 33"),
        (&[(1026, b"A|B|")], "A"),
        (
            &[(1026, b"PCS Name = My_UTM|GCS Name = G|Datum = D|")],
            "My_UTM",
        ),
        (
            &[(2049, b"GCS Name = unknown|Datum = unknown||")],
            "unknown",
        ),
        (&[(3073, b"GCS Name")], "GCS Name"),
        (&[(1026, b"W\xffS")], "W\u{fffd}S"),
    ];
    for (keys, want) in rows {
        let info = info_of(alloc, texts(alloc, keys)?)?;
        let Some(system) = CoordinateSystem::of(alloc, &info)? else {
            return Err(Fail::new("no system"));
        };
        assert_eq!(rt; system.name.as_deref(), Some(want));
        expect_eq!(rt; system.number, None);
    }
    Ok(())
}

/// Expects the name that gdalinfo has for the keys of a projected system with texts. The geodetic citation names the base of the system.
#[test]
fn tells_the_name_of_a_projected_system(rt: HostRuntime) -> Result<(), Fail> {
    let alloc = rt.alloc();
    let rows: [(u16, Texts, Option<&str>); 5] = [
        (
            32633,
            &[(1026, b"WGS 84 / UTM zone 33N|"), (2049, b"WGS 84|")],
            Some("WGS 84 / UTM zone 33N"),
        ),
        (
            32633,
            &[(1026, b"WGS 84 / UTM zone 33N|WGS 84|")],
            Some("WGS 84 / UTM zone 33N"),
        ),
        (
            32767,
            &[(1026, b"all|"), (2049, b"WGS 84|"), (3073, b"My UTM|")],
            Some("My UTM"),
        ),
        (
            32767,
            &[(1026, b"My UTM|"), (2049, b"Base|")],
            Some("My UTM"),
        ),
        (32633, &[(2049, b"WGS 84|")], None),
    ];
    for (number, named, want) in rows {
        let mut keys = texts(alloc, named)?;
        keys.append(&mut numbers(alloc, &[(3072, number)])?)?;
        let info = info_of(alloc, keys)?;
        let Some(system) = CoordinateSystem::of(alloc, &info)? else {
            return Err(Fail::new("no system"));
        };
        assert_eq!(rt; system.name.as_deref(), want);
    }
    Ok(())
}

#[test]
fn tells_what_a_pixel_is(rt: HostRuntime) -> Result<(), Fail> {
    let alloc = rt.alloc();
    for (number, want) in [
        (1, Some(RasterType::Area)),
        (2, Some(RasterType::Point)),
        (3, None),
    ] {
        let info = info_of(alloc, numbers(alloc, &[(1025, number)])?)?;
        expect_eq!(rt; RasterType::of(&info), want);
    }
    let info = info_of(alloc, numbers(alloc, &[(1024, 2)])?)?;
    expect_eq!(rt; RasterType::of(&info), None);
    Ok(())
}
