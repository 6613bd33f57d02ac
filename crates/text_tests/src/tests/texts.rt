//! Windows as P5 and P6, and the text of Info, of the fixtures and of values by hand.
use client_report::picture;
use cog_client::{Client, Info, Outcome, Query, Report};
use cog_fetch::fetch;
use fixtures_support::{f1, f3, f4, f6, f6m};
use geokeys::{Geo, Key, KeyValue};
use http_range::publication_tag;
use std::alloc::Global;
use std::test::Fail;
use text_report::info_text;
use tiff_dir::Pick;
use transports::{InMemory, server_of_one};

/// Returns the report of a query of a file, which is published as `a` in epoch 1.
fn report_of(alloc: Global, file: Vec<u8>, query: Query) -> Result<Report, Fail> {
    let server = server_of_one(alloc, 1, b"a", file)?;
    let mut client = Client::new(alloc, b"cog.test", b"a", 66)?;
    client.open(query);
    let mut transport = InMemory::new(&server, b"a");
    match fetch(&mut client, &mut transport, 3)? {
        Some(report) => Ok(report.copy(alloc)?),
        None => Err(Fail::new("no report")),
    }
}

/// Returns the picture of a window of level 0.
fn picture_of(
    alloc: Global,
    file: Vec<u8>,
    (x, y): (u32, u32),
    (w, h): (u32, u32),
) -> Result<Vec<u8>, Fail> {
    let query = Query::Window {
        pick: Pick::Level(0),
        x,
        y,
        w,
        h,
    };
    let report = report_of(alloc, file, query)?;
    match &report.outcome {
        Outcome::Window(_) => Ok(picture(alloc, &report)?),
        _ => Err(Fail::new("no window")),
    }
}

#[test]
fn writes_one_sample_to_a_pixel_as_p5(rt: HostRuntime) -> Result<(), Fail> {
    let alloc = rt.alloc();
    let found = picture_of(alloc, f1(alloc)?, (2, 1), (3, 2))?;
    let want = b"P5\n3 2\n255\n\x12\x13\x14\x22\x23\x24".as_slice();
    assert_eq!(rt; found.as_slice(), want);
    for (name, file) in [("f6", f6(alloc)?), ("f6m", f6m(alloc)?)] {
        let found = picture_of(alloc, file, (2, 1), (3, 2))?;
        let want = b"P5\n3 2\n65535\n\x80\x12\x80\x13\x80\x14\x80\x22\x80\x23\x80\x24".as_slice();
        assert_eq!(rt; found.as_slice(), want, "of {name}");
    }
    Ok(())
}

#[test]
fn writes_three_samples_to_a_pixel_as_p6(rt: HostRuntime) -> Result<(), Fail> {
    let alloc = rt.alloc();
    let found = picture_of(alloc, f4(alloc)?, (15, 15), (3, 3))?;
    let want =
        b"P6\n3 3\n255\n\x80\x80\x80\x0f\x01\xff\x80\x80\x80\x80\x80\x80\x00\x03\xff\x80\x80\x80\
        \x80\x80\x80\x01\x03\xff\x80\x80\x80";
    assert_eq!(rt; found.as_slice(), want.as_slice());
    Ok(())
}

/// Returns the text of Info of a file.
fn text_of(alloc: Global, file: Vec<u8>) -> Result<Vec<u8>, Fail> {
    let report = report_of(alloc, file, Query::Info)?;
    match &report.outcome {
        Outcome::Info(info) => Ok(info_text(alloc, &report.tag, info)?),
        _ => Err(Fail::new("no Info")),
    }
}

/// The text of Info of f3, without the last line.
const KEYS_OF_F3: &str = "\
tag \"1-1\"
level 0 32 32
level 1 16 16
minor 0
key 1024 short 2
key 1026 ascii WGS 84|
key 2057 doubles 0102030405060708
";

const SCALE_OF_F3: &str = "scale 3ff0000000000000 3ff0000000000000 3ff0000000000000\n";

#[test]
fn writes_levels_and_keys_and_scale(rt: HostRuntime) -> Result<(), Fail> {
    let alloc = rt.alloc();
    let found = text_of(alloc, f1(alloc)?)?;
    assert_eq!(rt;
        str::from_utf8(&found),
        Ok("tag \"1-1\"\nlevel 0 16 16\nminor 0\n")
    );
    let found = text_of(alloc, f3(alloc)?)?;
    let want = format!(in alloc; "{KEYS_OF_F3}{SCALE_OF_F3}")?;
    assert_eq!(rt; str::from_utf8(&found), Ok(want.as_str()));
    Ok(())
}

/// Expects no scale where its field has another tag, and a type that isn't known.
#[test]
fn leaves_out_a_scale_that_is_not_there(rt: HostRuntime) -> Result<(), Fail> {
    let alloc = rt.alloc();
    let mut file = f3(alloc)?;
    for (place, byte) in [(118, 0x0f), (120, 0xff)] {
        if let Some(here) = file.get_mut(place) {
            *here = byte;
        }
    }
    let found = text_of(alloc, file)?;
    assert_eq!(rt; str::from_utf8(&found), Ok(KEYS_OF_F3));
    Ok(())
}

/// Expects the text of a key of each kind, with bytes that aren't printable, and of the other model fields.
#[test]
fn escapes_bytes_that_are_not_printable(rt: HostRuntime) -> Result<(), Fail> {
    let alloc = rt.alloc();
    let text = Vec::from_slice(alloc, b" a\\~\x7f\x1f\x00\xff")?;
    let items = [[0, 1, 2, 3, 4, 5, 6, 0xab], [0xff; 8]];
    let info = Info {
        sides: vec![in alloc; (4294967295, 1)]?,
        geo: Geo {
            minor: 65535,
            keys: vec![in alloc;
                Key {
                    id: 1,
                    value: KeyValue::Ascii(text)
                },
                Key {
                    id: 65535,
                    value: KeyValue::Doubles(Vec::from_slice(alloc, &items)?)
                },
            ]?,
        },
        scale: None,
        tiepoints: Some(Vec::from_slice(alloc, &items[..1])?),
        transformation: Some(Vec::from_slice(alloc, &items[1..])?),
    };
    let found = info_text(alloc, &publication_tag(4294967295, 2), &info)?;
    assert_eq!(rt;
        str::from_utf8(&found),
        Ok(
            "tag \"4294967295-2\"\nlevel 0 4294967295 1\nminor 65535\n\
            key 1 ascii  a\\x5c~\\x7f\\x1f\\x00\\xff\n\
            key 65535 doubles 00010203040506ab ffffffffffffffff\n\
            tiepoint 00010203040506ab\ntransform ffffffffffffffff\n"
        )
    );
    Ok(())
}
