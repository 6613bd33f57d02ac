//! The contents of Info.
use super::image::{Answer, Image};
use super::{Range, are_ranges};
use assertion_support::expect_eq;
use cog_reader::read_file;
use cog_reader_support::{FACTS_OF_F3, Facts, Fixture, NO_FACTS, Value, Want, change, is_wanted};
use fixtures_support::{
    Field, FieldType, Order, Values, push_directory, push_double, push_header, push_short,
};
use std::alloc::{AllocError, Global};
use std::test::Fail;
use tiff_dir::{Memory, Query};

/// A row has a fixture without geo fields, the sides of its level, and the ranges that are wanted of it: nothing but the directories.
const PLAIN: [(Fixture, (u32, u32), &[Range]); 8] = [
    (Fixture::F1, (16, 16), &[(0, 8), (8, 2), (10, 112)]),
    (Fixture::F1m, (16, 16), &[(0, 8), (8, 2), (10, 112)]),
    (Fixture::F2, (256, 256), &[(0, 8), (8, 2), (10, 112)]),
    (Fixture::F2b, (256, 256), &[(0, 8), (8, 2), (10, 112)]),
    (
        Fixture::F4,
        (20, 18),
        &[(0, 8), (8, 2), (10, 124), (134, 6)],
    ),
    (Fixture::F5, (1280, 1024), &[(0, 8), (8, 2), (10, 112)]),
    (Fixture::F6, (16, 16), &[(0, 8), (8, 2), (10, 112)]),
    (Fixture::F6m, (16, 16), &[(0, 8), (8, 2), (10, 112)]),
];

/// Returns whether Info of a file wants these ranges, and has these contents.
fn informs(
    alloc: Global,
    image: &mut Image,
    ranges: &[Range],
    facts: Facts<'_>,
) -> Result<bool, Memory> {
    let Answer { wanted, outcome } = image.answer(alloc, Query::Info)?;
    Ok(are_ranges(&wanted, ranges) && is_wanted(outcome, Want::Info(facts)))
}

/// Returns the same for a new reader.
fn is_told(
    alloc: Global,
    file: Vec<u8>,
    ranges: &[Range],
    facts: Facts<'_>,
) -> Result<bool, Memory> {
    let mut image = Image::new(alloc, file);
    informs(alloc, &mut image, ranges, facts)
}

#[test]
fn tells_sides_without_geo_fields(rt: HostRuntime) -> Result<(), Fail> {
    for (fixture, sides, ranges) in PLAIN {
        let facts = Facts {
            sides: &[sides],
            ..NO_FACTS
        };
        let file = fixture.file(rt.alloc())?;
        let told = is_told(rt.alloc(), file, ranges, facts);
        assert!(rt; told.ok().ok_or("no memory")?, "{fixture:?}");
    }
    Ok(())
}

/// Returns whether Info of a whole file has these contents.
fn is_said(alloc: Global, file: &[u8], facts: Facts<'_>) -> bool {
    let found = read_file(alloc, file, Query::Info);
    is_wanted(found.ok().as_ref(), Want::Info(facts))
}

#[test]
fn tells_the_facts_of_two_levels(rt: HostRuntime) -> Result<(), Fail> {
    let mut file = Fixture::F3.file(rt.alloc())?;
    assert!(rt; is_said(rt.alloc(), &file, FACTS_OF_F3));
    // A tag that isn't named, of an unknown type, stands instead of the scale's.
    change(&mut file, 118, &[0x0f]);
    change(&mut file, 120, &[0xff]);
    let facts = Facts {
        scale: None,
        ..FACTS_OF_F3
    };
    assert!(rt; is_said(rt.alloc(), &file, facts));
    Ok(())
}

const fn short(tag: u16, value: u16) -> Field {
    Field {
        tag,
        values: Values::Short(value),
    }
}

const fn at(tag: u16, kind: FieldType, count: u32, first: u32) -> Field {
    Field {
        tag,
        values: Values::At { kind, count, first },
    }
}

/// Returns the fields of a level in one tile, and each of the geo fields.
fn fields() -> [Field; 15] {
    [
        short(256, 16),
        short(257, 16),
        short(258, 8),
        short(259, 1),
        short(262, 1),
        short(322, 16),
        short(323, 16),
        Field {
            tag: 324,
            values: Values::Long(434),
        },
        Field {
            tag: 325,
            values: Values::Long(256),
        },
        at(33550, FieldType::Double, 3, 194),
        at(33922, FieldType::Double, 6, 218),
        at(34264, FieldType::Double, 16, 266),
        at(34735, FieldType::Short, 12, 394),
        at(34736, FieldType::Double, 1, 418),
        at(34737, FieldType::Ascii, 8, 426),
    ]
}

/// Returns a file with each of the geo fields, whose doubles have the bits of 0 to 24, and of 25. Its tile isn't there.
fn file_of_all(alloc: Global, order: Order) -> Result<Vec<u8>, AllocError> {
    let mut file = Vec::new(alloc);
    push_header(&mut file, order, 8)?;
    push_directory(&mut file, order, &fields(), 0)?;
    for bits in 0..25u64 {
        push_double(&mut file, order, bits)?;
    }
    for number in [1, 1, 7, 2, 1025, 0, 1, 65535, 3073, 34737, 3, 4] {
        push_short(&mut file, order, number)?;
    }
    push_double(&mut file, order, 25)?;
    file.extend_from_slice(b"abcdefg|")?;
    Ok(file)
}

/// Returns items with the bits of 0 to 24.
fn items() -> [[u8; 8]; 25] {
    let mut items = [[0; 8]; 25];
    for (item, bits) in items.iter_mut().zip(0..25u8) {
        item[7] = bits;
    }
    items
}

/// The contents of Info of this file, without the items of the model fields.
const FACTS_OF_ALL: Facts<'static> = Facts {
    sides: &[(16, 16)],
    minor: 7,
    keys: &[(1025, Value::Short(65535)), (3073, Value::Ascii(b"efg"))],
    ..NO_FACTS
};

const ALL_RANGES: [Range; 9] = [
    (0, 8),
    (8, 2),
    (10, 184),
    (394, 24),
    (418, 8),
    (426, 8),
    (194, 24),
    (218, 48),
    (266, 128),
];

#[test]
fn tells_all_geo_fields(rt: HostRuntime) -> Result<(), Fail> {
    let items = items();
    let items = &items[..];
    let facts = Facts {
        scale: Some(&items[..3]),
        tiepoints: Some(&items[3..9]),
        transformation: Some(&items[9..]),
        ..FACTS_OF_ALL
    };
    for order in [Order::Little, Order::Big] {
        let file = file_of_all(rt.alloc(), order)?;
        expect_eq!(rt; file.len(), 434);
        let told = is_told(rt.alloc(), file, &ALL_RANGES, facts);
        assert!(rt; told.ok().ok_or("no memory")?, "{order:?}");
    }
    Ok(())
}
