//! What `cogread describe` prints of files, in words and in JSON. The places are those that gdalinfo 3.6.2 prints for the same bytes.
use super::reads::told_of;
use fixtures_support::Values::{At, Long, Short};
use fixtures_support::{
    Field, FieldType, Order, f1, f3, push_directory, push_double, push_header, push_short,
};
use programs_support::Capture;
use read_command::Asked;
use std::alloc::{AllocError, Global};
use std::test::Fail;
use text_description::Form;
use transports::server_of_one;

/// The fields of 16 by 16 samples of 8 bits in a tile. The scale stands at 160, the tiepoint at 184, and the keys at 232.
#[rattlefmt::skip]
const FIELDS: [Field; 12] = [
    Field { tag: 256, values: Short(16) },
    Field { tag: 257, values: Short(16) },
    Field { tag: 258, values: Short(8) },
    Field { tag: 259, values: Short(1) },
    Field { tag: 262, values: Short(1) },
    Field { tag: 322, values: Short(16) },
    Field { tag: 323, values: Short(16) },
    Field { tag: 324, values: Long(264) },
    Field { tag: 325, values: Long(256) },
    Field { tag: 33550, values: At { kind: FieldType::Double, count: 3, first: 160 } },
    Field { tag: 33922, values: At { kind: FieldType::Double, count: 6, first: 184 } },
    Field { tag: 34735, values: At { kind: FieldType::Short, count: 16, first: 232 } },
];

/// Pixels of 60 m, the first of which lies at 440720 m to the east and 3751320 m to the north. It is the example of the GeoTIFF standard.
const PLACE: [f64; 9] = [60.0, 60.0, 0.0, 0.0, 0.0, 0.0, 440720.0, 3751320.0, 0.0];

/// The keys of a projected system, NAD27 / UTM zone 11N, in which pixels are points.
const KEYS: [u16; 16] = [1, 1, 0, 3, 1024, 0, 1, 1, 1025, 0, 1, 2, 3072, 0, 1, 26711];

/// Returns a file whose pixels are points.
pub fn points(alloc: Global) -> Result<Vec<u8>, AllocError> {
    let mut file = Vec::new(alloc);
    push_header(&mut file, Order::Little, 8)?;
    push_directory(&mut file, Order::Little, &FIELDS, 0)?;
    file.extend_from_slice(&[0; 2])?;
    for number in PLACE {
        push_double(&mut file, Order::Little, number.to_bits())?;
    }
    for number in KEYS {
        push_short(&mut file, Order::Little, number)?;
    }
    file.extend_from_slice(&[0; 256])?;
    Ok(file)
}

/// The fields of 16 by 16 samples of 8 bits in a tile that stands at 152. GDAL_NODATA is the text 0.
#[rattlefmt::skip]
const FIELDS_WITH_NO_DATA: [Field; 10] = [
    Field { tag: 256, values: Short(16) },
    Field { tag: 257, values: Short(16) },
    Field { tag: 258, values: Short(8) },
    Field { tag: 259, values: Short(1) },
    Field { tag: 262, values: Short(1) },
    Field { tag: 322, values: Short(16) },
    Field { tag: 323, values: Short(16) },
    Field { tag: 324, values: Long(152) },
    Field { tag: 325, values: Long(256) },
    Field { tag: 42113, values: At { kind: FieldType::Ascii, count: 2, first: 48 } },
];

/// The fields of a transparency mask, as far as they are read.
const FIELDS_OF_A_MASK: [Field; 1] = [Field {
    tag: 254,
    values: Long(4),
}];

/// Returns a file with a value for no data, and with a mask whose directory stands at 134.
fn masked(alloc: Global) -> Result<Vec<u8>, AllocError> {
    let mut file = Vec::new(alloc);
    push_header(&mut file, Order::Little, 8)?;
    push_directory(&mut file, Order::Little, &FIELDS_WITH_NO_DATA, 134)?;
    push_directory(&mut file, Order::Little, &FIELDS_OF_A_MASK, 0)?;
    file.extend_from_slice(&[0; 256])?;
    Ok(file)
}

const WORDS_OF_MASKED: &str = "\
tag \"1-1\"
408 bytes
level 0: 16 columns, 16 rows, 1 sample of 8 bits, photometric BlackIsZero, compression none, 1 tile of 16 by 16, 256 bytes
pixels with the value 0 mean no data, by the file
1 mask, not read
";

const JSON_OF_MASKED: &str = r#"{
  "tag": "\"1-1\"",
  "length": 408,
  "size": [
    16,
    16
  ],
  "levels": [
    {
      "size": [
        16,
        16
      ],
      "block": [
        16,
        16
      ],
      "tiles": 1,
      "bytes": 256,
      "samples": 1,
      "bits": 8,
      "type": "Byte",
      "photometric": "BlackIsZero",
      "compression": "none"
    }
  ],
  "noDataValue": "0",
  "masks": 1
}
"#;

const WORDS_OF_F1: &str = "\
tag \"1-1\"
378 bytes
level 0: 16 columns, 16 rows, 1 sample of 8 bits, photometric BlackIsZero, compression none, 1 tile of 16 by 16, 256 bytes
";

const WORDS_OF_F3: &str = "\
tag \"1-1\"
1456 bytes
level 0: 32 columns, 32 rows, 1 sample of 8 bits, photometric BlackIsZero, compression none, 4 tiles of 16 by 16, 1024 bytes
level 1: 16 columns, 16 rows, 1 sample of 8 bits, photometric BlackIsZero, compression PackBits, 1 tile of 16 by 16, 32 bytes
coordinate system (WGS 84)
";

const WORDS_OF_POINTS: &str = "\
tag \"1-1\"
520 bytes
level 0: 16 columns, 16 rows, 1 sample of 8 bits, photometric BlackIsZero, compression none, 1 tile of 16 by 16, 256 bytes
coordinate system 26711
a pixel is a point: the image begins half a pixel before the first one
origin 440690.0 3751350.0
size of a pixel 60.0 -60.0
upper left 440690.0 3751350.0
lower left 440690.0 3750390.0
upper right 441650.0 3751350.0
lower right 441650.0 3750390.0
center 441170.0 3750870.0
";

const JSON_OF_POINTS: &str = r#"{
  "tag": "\"1-1\"",
  "length": 520,
  "size": [
    16,
    16
  ],
  "levels": [
    {
      "size": [
        16,
        16
      ],
      "block": [
        16,
        16
      ],
      "tiles": 1,
      "bytes": 256,
      "samples": 1,
      "bits": 8,
      "type": "Byte",
      "photometric": "BlackIsZero",
      "compression": "none"
    }
  ],
  "masks": 0,
  "coordinateSystem": {
    "number": 26711
  },
  "rasterType": "Point",
  "geoTransform": [
    440690.0,
    60.0,
    0.0,
    3751350.0,
    0.0,
    -60.0
  ],
  "cornerCoordinates": {
    "upperLeft": [
      440690.0,
      3751350.0
    ],
    "lowerLeft": [
      440690.0,
      3750390.0
    ],
    "lowerRight": [
      441650.0,
      3750390.0
    ],
    "upperRight": [
      441650.0,
      3751350.0
    ],
    "center": [
      441170.0,
      3750870.0
    ]
  }
}
"#;

#[test]
fn tells_what_a_file_is(rt: HostRuntime) -> Result<(), Fail> {
    let alloc = rt.alloc();
    for (file, form, want) in [
        (f1(alloc)?, Form::Words, WORDS_OF_F1),
        (f3(alloc)?, Form::Words, WORDS_OF_F3),
        (points(alloc)?, Form::Words, WORDS_OF_POINTS),
        (points(alloc)?, Form::Json, JSON_OF_POINTS),
        (masked(alloc)?, Form::Words, WORDS_OF_MASKED),
        (masked(alloc)?, Form::Json, JSON_OF_MASKED),
    ] {
        let server = server_of_one(alloc, 1, b"a", file)?;
        let told = told_of(Capture::new(&rt), &server, Asked::Description(form));
        assert!(rt; told.is(want, "", 0), "{told:?}");
    }
    Ok(())
}

/// Expects that a control character in a text isn't printed as it is. It is the second letter of key 1026 of f3, at byte 393.
#[test]
fn tells_no_command_to_a_terminal(rt: HostRuntime) -> Result<(), Fail> {
    let mut file = f3(rt.alloc())?;
    assert!(rt; file.len() > 393);
    file[393] = 27;
    let server = server_of_one(rt.alloc(), 1, b"a", file)?;
    let told = told_of(Capture::new(&rt), &server, Asked::Description(Form::Words));
    let out = str::from_utf8(&told.out).unwrap_or_default();
    assert!(rt;
        out.ends_with("coordinate system (W\\u{1b}S 84)\n"),
        "{told:?}"
    );
    Ok(())
}

/// Expects the fault of a compression that isn't accepted: 5, at byte 54 of f1.
#[test]
fn tells_the_fault_of_a_file(rt: HostRuntime) -> Result<(), Fail> {
    let mut file = f1(rt.alloc())?;
    assert!(rt; file.len() > 54);
    file[54] = 5;
    let server = server_of_one(rt.alloc(), 1, b"a", file)?;
    for form in [Form::Words, Form::Json] {
        let told = told_of(Capture::new(&rt), &server, Asked::Description(form));
        assert!(rt; told.is("", "cogread: fault 9 259\n", 3), "{told:?}");
    }
    Ok(())
}
