//! The faults of headers, tables and levels, in the order in which they are reported.
use super::{Entry, begun, fault_of, fields, file_with, put_directory};
use assertion_support::expect_eq;
use std::process::Abort;
use std::test::Fail;
use tiff_dir::FileFault::{
    DirCount, DirPlace, FieldType, Header, LevelShape, Missing, PastEnd, TagOrder, TileArray,
    TileSize, Unsupported,
};
use tiff_dir::{FileFault, Order};

/// A row has changes of a file of one level, and the fault that is reported.
type Faulty = (&'static [Entry], FileFault);

// Each row also has a fault that comes later in the order of the checks.
#[rattlefmt::skip]
const FAULTS: [Faulty; 41] = [
    (&[(254, 3, 1, 1)], FieldType(254)),
    (&[(254, 4, 2, 1)], FieldType(254)),
    (&[(254, 4, 1, 3), (256, 0, 0, 0)], LevelShape),
    (&[(256, 0, 0, 0), (257, 5, 1, 16)], Missing(256)),
    (&[(256, 1, 1, 16), (257, 0, 0, 0)], FieldType(256)),
    (&[(257, 3, 2, 16), (258, 0, 0, 0)], FieldType(257)),
    (&[(258, 0, 0, 0), (259, 0, 0, 0)], Missing(258)),
    (&[(258, 4, 1, 8), (259, 0, 0, 0)], FieldType(258)),
    (&[(324, 3, 1, 122), (325, 0, 0, 0)], FieldType(324)),
    (&[(325, 1, 1, 1), (339, 4, 1, 1)], FieldType(325)),
    (&[(339, 4, 1, 1), (262, 3, 1, 3)], FieldType(339)),
    (&[(257, 0, 0, 0), (258, 4, 1, 8)], Missing(257)),
    (&[(259, 0, 0, 0), (262, 4, 1, 1)], Missing(259)),
    (&[(259, 4, 1, 1), (262, 0, 0, 0)], FieldType(259)),
    (&[(259, 3, 2, 1), (262, 0, 0, 0)], FieldType(259)),
    (&[(262, 0, 0, 0), (277, 4, 1, 1)], Missing(262)),
    (&[(262, 4, 1, 1), (277, 4, 1, 1)], FieldType(262)),
    (&[(277, 4, 1, 1), (284, 4, 1, 1)], FieldType(277)),
    (&[(277, 3, 2, 1), (284, 4, 1, 1)], FieldType(277)),
    (&[(284, 4, 1, 1), (322, 0, 0, 0)], FieldType(284)),
    (&[(322, 0, 0, 0), (323, 5, 1, 16)], Missing(322)),
    (&[(322, 5, 1, 16), (323, 0, 0, 0)], FieldType(322)),
    (&[(323, 0, 0, 0), (324, 3, 1, 122)], Missing(323)),
    (&[(323, 1, 1, 16), (324, 0, 0, 0)], FieldType(323)),
    (&[(324, 0, 0, 0), (325, 1, 1, 1)], Missing(324)),
    (&[(325, 0, 0, 0), (339, 4, 1, 1)], Missing(325)),
    (&[(262, 3, 1, 3), (277, 3, 1, 2)], Unsupported(262)),
    (&[(277, 3, 1, 3), (284, 3, 1, 3)], Unsupported(277)),
    (&[(262, 3, 1, 2), (284, 3, 1, 3)], Unsupported(277)),
    (&[(284, 3, 1, 3), (259, 3, 1, 5)], Unsupported(284)),
    (&[(262, 3, 1, 2), (277, 3, 1, 3), (284, 3, 1, 2)], Unsupported(284)),
    (&[(259, 3, 1, 5), (258, 3, 2, 8)], Unsupported(259)),
    (&[(258, 3, 2, 8), (339, 3, 2, 1)], FieldType(258)),
    (&[(258, 3, 1, 9), (339, 3, 2, 1)], FieldType(339)),
    (&[(258, 3, 1, 12), (339, 3, 1, 2)], Unsupported(258)),
    (&[(339, 3, 1, 2), (256, 3, 1, 0)], Unsupported(339)),
    (&[(256, 3, 1, 0), (322, 3, 1, 24)], LevelShape),
    (&[(257, 3, 1, 0), (322, 3, 1, 24)], LevelShape),
    (&[(322, 3, 1, 24), (324, 4, 2, 0)], TileSize),
    (&[(323, 3, 1, 0), (324, 4, 2, 0)], TileSize),
    (&[(322, 3, 1, 1024), (323, 3, 1, 1040), (324, 4, 2, 0)], TileSize),
];

/// A row has changes of a file of one level, the place of the next directory, and some bytes after this one. Then comes the fault that is
/// reported.
type Row = (&'static [Entry], u32, &'static [u8], Option<FileFault>);

#[rattlefmt::skip]
const ROWS: [Row; 16] = [
    (&[(256, 4, 1, 16)], 0, &[], None),
    (&[(325, 3, 1, 256)], 0, &[], None),
    (&[(277, 3, 1, 1), (284, 3, 1, 2), (339, 3, 1, 1)], 0, &[], None),
    (&[(322, 3, 1, 1024), (323, 3, 1, 1024)], 0, &[], None),
    (&[(324, 4, 2, 0)], 9, &[], Some(TileArray)),
    (&[(325, 4, 2, 0)], 9, &[], Some(TileArray)),
    (&[(256, 4, 1, 1048592), (324, 4, 65537, 0), (325, 4, 65537, 0)], 9, &[], Some(TileArray)),
    (&[(256, 4, 1, 1048576), (324, 4, 65536, 0), (325, 4, 65536, 0)], 0, &[], None),
    (&[], 9, &[], Some(DirPlace)),
    (&[], 6, &[], Some(DirPlace)),
    (&[], 4294967295, &[], Some(DirPlace)),
    (&[], 4294967294, &[], Some(PastEnd)),
    (&[], 122, &[], Some(PastEnd)),
    (&[], 122, &[0, 0], Some(DirCount)),
    (&[], 122, &[1, 1], Some(DirCount)),
    (&[], 122, &[0, 1], Some(PastEnd)),
];

/// Expects this fault of the file, in both byte orders.
fn expect_fault(
    rt: &(impl Abort + AllocGlobal),
    changes: &[Entry],
    next: u32,
    tail: &[u8],
    want: Option<FileFault>,
) -> Result<(), Fail> {
    for order in [Order::Little, Order::Big] {
        let file = file_with(rt, order, changes, next, tail)?;
        assert_eq!(rt;
            fault_of(rt, &file)?,
            want,
            "at {changes:?} {next} in {order:?}"
        );
    }
    Ok(())
}

#[test]
fn tells_the_first_fault_of_a_level(rt: HostRuntime) -> Result<(), Fail> {
    for (changes, want) in FAULTS {
        expect_fault(&rt, changes, 0, &[], Some(want))?;
    }
    for (changes, next, tail, want) in ROWS {
        expect_fault(&rt, changes, next, tail, want)?;
    }
    Ok(())
}

/// A row has the place of BitsPerSample, and the count and the place of SampleFormat. Then come what follows the directory, which ends at
/// 158, and the fault.
#[rattlefmt::skip]
const OUTSIDE: [(u32, u32, u32, &[u8], Option<FileFault>); 10] = [
    (158, 3, 164, &[8, 0, 8, 0, 8, 0, 1, 0, 1, 0, 1, 0], None),
    (158, 2, 400, &[8, 0, 8, 0, 8, 0], Some(FieldType(339))),
    (400, 2, 65537, &[], Some(FieldType(339))),
    (400, 3, 401, &[], Some(PastEnd)),
    (158, 3, 159, &[9, 0, 9, 0, 9, 0], Some(PastEnd)),
    (158, 3, 164, &[8, 0, 8, 0, 9, 0, 2, 0, 1, 0, 1, 0], Some(Unsupported(258))),
    (158, 3, 164, &[8, 0, 16, 0, 8, 0, 1, 0, 1, 0, 1, 0], Some(Unsupported(258))),
    (158, 3, 164, &[8, 0, 8, 0, 8, 0, 2, 0, 1, 0, 1, 0], Some(Unsupported(339))),
    (158, 3, 164, &[8, 0, 8, 0, 8, 0, 1, 0, 1, 0, 0, 0], Some(Unsupported(339))),
    (158, 3, 158, &[8, 0, 8, 0, 8, 0], Some(Unsupported(339))),
];

// There are three samples, whose BitsPerSample and SampleFormat stand outside their entries.
#[test]
fn tells_the_first_fault_of_outside_values(rt: HostRuntime) -> Result<(), Fail> {
    for (bits, count, formats, tail, want) in OUTSIDE {
        let changes = [
            (258, 3, 3, bits),
            (262, 3, 1, 2),
            (277, 3, 1, 3),
            (284, 3, 1, 1),
            (339, 3, count, formats),
        ];
        let file = file_with(&rt, Order::Little, &changes, 0, tail)?;
        assert_eq!(rt;
            fault_of(&rt, file.as_slice())?,
            want,
            "at {bits} {formats}"
        );
    }
    Ok(())
}

// A wrong count of BitsPerSample comes before its values, which would stand past the end.
#[test]
fn tells_a_wrong_count_before_its_values(rt: HostRuntime) -> Result<(), Fail> {
    for order in [Order::Little, Order::Big] {
        let changes = [(258, 3, 4, 400), (262, 3, 1, 2), (277, 3, 1, 3)];
        let file = file_with(&rt, order, &changes, 0, &[])?;
        expect_eq!(rt; fault_of(&rt, &file)?, Some(FieldType(258)));
    }
    Ok(())
}

#[test]
fn tells_faults_of_headers_and_tables(rt: HostRuntime) -> Result<(), Fail> {
    let rows: [(&[u8], Option<FileFault>); 10] = [
        (b"IM*\0\x08\0\0", Some(PastEnd)),
        (b"IM*\0\x09\0\0\0", Some(Header)),
        (b"MM*\0\0\0\0\x09", Some(Header)),
        (b"II+\0\x09\0\0\0", Some(Header)),
        (b"II*\0\x09\0\0\0", Some(DirPlace)),
        (b"MM\0*\0\0\0\x06", Some(DirPlace)),
        (b"II*\0\0\0\0\0", Some(DirPlace)),
        (b"II*\0\x08\0\0\0\x01", Some(PastEnd)),
        (b"II*\0\x08\0\0\0\0\0", Some(DirCount)),
        (b"II*\0\x08\0\0\0\x02\0\x01\0\0\0", Some(PastEnd)),
    ];
    for (file, want) in rows {
        expect_eq!(rt; fault_of(&rt, file)?, want, "at {file:?}");
    }
    for (first, second) in [(254, 254), (256, 254)] {
        let mut file = begun(&rt, Order::Little, 8)?;
        put_directory(
            &mut file,
            Order::Little,
            &[(first, 3, 1, 1), (second, 3, 1, 1)],
            0,
        )?;
        assert_eq!(rt; fault_of(&rt, file.as_slice())?, Some(TagOrder));
    }
    let mut file = begun(&rt, Order::Little, 8)?;
    let mut entries = fields(&rt, &[])?;
    entries.push((400, 255, 7, 7))?;
    put_directory(&mut file, Order::Little, entries.as_slice(), 0)?;
    assert_eq!(rt; fault_of(&rt, file.as_slice())?, None);
    Ok(())
}
