//! Faults of a file, and reasons why an answer isn't used, as sentences.
use assertion_support::expect_eq;
use cog_client::Why;
use fixtures_support::f1;
use known_fields::WholeFile;
use read_progress::WhySentence;
use std::alloc::{AllocError, Global};
use std::test::Fail;
use text_report::{ExplainedFault, FaultSentence, WayOut, found_value};
use tiff_dir::FileFault;

/// A row has a fault that is about no field, and its sentence.
#[rattlefmt::skip]
const FAULTS: [(FileFault, &str); 15] = [
    (FileFault::Header, "no classic TIFF: the byte order or the number 42 is wrong"),
    (FileFault::PastEnd, "bytes that are needed end after the file"),
    (FileFault::DirPlace, "a directory's offset is odd or below 8"),
    (FileFault::DirCount, "a directory has no entries, or more than 256"),
    (FileFault::TagOrder, "the tags of a directory don't ascend"),
    (FileFault::TooManyDirs, "more than 16 directories"),
    (FileFault::LevelShape, "a side is 0, the first image is a reduced one, or a level isn't smaller than the one before"),
    (FileFault::TileArray, "the array of tiles has not as many values as there are tiles, or more than 65536"),
    (FileFault::TileSize, "a tile's side, plain size or byte count is wrong"),
    (FileFault::Packet, "the packed bytes of a tile are no packets that fill it exactly, row by row"),
    (FileFault::Outside, "the window is empty or passes its level, there is no such level, or 0 columns are asked for"),
    (FileFault::TooLarge, "more than 4194304 samples, or a geo field of more than 65536 bytes"),
    (FileFault::KeyHead, "the geo keys' version, revision or length is wrong"),
    (FileFault::KeyOrder, "the geo keys don't ascend"),
    (FileFault::KeyPlace, "a geo key's values aren't where it says"),
];

/// Rows of faults about each field, and about one that has no name here.
#[rattlefmt::skip]
const FIELDS: [(FileFault, &str); 22] = [
    (FileFault::FieldType(254), "NewSubfileType (254) has another type or count than it is to have"),
    (FileFault::Missing(256), "a level has no ImageWidth (256): it is needed"),
    (FileFault::Missing(257), "a level has no ImageLength (257): it is needed"),
    (FileFault::Unsupported(258), "BitsPerSample (258) has another value: only 8 or 16 bits are read, the same for all samples"),
    (FileFault::Unsupported(259), "Compression (259) has another value: only none (1) and PackBits (32773) are read"),
    (FileFault::Missing(262), "a level has no PhotometricInterpretation (262): it is needed"),
    (FileFault::Unsupported(262), "PhotometricInterpretation (262) has another value: only grey, black being 0 (1), and RGB (2) are read"),
    (FileFault::Unsupported(277), "SamplesPerPixel (277) has another value: only one sample that is grey, or three that are RGB, are read"),
    (FileFault::Unsupported(284), "PlanarConfiguration (284) has another value: only samples side by side (1) are read"),
    (FileFault::Missing(322), "a level has no TileWidth (322): only tiles are read, no strips"),
    (FileFault::Missing(323), "a level has no TileLength (323): only tiles are read, no strips"),
    (FileFault::Missing(324), "a level has no TileOffsets (324): it is needed"),
    (FileFault::FieldType(325), "TileByteCounts (325) has another type or count than it is to have"),
    (FileFault::Unsupported(339), "SampleFormat (339) has another value: only samples without a sign (1) are read"),
    (FileFault::FieldType(33550), "ModelPixelScale (33550) has another type or count than it is to have"),
    (FileFault::FieldType(33922), "ModelTiepoint (33922) has another type or count than it is to have"),
    (FileFault::FieldType(34264), "ModelTransformation (34264) has another type or count than it is to have"),
    (FileFault::FieldType(34735), "GeoKeyDirectory (34735) has another type or count than it is to have"),
    (FileFault::FieldType(34736), "GeoDoubleParams (34736) has another type or count than it is to have"),
    (FileFault::FieldType(34737), "GeoAsciiParams (34737) has another type or count than it is to have"),
    (FileFault::FieldType(700), "the field (700) has another type or count than it is to have"),
    (FileFault::Unsupported(700), "the field (700) has another value: such a value isn't read"),
];

/// The text before and after the options of the conversion that helps.
const CONVERT: &str = "Convert it: gdal_translate -co TILED=YES -co COMPRESS=PACKBITS";

const FILES: &str = " in.tif out.tif";

/// The beginning of the words of a conversion that needs the least and the greatest value of a file.
const CONVERT_SCALED: &str =
    "Convert it, with MIN and MAX from gdalinfo -mm: gdal_translate -co TILED=YES -co COMPRESS=PACKBITS";

/// A row has a fault, the value that was found, and the options of the conversion (`gdal_translate` and the driver GTiff of GDAL).
#[rattlefmt::skip]
const OPTIONS: [(FileFault, Option<u64>, &str); 24] = [
    (FileFault::Header, None, " -co BIGTIFF=NO"),
    (FileFault::DirPlace, None, ""),
    (FileFault::DirCount, None, ""),
    (FileFault::TagOrder, None, ""),
    (FileFault::TooManyDirs, None, ""),
    (FileFault::Missing(322), None, ""),
    (FileFault::FieldType(254), None, ""),
    (FileFault::Unsupported(258), Some(1), " -co NBITS=8 -co PHOTOMETRIC=MINISBLACK"),
    (FileFault::Unsupported(258), Some(4), " -co NBITS=8 -co PHOTOMETRIC=MINISBLACK"),
    (FileFault::Unsupported(259), None, ""),
    (FileFault::Unsupported(259), Some(5), ""),
    (FileFault::Unsupported(262), None, " -co PHOTOMETRIC=MINISBLACK"),
    (FileFault::Unsupported(262), Some(3), " -co PHOTOMETRIC=MINISBLACK"),
    (FileFault::Unsupported(262), Some(6), ""),
    (FileFault::Unsupported(277), Some(2), " -b 1"),
    (FileFault::Unsupported(277), Some(4), " -b 1 -b 2 -b 3 -co PHOTOMETRIC=RGB"),
    (FileFault::Unsupported(277), None, " -b 1 -b 2 -b 3 -co PHOTOMETRIC=RGB"),
    (FileFault::Unsupported(284), None, " -co INTERLEAVE=PIXEL"),
    (FileFault::Unsupported(339), Some(2), " -ot UInt16 -scale -32768 32767 0 65535"),
    (FileFault::LevelShape, None, ""),
    (FileFault::TileArray, None, " -co BLOCKXSIZE=512 -co BLOCKYSIZE=512"),
    (FileFault::TileSize, None, " -co BLOCKXSIZE=256 -co BLOCKYSIZE=256"),
    (FileFault::Packet, None, ""),
    (FileFault::KeyPlace, None, ""),
];

/// A row has a fault whose conversion needs the least and the greatest value, and the value that was found.
const SCALED: [(FileFault, Option<u64>); 4] = [
    (FileFault::Unsupported(258), None),
    (FileFault::Unsupported(258), Some(32)),
    (FileFault::Unsupported(339), None),
    (FileFault::Unsupported(339), Some(3)),
];

/// A row has a fault against which no conversion helps, and what does help.
#[rattlefmt::skip]
const WAYS: [(FileFault, &str); 3] = [
    (FileFault::PastEnd, "Copy it anew: it was cut, or isn't written to its end"),
    (FileFault::Outside, "Ask inside a level: describe prints the sides of each"),
    (FileFault::TooLarge, "Ask for less: by --columns C, --level N, or in several windows"),
];

/// A row has a fault, the value that was found, and the line that explains it.
#[rattlefmt::skip]
const EXPLAINED: [(FileFault, Option<u64>, &str); 5] = [
    (
        FileFault::Unsupported(259),
        None,
        "fault 9 259: Compression (259) has another value: only none (1) and PackBits (32773) are read. \
        Convert it: gdal_translate -co TILED=YES -co COMPRESS=PACKBITS in.tif out.tif",
    ),
    (
        FileFault::Unsupported(259),
        Some(5),
        "fault 9 259: Compression (259) is 5 (LZW): only none (1) and PackBits (32773) are read. \
        Convert it: gdal_translate -co TILED=YES -co COMPRESS=PACKBITS in.tif out.tif",
    ),
    (
        FileFault::Unsupported(258),
        Some(32),
        "fault 9 258: BitsPerSample (258) is 32: only 8 or 16 bits are read, the same for all samples. \
        Convert it, with MIN and MAX from gdalinfo -mm: gdal_translate -co TILED=YES -co COMPRESS=PACKBITS \
        -ot UInt16 -scale MIN MAX 0 65535 in.tif out.tif",
    ),
    (
        FileFault::Unsupported(262),
        Some(3),
        "fault 9 262: PhotometricInterpretation (262) is 3 (a palette): only grey, black being 0 (1), and RGB (2) are read. \
        Convert it: gdal_translate -co TILED=YES -co COMPRESS=PACKBITS -co PHOTOMETRIC=MINISBLACK in.tif out.tif",
    ),
    (
        FileFault::PastEnd,
        None,
        "fault 2: bytes that are needed end after the file. Copy it anew: it was cut, or isn't written to its end",
    ),
];

/// A row has a reason why an answer isn't used, and its sentence.
#[rattlefmt::skip]
const REASONS: [(Why, &str); 19] = [
    (Why::Status(301), "301: the file is elsewhere, and redirections aren't followed"),
    (Why::Status(400), "400: the server doesn't take the request"),
    (Why::Status(401), "401: the server doesn't give the file"),
    (Why::Status(403), "403: the server doesn't give the file"),
    (Why::Status(404), "404: the server has no such file"),
    (Why::Status(410), "410: the server has no such file"),
    (Why::Status(416), "416: the file has no such bytes"),
    (Why::Status(429), "429: the server is busy"),
    (Why::Status(503), "503: the server is busy"),
    (Why::Status(500), "500: the server can't answer"),
    (Why::Status(204), "204: neither the file nor a part of it"),
    (Why::Cut, "the answer ends inside its head"),
    (Why::Head, "no head of HTTP/1.1 in 4096 bytes, or more than 32 fields"),
    (Why::NoTag, "no ETag, several, or a malformed one: the server doesn't say which content it is"),
    (Why::WeakTag, "weak tag: the server doesn't say that the bytes are the same"),
    (Why::TagTooLong, "the ETag is too long"),
    (Why::NoRange, "206 without a Content-Range that is read"),
    (Why::NoLength, "no Content-Length, or another than the part's"),
    (Why::Coding, "the answer is coded: by a transfer coding, or compressed"),
];

#[test]
fn tells_faults_as_sentences(rt: HostRuntime) -> Result<(), Fail> {
    for (fault, want) in FAULTS {
        let told = format!(in rt.alloc(); "{}", FaultSentence(fault))?;
        assert_eq!(rt; told.as_str(), want);
    }
    for (fault, want) in FIELDS {
        let told = format!(in rt.alloc(); "{}", FaultSentence(fault))?;
        assert_eq!(rt; told.as_str(), want);
    }
    Ok(())
}

#[test]
fn tells_what_helps(rt: HostRuntime) -> Result<(), Fail> {
    for (fault, found, options) in OPTIONS {
        let told = format!(in rt.alloc(); "{}", WayOut { fault, found })?;
        let want = format!(in rt.alloc(); "{CONVERT}{options}{FILES}")?;
        assert_eq!(rt; told.as_str(), want.as_str());
    }
    for (fault, found) in SCALED {
        let told = format!(in rt.alloc(); "{}", WayOut { fault, found })?;
        let want = format!(in rt.alloc();
            "{CONVERT_SCALED} -ot UInt16 -scale MIN MAX 0 65535{FILES}"
        )?;
        assert_eq!(rt; told.as_str(), want.as_str());
    }
    for (fault, want) in WAYS {
        let told = format!(in rt.alloc(); "{}", WayOut { fault, found: None })?;
        assert_eq!(rt; told.as_str(), want);
    }
    Ok(())
}

#[test]
fn explains_faults(rt: HostRuntime) -> Result<(), Fail> {
    for (fault, found, want) in EXPLAINED {
        let told = format!(in rt.alloc();
            "{}",
            ExplainedFault {
                fault,
                found,
                levels: Vec::new(rt.alloc())
            }
        )?;
        assert_eq!(rt; told.as_str(), want);
    }
    Ok(())
}

/// Returns the file f1 with this compression, at byte 54.
fn file_of(alloc: Global, compression: u8) -> Result<Vec<u8>, AllocError> {
    let mut file = f1(alloc)?;
    if let Some(place) = file.get_mut(54) {
        *place = compression;
    }
    Ok(file)
}

/// Returns the value that explains a fault of f1 with this compression.
fn value_of(alloc: Global, compression: u8, fault: FileFault) -> Result<Option<u64>, AllocError> {
    let file = file_of(alloc, compression)?;
    let explained = ExplainedFault::of(alloc, fault, &WholeFile(&file), &[])?;
    Ok(explained.found)
}

#[test]
fn finds_the_value_that_is_not_read(rt: HostRuntime) -> Result<(), Fail> {
    for (compression, found) in [(1, None), (5, Some(5)), (8, Some(8))] {
        let file = file_of(rt.alloc(), compression)?;
        expect_eq!(rt; found_value(&WholeFile(&file), 259), found);
        let value = value_of(rt.alloc(), compression, FileFault::Unsupported(259))?;
        expect_eq!(rt; value, found);
        let value = value_of(rt.alloc(), compression, FileFault::Missing(259))?;
        expect_eq!(rt; value, None);
    }
    Ok(())
}

#[test]
fn tells_reasons_as_sentences(rt: HostRuntime) -> Result<(), Fail> {
    for (why, want) in REASONS {
        let told = format!(in rt.alloc(); "{}", WhySentence(why))?;
        assert_eq!(rt; told.as_str(), want);
    }
    Ok(())
}
