//! Sentences on what is wrong with a file.
ghost use Rattle.std.specs.Prelude.{◌≡◌, IfOk, IfSome, List, ℕ};
ghost use Rattle.text_report.specs.Found.{IsFoundIn};

use crate::found::{found_value, value_name};
use known_fields::KnownBytes;
use std::alloc::{AllocError, Global};
use std::fmt;
use tiff_dir::limits::MAX_WINDOW_SAMPLES;
use tiff_dir::{FileFault, Level, tags};

/// Prints a fault of a file as a sentence without a full stop.
#[derive(Clone, Copy, Debug, PartialEq, Eq)]
pub struct FaultSentence(pub FileFault);

/// Prints a field by its tag, after its name where this table has one (TIFF 6.0, section 8; GeoTIFF 1.1).
#[derive(Clone, Copy)]
struct FieldName(u16);

impl fmt::Display for FieldName {
    fn fmt<W: fmt::Write>(&self, f: &mut fmt::Formatter<W>) -> fmt::Result {
        let tag = self.0;
        let name = match tag {
            tags::NEW_SUBFILE_TYPE => "NewSubfileType",
            tags::IMAGE_WIDTH => "ImageWidth",
            tags::IMAGE_LENGTH => "ImageLength",
            tags::BITS_PER_SAMPLE => "BitsPerSample",
            tags::COMPRESSION => "Compression",
            tags::PHOTOMETRIC_INTERPRETATION => "PhotometricInterpretation",
            tags::SAMPLES_PER_PIXEL => "SamplesPerPixel",
            tags::PLANAR_CONFIGURATION => "PlanarConfiguration",
            tags::TILE_WIDTH => "TileWidth",
            tags::TILE_LENGTH => "TileLength",
            tags::TILE_OFFSETS => "TileOffsets",
            tags::TILE_BYTE_COUNTS => "TileByteCounts",
            tags::SAMPLE_FORMAT => "SampleFormat",
            tags::MODEL_PIXEL_SCALE => "ModelPixelScale",
            tags::MODEL_TIEPOINT => "ModelTiepoint",
            tags::MODEL_TRANSFORMATION => "ModelTransformation",
            tags::GEO_KEY_DIRECTORY => "GeoKeyDirectory",
            tags::GEO_DOUBLE_PARAMS => "GeoDoubleParams",
            tags::GEO_ASCII_PARAMS => "GeoAsciiParams",
            _ => "the field",
        };
        write!(f, "{name} ({tag})")
    }
}

/// Returns which values of the field `tag` are read.
fn taken(tag: u16) -> &'static str {
    match tag {
        tags::BITS_PER_SAMPLE => "only 8 or 16 bits are read, the same for all samples",
        tags::COMPRESSION => "only none (1) and PackBits (32773) are read",
        tags::PHOTOMETRIC_INTERPRETATION => "only grey, black being 0 (1), and RGB (2) are read",
        tags::SAMPLES_PER_PIXEL => "only one sample that is grey, or three that are RGB, are read",
        tags::PLANAR_CONFIGURATION => "only samples side by side (1) are read",
        tags::SAMPLE_FORMAT => "only samples without a sign (1) are read",
        _ => "such a value isn't read",
    }
}

/// Returns why the field `tag` has to be there.
fn needed(tag: u16) -> &'static str {
    match tag {
        tags::TILE_WIDTH | tags::TILE_LENGTH => "only tiles are read, no strips",
        _ => "it is needed",
    }
}

impl fmt::Display for FaultSentence {
    fn fmt<W: fmt::Write>(&self, f: &mut fmt::Formatter<W>) -> fmt::Result {
        match self.0 {
            FileFault::Missing(tag) => {
                return write!(f, "a level has no {}: {}", FieldName(tag), needed(tag));
            }
            FileFault::FieldType(tag) => {
                return write!(
                    f,
                    "{} has another type or count than it is to have",
                    FieldName(tag)
                );
            }
            FileFault::Unsupported(tag) => {
                return write!(f, "{} has another value: {}", FieldName(tag), taken(tag));
            }
            _ => {}
        }
        f.write_str(plain_sentence(self.0))
    }
}

/// Returns the sentence of a fault, without the name of its field. The help, `docs/PROFILE.md`, the header for C and the Python package
/// have the same sentences.
fn plain_sentence(fault: FileFault) -> &'static str {
    match fault {
        FileFault::Header => "no classic TIFF: the byte order or the number 42 is wrong",
        FileFault::PastEnd => "bytes that are needed end after the file",
        FileFault::DirPlace => "a directory's offset is odd or below 8",
        FileFault::DirCount => "a directory has no entries, or more than 256",
        FileFault::TagOrder => "the tags of a directory don't ascend",
        FileFault::TooManyDirs => "more than 16 directories",
        FileFault::Missing(_) => "a level lacks this field",
        FileFault::FieldType(_) => "this field has another type or count",
        FileFault::Unsupported(_) => "a value of this field isn't read",
        FileFault::LevelShape => {
            "a side is 0, the first image is a reduced one, or a level isn't smaller than the one before"
        }
        FileFault::TileArray => {
            "the array of tiles has not as many values as there are tiles, or more than 65536"
        }
        FileFault::TileSize => "a tile's side, plain size or byte count is wrong",
        FileFault::Packet => {
            "the packed bytes of a tile are no packets that fill it exactly, row by row"
        }
        FileFault::Outside => {
            "the window is empty or passes its level, there is no such level, or 0 columns are asked for"
        }
        FileFault::TooLarge => "more than 4194304 samples, or a geo field of more than 65536 bytes",
        FileFault::KeyHead => "the geo keys' version, revision or length is wrong",
        FileFault::KeyOrder => "the geo keys don't ascend",
        FileFault::KeyPlace => "a geo key's values aren't where it says",
    }
}

/// Prints what helps against a fault, as a sentence without a full stop. `found` is the value that isn't read, if it is known.
#[derive(Clone, Copy, Debug, PartialEq, Eq)]
pub struct WayOut {
    pub fault: FileFault,
    pub found: Option<u64>,
}

/// The PhotometricInterpretation of most JPEG files (TIFF 6.0, section 21), which GDAL reads as RGB.
const YCBCR: u64 = 6;

/// The SampleFormat of integers with a sign (TIFF 6.0, section 19). Those of 16 bits are converted by adding 32768.
const SIGNED: u64 = 2;

/// Options that map the values of a file to 16 bits. Without numbers GDAL maps them to 0 to 255.
const SCALED: &str = " -ot UInt16 -scale MIN MAX 0 65535";

/// Returns what helps against a fault that no conversion mends, or `None` where one may mend it.
fn way_without_conversion(fault: FileFault) -> Option<&'static str> {
    match fault {
        FileFault::PastEnd => Some("Copy it anew: it was cut, or isn't written to its end"),
        FileFault::Outside => Some("Ask inside a level: describe prints the sides of each"),
        FileFault::TooLarge => Some(
            "Ask for less: by --columns C, --level N, or in several windows",
        ),
        _ => None,
    }
}

/// Returns the options of `gdal_translate` against a value of the field `tag`, `found` if it is known, that isn't read.
fn options_for_value(tag: u16, found: Option<u64>) -> &'static str {
    match (tag, found) {
        (tags::BITS_PER_SAMPLE, Some(1 | 2 | 4)) => " -co NBITS=8 -co PHOTOMETRIC=MINISBLACK",
        (tags::BITS_PER_SAMPLE, _) => SCALED,
        (tags::PHOTOMETRIC_INTERPRETATION, Some(YCBCR)) => "",
        (tags::PHOTOMETRIC_INTERPRETATION, _) => " -co PHOTOMETRIC=MINISBLACK",
        (tags::SAMPLES_PER_PIXEL, Some(2)) => " -b 1",
        (tags::SAMPLES_PER_PIXEL, _) => " -b 1 -b 2 -b 3 -co PHOTOMETRIC=RGB",
        (tags::PLANAR_CONFIGURATION, _) => " -co INTERLEAVE=PIXEL",
        (tags::SAMPLE_FORMAT, Some(SIGNED)) => " -ot UInt16 -scale -32768 32767 0 65535",
        (tags::SAMPLE_FORMAT, _) => SCALED,
        _ => "",
    }
}

/// Returns the options of `gdal_translate` for the conversion that helps against a fault, beside those that each conversion has.
fn options_for(fault: FileFault, found: Option<u64>) -> &'static str {
    match fault {
        FileFault::Header => " -co BIGTIFF=NO",
        FileFault::TileArray => " -co BLOCKXSIZE=512 -co BLOCKYSIZE=512",
        FileFault::TileSize => " -co BLOCKXSIZE=256 -co BLOCKYSIZE=256",
        FileFault::Unsupported(tag) => options_for_value(tag, found),
        _ => "",
    }
}

impl fmt::Display for WayOut {
    fn fmt<W: fmt::Write>(&self, f: &mut fmt::Formatter<W>) -> fmt::Result {
        if let Some(words) = way_without_conversion(self.fault) {
            return f.write_str(words);
        }
        let options = options_for(self.fault, self.found);
        f.write_str("Convert it")?;
        if options == SCALED {
            f.write_str(", with MIN and MAX from gdalinfo -mm")?;
        }
        write!(
            f,
            ": gdal_translate -co TILED=YES -co COMPRESS=PACKBITS{options} in.tif out.tif"
        )
    }
}

/// Holds a fault of a file, and what is known of the file that explains it.
#[derive(Debug, Drop)]
pub struct ExplainedFault {
    pub fault: FileFault,
    /// A value of the field that the fault is about, which isn't read.
    pub found: Option<u64>,
    /// The levels of the file, as far as they are known.
    pub levels: Vec<Level>,
}

impl ExplainedFault {
    /// Returns the fault with the value that the known bytes of the file have, where the fault is of a value. `levels` are those of the
    /// file. Fails where no memory is left.
    pub fn of<B: KnownBytes>(
        alloc: Global,
        fault: FileFault,
        bytes: &B,
        levels: &[Level],
    ) -> Result<ExplainedFault, AllocError>
        ensures fault { IfOk result (λ explained. explained.fault ≡ fault) }
        ensures found { IfOk result (λ explained. IfSome explained.found
            (λ v. (f : List ℕ) → B.is_of bytes.now f → IsFoundIn f fault v)) }
        ensures levels { IfOk result (λ explained. explained.levels.items ≡ levels.now) }
    {
        let found = match fault {
            FileFault::Unsupported(tag) => found_value(bytes, tag),
            _ => None,
        };
        Ok(ExplainedFault {
            fault,
            found,
            levels: Vec::from_slice(alloc, levels)?,
        })
    }
}

/// Prints a field with the value that was found, and the values that are read.
#[derive(Clone, Copy)]
struct FoundSentence(u16, u64);

impl fmt::Display for FoundSentence {
    fn fmt<W: fmt::Write>(&self, f: &mut fmt::Formatter<W>) -> fmt::Result {
        let FoundSentence(tag, value) = *self;
        write!(f, "{} is {value}", FieldName(tag))?;
        if let Some(name) = value_name(tag, value) {
            write!(f, " ({name})")?;
        }
        write!(f, ": {}", taken(tag))
    }
}

/// Prints the sides of each level.
#[derive(Clone, Copy)]
struct SidesOfLevels<'a>(&'a [Level]);

impl fmt::Display for SidesOfLevels<'_> {
    fn fmt<W: fmt::Write>(&self, f: &mut fmt::Formatter<W>) -> fmt::Result {
        for (number, level) in self.0.iter().enumerate() {
            if number > 0 {
                f.write_str(", ")?;
            }
            let (columns, rows) = (level.width, level.length);
            write!(f, "level {number} has {columns} columns and {rows} rows")?;
        }
        Ok(())
    }
}

/// Returns how many samples the whole of a level has.
fn samples_of(level: &Level) -> u64 {
    u64::from(level.width)
        .saturating_mul(u64::from(level.length))
        .saturating_mul(u64::from(level.samples))
}

/// Returns the number of the largest level of which one window may have the whole, or `None` where there is none.
fn whole_level(levels: &[Level]) -> Option<usize> {
    levels
        .iter()
        .position(|level| samples_of(level) <= MAX_WINDOW_SAMPLES)
}

impl ExplainedFault {
    fn way(&self) -> WayOut {
        WayOut {
            fault: self.fault,
            found: self.found,
        }
    }

    /// Prints what helps against the fault.
    fn print_way<W: fmt::Write>(&self, f: &mut fmt::Formatter<W>) -> fmt::Result {
        match self.fault {
            FileFault::Outside if !self.levels.is_empty() => {
                write!(f, "Ask inside a level: {}", SidesOfLevels(&self.levels))
            }
            FileFault::TooLarge => match whole_level(&self.levels) {
                Some(number) => {
                    write!(
                        f,
                        "Ask for less: --level {number} is the largest that fits whole"
                    )
                }
                None if self.levels.len() == 1 => f.write_str("Ask for less, in several windows"),
                None => write!(f, "{}", self.way()),
            },
            _ => write!(f, "{}", self.way()),
        }
    }
}

/// Prints the fault as one line: its number, the tag of its field if it is about one, its sentence, and what helps against it.
impl fmt::Display for ExplainedFault {
    fn fmt<W: fmt::Write>(&self, f: &mut fmt::Formatter<W>) -> fmt::Result {
        let fault = self.fault;
        write!(f, "fault {}", fault.number())?;
        if let Some(tag) = fault.tag() {
            write!(f, " {tag}")?;
        }
        match (fault, self.found) {
            (FileFault::Unsupported(tag), Some(value)) => {
                write!(f, ": {}. ", FoundSentence(tag, value))?;
            }
            _ => write!(f, ": {}. ", FaultSentence(fault))?,
        }
        self.print_way(f)
    }
}
