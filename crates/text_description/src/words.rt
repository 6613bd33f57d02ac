//! A description in words, one fact a line.
ghost use Rattle.std.specs.Prelude.{◌≡◌, IfOk, IsTrue, string_bytes};
ghost use Rattle.std.specs.Cow.{cow_str_bytes};
ghost use Rattle.std.specs.List.{list_all};
ghost use Rattle.text_description.specs.Text.{NamesTag, is_visible};

use crate::covering::NoPixels;
use crate::description::Description;
use crate::facts::{CoordinateSystem, LevelFacts, RasterType};
use crate::placement::{Corners, Placement};
use crate::world::WorldFile;
use cog_client::Memory;
use ryu::Buffer;
use std::alloc::Global;
use std::fmt;
use text_report::EscapedText;

/// Prints a number as the shortest decimal that stands for it.
#[derive(Clone, Copy)]
struct Number(f64);

impl fmt::Display for Number {
    fn fmt<W: fmt::Write>(&self, f: &mut fmt::Formatter<W>) -> fmt::Result {
        f.write_str(Buffer::new().format(self.0))
    }
}

/// Prints two numbers.
#[derive(Clone, Copy)]
struct Pair((f64, f64));

impl fmt::Display for Pair {
    fn fmt<W: fmt::Write>(&self, f: &mut fmt::Formatter<W>) -> fmt::Result {
        write!(f, "{} {}", Number(self.0.0), Number(self.0.1))
    }
}

/// Prints a number and a noun, which is in the plural unless the number is 1.
#[derive(Clone, Copy)]
struct CountedNoun(u32, &'static str);

impl fmt::Display for CountedNoun {
    fn fmt<W: fmt::Write>(&self, f: &mut fmt::Formatter<W>) -> fmt::Result {
        let ending = if self.0 == 1 { "" } else { "s" };
        write!(f, "{} {}{ending}", self.0, self.1)
    }
}

impl fmt::Display for LevelFacts {
    fn fmt<W: fmt::Write>(&self, f: &mut fmt::Formatter<W>) -> fmt::Result {
        let (width, length) = self.size;
        write!(f, "{width} columns, {length} rows, ")?;
        let samples = CountedNoun(u32::from(self.samples), "sample");
        write!(
            f,
            "{samples} of {} bits, photometric {}, ",
            self.bits, self.photometric
        )?;
        let (across, down) = self.block;
        let tiles = CountedNoun(self.tiles, "tile");
        write!(
            f,
            "compression {}, {tiles} of {across} by {down}",
            self.compression
        )?;
        match self.bytes {
            Some(bytes) => write!(f, ", {bytes} bytes"),
            None => Ok(()),
        }
    }
}

impl fmt::Display for CoordinateSystem<'_> {
    fn fmt<W: fmt::Write>(&self, f: &mut fmt::Formatter<W>) -> fmt::Result {
        f.write_str("coordinate system")?;
        if let Some(number) = self.number {
            write!(f, " {number}")?;
        }
        if let Some(name) = &self.name {
            write!(f, " ({})", EscapedText(name.as_str()))?;
        }
        Ok(())
    }
}

impl fmt::Display for Placement {
    fn fmt<W: fmt::Write>(&self, f: &mut fmt::Formatter<W>) -> fmt::Result {
        writeln!(f, "origin {}", Pair((self.left, self.top)))?;
        if self.across.1 == 0.0 && self.down.0 == 0.0 {
            return writeln!(f, "size of a pixel {}", Pair((self.across.0, self.down.1)));
        }
        writeln!(f, "from a column to the next {}", Pair(self.across))?;
        writeln!(f, "from a row to the next {}", Pair(self.down))
    }
}

impl fmt::Display for Corners {
    fn fmt<W: fmt::Write>(&self, f: &mut fmt::Formatter<W>) -> fmt::Result {
        writeln!(f, "upper left {}", Pair(self.upper_left))?;
        writeln!(f, "lower left {}", Pair(self.lower_left))?;
        writeln!(f, "upper right {}", Pair(self.upper_right))?;
        writeln!(f, "lower right {}", Pair(self.lower_right))?;
        writeln!(f, "center {}", Pair(self.center))
    }
}

impl fmt::Display for NoPixels {
    fn fmt<W: fmt::Write>(&self, f: &mut fmt::Formatter<W>) -> fmt::Result {
        f.write_str(match self {
            NoPixels::NotPlaced =>
                "the file doesn't say where its pixels lie. Give X Y W H, in pixels",
            NoPixels::Turned =>
                "the image is turned, or its pixels have no size. Give X Y W H, in pixels",
            NoPixels::Outside =>
                "the rectangle meets no pixel. Give W S E N in the file's own coordinates: describe prints those of its corners",
        })
    }
}

impl fmt::Display for WorldFile {
    fn fmt<W: fmt::Write>(&self, f: &mut fmt::Formatter<W>) -> fmt::Result {
        writeln!(f, "{}", Number(self.across.0))?;
        writeln!(f, "{}", Number(self.across.1))?;
        writeln!(f, "{}", Number(self.down.0))?;
        writeln!(f, "{}", Number(self.down.1))?;
        writeln!(f, "{}", Number(self.first.0))?;
        writeln!(f, "{}", Number(self.first.1))
    }
}

impl fmt::Display for RasterType {
    fn fmt<W: fmt::Write>(&self, f: &mut fmt::Formatter<W>) -> fmt::Result {
        f.write_str(match self {
            RasterType::Area => "a pixel is an area",
            RasterType::Point =>
                "a pixel is a point: the image begins half a pixel before the first one",
        })
    }
}

/// Prints what a description says after its ETag, one fact a line.
#[derive(Clone, Copy)]
struct FactLines<'d, 'a>(&'d Description<'a>);

impl fmt::Display for FactLines<'_, '_> {
    fn fmt<W: fmt::Write>(&self, f: &mut fmt::Formatter<W>) -> fmt::Result {
        let description = self.0;
        writeln!(f, "{} bytes", description.length)?;
        for (number, level) in description.levels.iter().enumerate() {
            writeln!(f, "level {number}: {level}")?;
        }
        if let Some(no_data) = &description.no_data {
            let value = EscapedText(no_data.as_str());
            writeln!(f, "pixels with the value {value} mean no data, by the file")?;
        }
        if let Some(masks) = description.masks
            && masks > 0
        {
            let masks = CountedNoun(u32::from(masks), "mask");
            writeln!(f, "{masks}, not read")?;
        }
        if let Some(system) = &description.coordinate_system {
            writeln!(f, "{system}")?;
        }
        if let Some(raster_type) = description.raster_type {
            writeln!(f, "{raster_type}")?;
        }
        if let Some(placement) = &description.placement {
            write!(f, "{placement}")?;
        }
        match &description.corner_coordinates {
            Some(corners) => write!(f, "{corners}"),
            None => Ok(()),
        }
    }
}

/// Returns whether a byte is a visible character of ASCII.
fn is_visible(byte: u8) -> bool
    ensures { result ≡ is_visible byte }
{
    byte >= b'!' && byte <= b'~'
}

/// Returns whether each byte is a visible character of ASCII.
fn are_visible(bytes: &[u8]) -> bool
    ensures { result ≡ list_all is_visible bytes.now }
{
    bytes.iter().all(|byte| is_visible(*byte))
}

/// Returns an ETag as it is printed: with each control character as `\u{..}`. One of visible characters of ASCII stays as it is. Fails
/// where no memory is left.
fn printed_tag(alloc: Global, tag: &str) -> Result<String, Memory>
    ensures { IfOk result (λ text. IsTrue (list_all is_visible tag.now) → string_bytes text ≡ tag.now) }
{
    if !are_visible(tag.as_bytes()) {
        return Ok(format!(in alloc; "{}", EscapedText(tag))?);
    }
    let mut text = String::new(alloc);
    text.push_str(tag)?;
    Ok(text)
}

/// Returns a description in words: a line with its ETag, and then the other facts. Fails where no memory is left.
pub(crate) fn words_of(alloc: Global, description: &Description<'_>) -> Result<String, Memory>
    ensures { IfOk result (λ text. NamesTag (cow_str_bytes description.now.tag) (string_bytes text)) }
{
    let tag = printed_tag(alloc, description.tag.as_str())?;
    let facts = format!(in alloc; "{}", FactLines(description))?;
    let mut text = String::new(alloc);
    text.push_str("tag ")?;
    text.push_str(&tag)?;
    text.push_str("\n")?;
    text.push_str(&facts)?;
    Ok(text)
}
