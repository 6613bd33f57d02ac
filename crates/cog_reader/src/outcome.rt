//! The answers to queries.
use geokeys::Geo;
use tiff_dir::FileFault;

/// The samples of a window of `w` columns and `h` rows. They stand pixel by pixel, row by row. A sample of 16 bits has
/// two bytes, the most significant one first.
#[derive(Debug, Drop, PartialEq, Eq)]
pub struct Window {
    /// The number of columns.
    pub w: u32,
    /// The number of rows.
    pub h: u32,
    /// SamplesPerPixel (277), 1 or 3.
    pub samples: u16,
    /// BitsPerSample (258), 8 or 16.
    pub bits: u16,
    /// The samples, `w * h * samples` of one or two bytes each.
    pub pixels: Vec<u8>,
}

/// The sizes of an image's levels, and what georeferences it (OGC 19-008). Numbers of eight bytes are DOUBLEs (TIFF
/// 6.0, section 2), the most significant byte first.
#[derive(Debug, Drop, PartialEq, Eq)]
pub struct Info {
    /// ImageWidth and ImageLength of each level, in pixels.
    pub sides: Vec<(u32, u32)>,
    /// The keys of GeoKeyDirectory (34735).
    pub geo: Geo,
    /// The three numbers of ModelPixelScale (33550), or `None` where the file has no such field.
    pub scale: Option<Vec<[u8; 8]>>,
    /// The numbers of ModelTiepoint (33922), six for each point, or `None`.
    pub tiepoints: Option<Vec<[u8; 8]>>,
    /// The sixteen numbers of ModelTransformation (34264), row by row, or `None`.
    pub transformation: Option<Vec<[u8; 8]>>,
}

impl Info {
    ghost use Rattle.std.specs.Prelude.{◌≡◌};
    ghost use Rattle.std.specs.Option.{option_copied, option_map};

    /// Returns the numbers of ModelTransformation, as the field `transformation` has them.
    pub fn transform(&self) -> Option<&[[u8; 8]]>
        ensures { option_copied result ≡ option_map (λ numbers. numbers.items) self.now.transformation }
    {
        match &self.transformation {
            None => None,
            Some(numbers) => Some(numbers),
        }
    }
}

/// The answer to a query of a file.
#[derive(Debug, Drop, PartialEq, Eq)]
pub enum Outcome {
    /// The samples of the window.
    Window(Window),
    /// The sizes of the levels, and what georeferences the image.
    Info(Info),
    /// What is wrong with the file, or with the query.
    Fault(FileFault),
}
