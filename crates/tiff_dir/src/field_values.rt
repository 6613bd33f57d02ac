//! The values of fields that the profile accepts, under the standard's names (TIFF 6.0, sections 4, 6, 8, 9 and 19).

/// Compression: the bytes of tiles aren't packed (section 8).
pub const COMPRESSION_NONE: u16 = 1;

/// Compression: packets of PackBits (section 9).
pub const COMPRESSION_PACKBITS: u16 = 32773;

/// PhotometricInterpretation: grey, of which 0 is black (section 4).
pub const BLACK_IS_ZERO: u16 = 1;

/// PhotometricInterpretation: red, green and blue (section 6).
pub const RGB: u16 = 2;

/// PlanarConfiguration: the samples of a pixel stand together (section 8).
pub const CHUNKY: u16 = 1;

/// PlanarConfiguration: each sample stands in a plane of its own (section 8).
pub const PLANAR: u16 = 2;

/// SampleFormat: numbers without a sign (section 19).
pub const UNSIGNED_INTEGER: u16 = 1;
