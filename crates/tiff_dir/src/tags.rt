//! The tags of the fields that are read, under the standard's names. Those of a level are in TIFF 6.0, sections 8, 15
//! and 19. Those that georeference an image are in GeoTIFF 1.1, OGC 19-008, sections 7.1 and 8.

pub const NEW_SUBFILE_TYPE: u16 = 254;

pub const IMAGE_WIDTH: u16 = 256;

pub const IMAGE_LENGTH: u16 = 257;

pub const BITS_PER_SAMPLE: u16 = 258;

pub const COMPRESSION: u16 = 259;

pub const PHOTOMETRIC_INTERPRETATION: u16 = 262;

pub const SAMPLES_PER_PIXEL: u16 = 277;

pub const PLANAR_CONFIGURATION: u16 = 284;

pub const TILE_WIDTH: u16 = 322;

pub const TILE_LENGTH: u16 = 323;

pub const TILE_OFFSETS: u16 = 324;

pub const TILE_BYTE_COUNTS: u16 = 325;

pub const SAMPLE_FORMAT: u16 = 339;

pub const MODEL_PIXEL_SCALE: u16 = 33550;

pub const MODEL_TIEPOINT: u16 = 33922;

pub const MODEL_TRANSFORMATION: u16 = 34264;

pub const GEO_KEY_DIRECTORY: u16 = 34735;

pub const GEO_DOUBLE_PARAMS: u16 = 34736;

pub const GEO_ASCII_PARAMS: u16 = 34737;
