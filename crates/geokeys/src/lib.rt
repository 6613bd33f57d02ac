//! Reads the keys of a GeoTIFF file from its key directory (OGC 19-008, section 7.1.1).
#![tactic(auto)]

mod entry;
mod geo;
mod items;
mod laws;

pub use geo::{Geo, Key, KeyValue};
pub use items::doubles;
pub use laws::law_one_geo;
/// Why there are no keys: the directory has a fault, or an allocation failed.
pub use tiff_dir::WalkError as GeoError;
