//! The faults of a file, found in the whole file by a plain program. It stands beside the definitions `IsFaultOfDirectories` and `IsFaulty`
//! of `tiff_dir`, condition by condition, and has no order of checks. Tests compare the product with it, and nothing else stands on it.
#![tactic(auto)]

mod directories;
mod fields;
mod infos;
mod keys;
mod levels;
mod rules;
mod stands;
mod values;
mod windows;

pub use directories::faults_of_directories;
pub use stands::faults;
