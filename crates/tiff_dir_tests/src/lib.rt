//! Tests of the public calls of `tiff_dir`: walks over whole files, levels, tiles, faults in their order, and geo fields.
#![tactic(auto)]

#[cfg(test)]
mod tests;
