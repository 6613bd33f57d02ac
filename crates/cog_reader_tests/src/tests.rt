//! Tests of a reader.
use tiff_dir::Span;

mod beside;
mod faults;
mod fixtures;
mod image;
mod in_turn;
mod info;
mod memory;
mod pieces;
mod ranges;
mod short_files;
mod windows;

/// The first byte and the length of a range.
type Range = (u64, u64);

/// Returns whether the spans are these ranges.
fn are_ranges(spans: &[Span], ranges: &[Range]) -> bool {
    spans.len() == ranges.len()
        && spans.iter().zip(ranges.iter()).all(|(span, range)| {
            span.first == range.0 && span.last.checked_add(1) == range.0.checked_add(range.1)
        })
}
