//! Byte ranges of a content (RFC 9110, section 14).
ghost use Rattle.std.specs.Prelude.{◌≡◌, ◌≤◌, ◌<◌, ◌^◌, ◌↔◌, ℕ, List, take, option_map, Some, codes};
ghost use Rattle.std.specs.Str.{bytes_eq, str_to_ascii_lowercase};
ghost use Rattle.http_fields.specs.Digits.{number};
ghost use Rattle.http_range.specs.Range.{IsRangeText, between, spec_by, spec_behind, range_spec, resolved, resolved_or, part, capped_spec};
ghost use Rattle.http_range.specs.Ask.{range_value};

use http_fields::bytes::{is_same_word, past, place_of, split_first, up_to};
use http_fields::laws::law_parts_are_read;
use http_fields::numeral::{capped, in_order, is_number, number};

/// The value of a Range field. Positions count from 0, and the last one belongs to the range.
#[derive(Clone, Copy, Debug, PartialEq, Eq)]
pub enum RangeSpec {
    /// From a first to a last position.
    Between(u64, u64),
    /// From a position to the end.
    From(u64),
    /// The last bytes, as many as the value says.
    Suffix(u64),
}

/// What a byte range names in a content.
#[derive(Clone, Copy, Debug, PartialEq, Eq)]
pub enum Resolved {
    /// All of it.
    Whole,
    /// From a first to a last position.
    Part(u64, u64),
    /// None of its positions.
    Unsatisfiable,
}

fn between(first: &[u8], last: &[u8]) -> Option<RangeSpec>
    ensures { result ≡ option_map capped_spec (between (number first.now) (number last.now)) }
{
    if !is_number(first) {
        return None;
    }
    if !is_number(last) {
        return None;
    }
    if !in_order(first, last) {
        return None;
    }
    Some(RangeSpec::Between(capped(first), capped(last)))
}

fn suffix(text: &[u8]) -> Option<RangeSpec>
    ensures { result ≡ option_map capped_spec (option_map RangeSpec.Suffix (number text.now)) }
{
    match number(text) {
        None => None,
        Some(n) => Some(RangeSpec::Suffix(n)),
    }
}

fn from(text: &[u8]) -> Option<RangeSpec>
    ensures { result ≡ option_map capped_spec (option_map RangeSpec.From (number text.now)) }
{
    match number(text) {
        None => None,
        Some(n) => Some(RangeSpec::From(n)),
    }
}

fn spec_by(first: &[u8], last: &[u8]) -> Option<RangeSpec>
    ensures { result ≡ option_map capped_spec (spec_by first.now last.now) }
{
    if first.len() == 0 {
        return suffix(last);
    }
    if last.len() == 0 {
        return from(first);
    }
    between(first, last)
}

fn spec_behind(text: &[u8]) -> Option<RangeSpec>
    ensures { result ≡ option_map capped_spec (spec_behind text.now) }
{
    if place_of(text, b'-') >= text.len() {
        return None;
    }
    let (first, last) = split_first(text, b'-');
    spec_by(first, last)
}

fn has_unit(text: &[u8]) -> bool
    ensures { result ≡ bytes_eq (str_to_ascii_lowercase (take 6 text.now)) (codes "bytes=") }
{
    is_same_word(up_to(text, 6), b"bytes=")
}

#[tactic(auto, unfolding(crate::specs::Range::range_spec))]
fn read(value: &[u8]) -> Option<RangeSpec>
    ensures { result ≡ option_map capped_spec (range_spec value.now) }
{
    if !has_unit(value) {
        return None;
    }
    spec_behind(past(value, 6))
}

/// Reads the value of a Range field. Numbers past 64 bits are lowered to the greatest of 64 bits. Returns `None` where
/// the value is no range of bytes (RFC 9110, section 14.1.1). Returns `None`, too, where it has several ranges, or
/// white space. Section 14.2 allows to ignore these.
///
/// ```
/// let range = read_range(b"bytes=0-99");
/// if let Resolved::Part(first, last) = resolve(range, 378) {
///     println!(rt; "bytes {first}-{last}/378")?;
/// }
/// ```
pub fn read_range(value: &[u8]) -> Option<RangeSpec>
    ensures value { result ≡ option_map capped_spec (range_spec value.now) }

    // A range is read exactly where the value has one of the three forms, and it is that form's.
    ensures forms { (spec : RangeSpec) → (range_spec value.now ≡ Some spec) ↔ IsRangeText value.now spec }

    // The range of a client's request is read as what was asked.
    ensures written { (first last : ℕ) → first ≤ last → last < 2 ^ 64
        → value.now ≡ range_value first last → result ≡ Some (RangeSpec.Between first last) }
{
    law_parts_are_read();
    read(value)
}

/// Returns what the range names in a content of `len` bytes (RFC 9110, section 14.1.2). This is all of it where `spec`
/// is `None`, a part of it, or nothing. The answer is 416 where it is nothing.
pub fn resolve(spec: Option<RangeSpec>, len: u64) -> Resolved
    requires { 1 ≤ len }
    ensures value { result ≡ resolved_or spec len }

    // After `read_range` it is the part that the value names, for digit strings of any length.
    ensures of_text { (text : List ℕ) → spec ≡ option_map capped_spec (range_spec text)
        → result ≡ part text len }
{
    match spec {
        None => Resolved::Whole,
        Some(spec) => part_of(spec, len),
    }
}

fn part_of(spec: RangeSpec, len: u64) -> Resolved
    requires { 1 ≤ len }
    ensures { result ≡ resolved spec len }
{
    match spec {
        RangeSpec::Between(a, b) => {
            if a < len {
                Resolved::Part(a, b.min(len - 1))
            } else {
                Resolved::Unsatisfiable
            }
        }
        RangeSpec::From(a) => {
            if a < len {
                Resolved::Part(a, len - 1)
            } else {
                Resolved::Unsatisfiable
            }
        }
        RangeSpec::Suffix(n) => {
            if n == 0 {
                Resolved::Unsatisfiable
            } else {
                Resolved::Part(len.saturating_sub(n), len - 1)
            }
        }
    }
}
