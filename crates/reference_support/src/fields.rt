//! The fields of a directory, and their values.
ghost use Rattle.std.specs.Prelude.{◌≡◌, ◌<◌, ◌^◌, ◌+◌, ◌*◌, IfSome, false, ◌==◌, length, Option};
ghost use Rattle.std.specs.Option.{option_map, option_map_or};
ghost use Rattle.tiff_dir.specs.Level.{place_of};
ghost use Rattle.tiff_dir.specs.File.{default_of, field, field_at, field_value, fields_from, has_all_tags, kind_of, value, values_at};
ghost use Rattle.tiff_dir.specs.Table.{field_with_tag};
ghost use Rattle.reference_support.specs.Entry.{field_of, place_in};

use crate::directories::{directory, entry_count};
use crate::numbers::{long, number, short};
use tiff_dir::tags::{NEW_SUBFILE_TYPE, PLANAR_CONFIGURATION, SAMPLE_FORMAT, SAMPLES_PER_PIXEL};
use tiff_dir::{Kind, Place};

/// What an entry says of its field, and where the entry stands. Type and count are there where their bytes are in the file.
#[derive(Clone, Copy, Debug, PartialEq, Eq)]
pub struct Entry {
    pub tag: u16,
    pub kind: Option<u16>,
    pub count: Option<u32>,
    pub place: u64,
}

/// Returns the entry at this place, where its tag is in the file.
#[tactic(auto, unfolding(tiff_dir::specs::File::field_at))]
fn entry_at(file: &[u8], at: u64) -> Option<Entry>
    requires { at < 2 ^ 62 }
    ensures entry { option_map field_of result ≡ field_at file.now at }
    ensures near { IfSome result (λ e. e.place < 2 ^ 62) }
{
    let tag = short(file, at)?;
    Some(Entry {
        tag,
        kind: short(file, at + 2),
        count: long(file, at + 4),
        place: at,
    })
}

fn has_tag(entry: Option<Entry>, tag: u16) -> bool
    ensures { result ≡ option_map_or (λ e. e.tag == tag) entry false }
{
    match entry {
        Some(entry) => entry.tag == tag,
        None => false,
    }
}

/// Returns the first of the `entries` entries from `first` that has the tag.
fn find_entry(file: &[u8], first: u64, entries: u16, tag: u16) -> Option<Entry>
    requires { first + 12 * entries < 2 ^ 62 }
    ensures found { option_map field_of result ≡ field_with_tag tag (fields_from file.now first entries) }
    ensures near { IfSome result (λ e. e.place < 2 ^ 62) }
{
    for i in 0..u64::from(entries) {
        let entry = entry_at(file, first + 12 * i);
        if has_tag(entry, tag) {
            return entry;
        }
    }
    None
}

/// Returns how many of the `entries` entries from `first` have their tags in the file.
fn count_tags(file: &[u8], first: u64, entries: u16) -> u64
    requires { first + 12 * entries < 2 ^ 62 }
    ensures { result ≡ length (fields_from file.now first entries) }
{
    let mut count = 0;
    for i in 0..u64::from(entries) {
        let entry = entry_at(file, first + 12 * i);
        if entry.is_some() {
            count += 1;
        }
    }
    count
}

/// Returns the field with the tag in directory `k`.
#[tactic(auto, unfolding(tiff_dir::specs::File::field, tiff_dir::specs::File::fields))]
pub fn field(file: &[u8], k: u32, tag: u16) -> Option<Entry>
    ensures found { option_map field_of result ≡ field file.now k tag }
    ensures near { IfSome result (λ e. e.place < 2 ^ 62) }
{
    let at = u64::from(directory(file, k)?);
    let entries = entry_count(file, k)?;
    find_entry(file, at + 2, entries, tag)
}

/// Returns whether the tags of all entries of directory `k` are in the file.
#[tactic(auto, unfolding(tiff_dir::specs::File::has_all_tags, tiff_dir::specs::File::fields, tiff_dir::specs::File::entry_count))]
pub fn has_all_tags(file: &[u8], k: u32) -> bool
    ensures { result ≡ has_all_tags file.now k }
{
    let Some(at) = directory(file, k) else {
        return false;
    };
    match short(file, u64::from(at)) {
        Some(entries) => { count_tags(file, u64::from(at) + 2, entries) == u64::from(entries) }
        None => false,
    }
}

/// Returns the type of this number.
pub fn kind_of(number: u16) -> Option<Kind>
    ensures { result ≡ kind_of number }
{
    match number {
        1 => Some(Kind::Byte),
        2 => Some(Kind::Ascii),
        3 => Some(Kind::Short),
        4 => Some(Kind::Long),
        5 => Some(Kind::Rational),
        6 => Some(Kind::SignedByte),
        7 => Some(Kind::Undefined),
        8 => Some(Kind::SignedShort),
        9 => Some(Kind::SignedLong),
        10 => Some(Kind::SignedRational),
        11 => Some(Kind::Float),
        12 => Some(Kind::Double),
        _ => None,
    }
}

/// Returns where values of `len` bytes of the field begin.
#[tactic(auto, unfolding(tiff_dir::specs::File::values_at))]
fn values_at(file: &[u8], entry: Entry, len: u64) -> Option<u64>
    requires { entry.place < 2 ^ 62 }
    ensures at { result ≡ values_at file.now (field_of entry) len }
    ensures near { IfSome result (λ at. at < 2 ^ 62 + 8) }
{
    if len <= 4 {
        Some(entry.place + 8)
    } else {
        Some(u64::from(long(file, entry.place + 8)?))
    }
}

/// Returns value `i` of the field.
#[tactic(auto, unfolding(tiff_dir::specs::File::field_value))]
pub fn field_value(file: &[u8], entry: Entry, i: u64) -> Option<u64>
    requires { entry.place < 2 ^ 62 }
    ensures { result ≡ field_value file.now (field_of entry) i }
{
    let kind = kind_of(entry.kind?)?;
    let count = entry.count?;
    let at = values_at(file, entry, u64::from(count) * kind.size())?;
    if i >= u64::from(count) {
        return None;
    }
    number(file, at + i * kind.size(), kind.size() as usize)
}

/// Returns what each value of an absent field stands for.
fn default_of(tag: u16) -> Option<u64>
    ensures { result ≡ default_of tag }
{
    match tag {
        NEW_SUBFILE_TYPE => Some(0),
        SAMPLES_PER_PIXEL | PLANAR_CONFIGURATION | SAMPLE_FORMAT => Some(1),
        _ => None,
    }
}

/// Returns value `i` of the field with this tag in directory `k`.
#[tactic(auto, unfolding(tiff_dir::specs::File::value))]
pub fn value(file: &[u8], k: u32, tag: u16, i: u64) -> Option<u64>
    ensures { result ≡ value file.now k tag i }
{
    match field(file, k, tag) {
        Some(entry) => field_value(file, entry, i),
        None if has_all_tags(file, k) => default_of(tag),
        None => None,
    }
}

/// Returns where the values of a field stand.
#[tactic(auto, unfolding(tiff_dir::specs::Level::place_of))]
fn place_of(file: &[u8], entry: Entry) -> Option<Place>
    requires { entry.place < 2 ^ 62 }
    ensures { result ≡ place_of file.now (field_of entry) }
{
    let kind = kind_of(entry.kind?)?;
    let count = entry.count?;
    let len = u64::from(count) * kind.size();
    let first = values_at(file, entry, len)?;
    Some(Place {
        first,
        len,
        count,
        kind,
    })
}

/// Returns where the values of the field with this tag in directory `k` stand.
pub fn place(file: &[u8], k: u32, tag: u16) -> Option<Place>
    ensures { result ≡ place_in file.now k tag }
{
    place_of(file, field(file, k, tag)?)
}
