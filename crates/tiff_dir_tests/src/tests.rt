//! Files whose directories tests write entry by entry, and walks over them.
ghost use Rattle.std.specs.Prelude.{IfOk};
ghost use Rattle.reference_support.specs.Walked.{IsWalked};

use reference_support::{Course, walk_over};
use std::test::Fail;
use tiff_dir::{FileFault, Kind, Memory, Order, Place, Walk};

mod assertions;
mod chains;
mod depths;
mod faults;
mod geo;
mod refused;
mod tiles;
mod walks;

/// The tag, type, count and value of an entry. A single SHORT stands left-justified.
type Entry = (u16, u16, u32, u32);

/// The fields of a level of 16 by 16 samples in one plain tile. A type of 0 leaves a field out.
const FIELDS: [Entry; 13] = [
    (254, 0, 0, 0),
    (256, 3, 1, 16),
    (257, 3, 1, 16),
    (258, 3, 1, 8),
    (259, 3, 1, 1),
    (262, 3, 1, 1),
    (277, 0, 0, 0),
    (284, 0, 0, 0),
    (322, 3, 1, 16),
    (323, 3, 1, 16),
    (324, 4, 1, 122),
    (325, 4, 1, 256),
    (339, 0, 0, 0),
];

fn put_short(file: &mut Vec<u8>, order: Order, number: u16) -> Result<(), Fail> {
    let bytes = match order {
        Order::Little => number.to_le_bytes(),
        Order::Big => number.to_be_bytes(),
    };
    Ok(file.extend_from_slice(&bytes)?)
}

fn put_long(file: &mut Vec<u8>, order: Order, number: u32) -> Result<(), Fail> {
    let bytes = match order {
        Order::Little => number.to_le_bytes(),
        Order::Big => number.to_be_bytes(),
    };
    Ok(file.extend_from_slice(&bytes)?)
}

/// Begins a file whose first directory stands at `first`.
fn begun(rt: &impl AllocGlobal, order: Order, first: u32) -> Result<Vec<u8>, Fail> {
    let mut file = Vec::new(rt.alloc());
    let mark = match order {
        Order::Little => b'I',
        Order::Big => b'M',
    };
    file.push(mark)?;
    file.push(mark)?;
    put_short(&mut file, order, 42)?;
    put_long(&mut file, order, first)?;
    Ok(file)
}

fn put_entry(file: &mut Vec<u8>, order: Order, entry: Entry) -> Result<(), Fail> {
    let (tag, kind, count, value) = entry;
    put_short(file, order, tag)?;
    put_short(file, order, kind)?;
    put_long(file, order, count)?;
    if kind == 3 && count == 1 {
        put_short(file, order, (value % 65536) as u16)?;
        put_short(file, order, 0)
    } else {
        put_long(file, order, value)
    }
}

fn put_directory(
    file: &mut Vec<u8>,
    order: Order,
    entries: &[Entry],
    next: u32,
) -> Result<(), Fail> {
    put_short(file, order, (entries.len() % 65536) as u16)?;
    for entry in entries {
        put_entry(file, order, *entry)?;
    }
    put_long(file, order, next)
}

/// Returns the fields of a level, with `changes` instead of those of the same tags.
fn fields(rt: &impl AllocGlobal, changes: &[Entry]) -> Result<Vec<Entry>, Fail> {
    let mut entries = Vec::new(rt.alloc());
    for field in FIELDS {
        let mut entry = field;
        for change in changes {
            if change.0 == field.0 {
                entry = *change;
            }
        }
        if entry.1 != 0 {
            entries.push(entry)?;
        }
    }
    Ok(entries)
}

/// Returns a file of one level with these changes, and a few bytes after its directory.
fn file_with(
    rt: &impl AllocGlobal,
    order: Order,
    changes: &[Entry],
    next: u32,
    tail: &[u8],
) -> Result<Vec<u8>, Fail> {
    let mut file = begun(rt, order, 8)?;
    let entries = fields(rt, changes)?;
    put_directory(&mut file, order, entries.as_slice(), next)?;
    file.extend_from_slice(tail)?;
    Ok(file)
}

/// Walks over the whole file.
fn course_of(rt: &impl AllocGlobal, file: &[u8]) -> Result<Course, Fail>
    ensures { IfOk result (λ course. IsWalked file.now course.end) }
{
    match walk_over(rt.alloc(), file) {
        Ok(course) => Ok(course),
        Err(Memory) => Err(Fail::new("no memory")),
    }
}

/// Returns the end of a walk over the whole file, or its fault.
fn end_of(rt: &impl AllocGlobal, file: &[u8]) -> Result<Result<Walk, FileFault>, Fail>
    ensures { IfOk result (IsWalked file.now) }
{
    let Course { end, ranges: _ } = course_of(rt, file)?;
    Ok(end)
}

/// Returns the fault of a walk over the file.
fn fault_of(rt: &impl AllocGlobal, file: &[u8]) -> Result<Option<FileFault>, Fail> {
    Ok(end_of(rt, file)?.err())
}

fn place(first: u64, len: u64, count: u32, kind: Kind) -> Place {
    Place {
        first,
        len,
        count,
        kind,
    }
}
