//! Going on: the reader is given what the cache has.
ghost use Rattle.std.specs.Prelude.{max, ◌≡◌, ◌+◌, ◌<◌, ◌≤◌, ◌^◌, Some, IfOk, IsOk, OnErr, OnOk, length};
ghost use Rattle.extents.specs.declared.limits.TheConstants.{MAX_RANGE_BYTES};
ghost use Rattle.extents.specs.Extent.{extent_of_span};
ghost use Rattle.tiff_dir.specs.declared.level.Compression.TheVariants.{Plain};
ghost use Rattle.cog_reader.specs.Reader.{file_length_of, tiles_wanted, wanted, IsWanted, Takes};
ghost use Rattle.range_cache.specs.Cache.{bytes_at};
ghost use Rattle.cog_reader.specs.Going.{work, ReaderGoesOn, IsFilled, IsGiven};

use crate::ahead::extend;
use crate::held::HeldRange;
use crate::{Reader, law_lengths_are_known, law_nothing_comes};
use extents::{Memory, Span};
use range_cache::{Cache, Missing, law_missing_is_exact};
use tiff_dir::Compression;

fn span_of(missing: Missing) -> Span
    ensures first { result.first ≡ missing.first }
    ensures last { result.last ≡ missing.last }
{
    Span {
        first: missing.first,
        last: missing.last,
    }
}

/// Copies the range that the reader needs into `out`, and gives it to the reader. `out` has the length of the range.
fn give_copy(reader: &mut Reader, cache: &Cache, first: u64, out: &mut [u8]) -> Result<(), Memory>
    requires wanted { IsWanted reader.old (length out.old) }
    requires fits { first + length out.old < 2 ^ 64 }
    ensures takes { OnOk result (Takes (bytes_at cache.now first (length out.old)) reader.old reader.new) }
    ensures err { OnErr result (reader.new ≡ reader.old) }
{
    cache.copy_at(first, out);
    reader.give(out)
}

/// Makes the buffer at least `len` bytes long.
fn grow(buffer: &mut Vec<u8>, len: usize) -> Result<(), Memory>
    ensures long { OnOk result (len ≤ length buffer.new.items) }
    ensures room { length buffer.new.items ≤ max (length buffer.old.items) len }
{
    if buffer.len() < len {
        buffer.resize(len, 0)?;
    }
    Ok(())
}

/// Gives the reader the range that it needs, of `len` bytes, all of which the cache has. Tiles are taken out of the
/// blocks where they lie. What has to be in one piece is copied to `buffer`, which is kept from one range to the next.
/// Plain tiles allocate nothing.
fn give_held(
    reader: &mut Reader,
    cache: &Cache,
    buffer: &mut Vec<u8>,
    first: u64,
    len: usize,
) -> Result<(), Memory>
    requires wanted { IsWanted reader.old len }
    requires fits { first + len < 2 ^ 64 }
    ensures takes { OnOk result (Takes (bytes_at cache.now first len) reader.old reader.new) }
    ensures plain { tiles_wanted reader.old ≡ Some Plain → IsOk result × (buffer.new ≡ buffer.old) }
    ensures err { OnErr result (reader.new ≡ reader.old) }
    ensures room { length buffer.new.items ≤ max (length buffer.old.items) len }
{
    match reader.tiles_wanted() {
        Some(Compression::Plain) => reader.paint(&HeldRange::new(cache, first, len)),
        Some(Compression::Packed(_)) => {
            grow(buffer, len)?;
            reader.unpack(&HeldRange::new(cache, first, len), &mut buffer[..len]);
        }
        None => {
            grow(buffer, len)?;
            give_copy(reader, cache, first, &mut buffer[..len])?;
        }
    }
    Ok(())
}

/// Gives the reader the range that it needs, `span`, where the cache has it. Else returns the first run of missing
/// blocks in it.
fn give_next(
    reader: &mut Reader,
    cache: &mut Cache,
    buffer: &mut Vec<u8>,
    span: Span,
) -> Result<Option<Span>, Memory>
    requires wanted { wanted reader.old ≡ Some (extent_of_span span) }
    requires inside { span.last < file_length_of reader.old }
    requires small { span.last + 1 ≤ span.first + MAX_RANGE_BYTES }
    ensures goes { ReaderGoesOn (work reader.old cache.old) (work reader.new cache.new) }
    ensures given { IfOk result (IsGiven (extent_of_span span) (work reader.old cache.old) (work reader.new cache.new)) }
    ensures room { length buffer.new.items ≤ max (length buffer.old.items) MAX_RANGE_BYTES }
{
    law_lengths_are_known();
    law_missing_is_exact();
    let len = (span.last - span.first) as usize + 1;
    match cache.touch(reader.file_length(), span.first, len) {
        Ok(()) => {
            give_held(reader, cache, buffer, span.first, len)?;
            Ok(None)
        }
        Err(missing) => Ok(Some(span_of(missing))),
    }
}

/// Gives the reader one range after another, as far as the cache has them, and returns the byte range to ask for then.
/// It begins with the first run of missing blocks of the next range. At most `ahead` blocks that are needed later
/// follow. Returns `None` where the query is answered, or none is asked.
///
/// `buffer` may hold anything. What has to stand in one piece is copied there. It gets no longer than 1,048,576 bytes,
/// unless it was longer before. Fails with `Memory` alone. Then the reader has taken the ranges that it was given so
/// far, and the cache has the same blocks. The call may be repeated.
pub fn fill(
    reader: &mut Reader,
    cache: &mut Cache,
    buffer: &mut Vec<u8>,
    ahead: u32,
) -> Result<Option<Span>, Memory>
    ensures goes { ReaderGoesOn (work reader.old cache.old) (work reader.new cache.new) }
    ensures filled { IfOk result (IsFilled (work reader.new cache.new) ahead) }
    ensures room { length buffer.new.items ≤ max (length buffer.old.items) MAX_RANGE_BYTES }
{
    law_nothing_comes();
    while let Some(span) = reader.need()? {
        if let Some(missing) = give_next(reader, cache, buffer, span)? {
            let asked = extend(reader, cache, span, missing, ahead);
            return Ok(Some(asked));
        }
    }
    Ok(None)
}
