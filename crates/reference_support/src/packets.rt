//! Packed bytes (TIFF 6.0, section 9).
ghost use Rattle.std.specs.Prelude.{◌≡◌, ◌<◌, ◌≤◌, ◌+◌, ◌%◌, ◌-◌, ◌↔◌, IfOk, IfSome, IfNone, IsTrue, Some, slice_get};
ghost use Rattle.tiff_dir.specs.Packets.{Packs};
ghost use Rattle.reference_support.specs.Unpacking.{IsNotPacked, PushesNext};

use std::alloc::{AllocError, Global};
use tiff_dir::law_one_text;

/// Returns whether `count` bytes after the first `len` are in one row of `row` bytes. A row of 0 bytes has room for none.
fn has_room(len: usize, count: usize, row: usize) -> bool
    ensures { IsTrue result ↔ (len % row + count ≤ row) }
{
    let used = if row == 0 { len } else { len % row };
    used <= row && count <= row - used
}

/// The length of the packet whose output was appended, if there is one that has room.
type Pushed = Result<Option<usize>, AllocError>;

/// Appends the `count` bytes after the first one, where `out` has room for them in its row. The first byte says how many they are.
fn push_copied(out: &mut Vec<u8>, bytes: &[u8], count: usize, row: usize) -> Pushed
    requires some { 1 ≤ count }
    requires few { count ≤ 128 }
    requires head { slice_get bytes.now 0 ≡ Some (count - 1) }
    ensures { IfOk result (PushesNext row bytes.now out.old.items out.new.items) }
{
    if bytes.len() < count + 1 || !has_room(out.len(), count, row) {
        return Ok(None);
    }
    out.extend_from_slice(&bytes[1..count + 1])?;
    Ok(Some(count + 1))
}

/// Appends the byte after the first one `times` times, where `out` has room for them in its row. The first byte says how many they are.
fn push_repeated(out: &mut Vec<u8>, bytes: &[u8], times: usize, row: usize) -> Pushed
    requires some { 2 ≤ times }
    requires few { times ≤ 128 }
    requires head { slice_get bytes.now 0 ≡ Some (257 - times) }
    ensures { IfOk result (PushesNext row bytes.now out.old.items out.new.items) }
{
    if !has_room(out.len(), times, row) {
        return Ok(None);
    }
    let Some(byte) = bytes.get(1) else {
        return Ok(None);
    };
    let len = out.len() + times;
    out.resize(len, *byte)?;
    Ok(Some(2))
}

/// Appends what the first packet of the bytes stands for. Returns its length.
fn push_packet(out: &mut Vec<u8>, bytes: &[u8], row: usize) -> Pushed
    ensures { IfOk result (PushesNext row bytes.now out.old.items out.new.items) }
{
    let Some(head) = bytes.first() else {
        return Ok(None);
    };
    let head = usize::from(*head);
    if head < 128 {
        push_copied(out, bytes, head + 1, row)
    } else if head > 128 {
        push_repeated(out, bytes, 257 - head, row)
    } else if has_room(out.len(), 0, row) {
        Ok(Some(1))
    } else {
        Ok(None)
    }
}

/// Returns what the packets stand for, in rows of `row` bytes, where they are packets and cross no row.
pub fn unpack(alloc: Global, bytes: &[u8], row: usize) -> Result<Option<Vec<u8>>, AllocError>
    ensures packed { IfOk result (λ o. IfSome o (λ out. Packs row bytes.now out.items)) }
    ensures refused { IfOk result (λ o. IfNone o (IsNotPacked row bytes.now)) }
{
    law_one_text();
    let mut out = Vec::new(alloc);
    let mut at = 0;
    while at < bytes.len() {
        match push_packet(&mut out, &bytes[at..], row)? {
            Some(len) => at += len,
            None => return Ok(None),
        }
    }
    Ok(Some(out))
}
