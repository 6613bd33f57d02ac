//! How a row is packed.
ghost use Rattle.std.specs.Prelude.{◌≡◌, ◌<◌, ◌≤◌, IfOk, length, take, replicate, slice_index};
ghost use Rattle.tiff_dir.specs.declared.limits.TheConstants.{MAX_PACKET_BYTES};
ghost use Rattle.tiff_dir.specs.Packets.{Packs};
ghost use Rattle.packbits.specs.Adding.{Adds};

use extents::Memory;
use std::alloc::Global;
use tiff_dir::limits::MAX_PACKET_BYTES;

/// Returns how many equal bytes come first, at most 128.
fn run_len(bytes: &[u8]) -> usize
    requires { 0 < length bytes.now }
    ensures some { 1 ≤ result }
    ensures few { result ≤ MAX_PACKET_BYTES }
    ensures within { result ≤ length bytes.now }
    ensures equal { take result bytes.now ≡ replicate result (slice_index bytes.now 0) }
{
    let first = bytes[0];
    let most = bytes.len().min(MAX_PACKET_BYTES);
    for i in 1..most {
        if bytes[i] != first {
            return i;
        }
    }
    most
}

/// Returns how many bytes come before a run of equal bytes: at least 1, and at most 128.
fn copy_len(bytes: &[u8]) -> usize
    requires { 0 < length bytes.now }
    ensures some { 1 ≤ result }
    ensures few { result ≤ MAX_PACKET_BYTES }
    ensures within { result ≤ length bytes.now }
{
    let most = bytes.len().min(MAX_PACKET_BYTES);
    for i in 1..most {
        if i + 1 < bytes.len() && bytes[i] == bytes[i + 1] {
            return i;
        }
    }
    most
}

/// Appends the first packet of `bytes`, and returns how many bytes it stands for. Fails with `Memory` alone.
fn push_packet(packed: &mut Vec<u8>, bytes: &[u8]) -> Result<usize, Memory>
    requires { 0 < length bytes.now }
    ensures { IfOk result (λ len. Adds packed.old.items packed.new.items bytes.now len) }
{
    let run = run_len(bytes);
    if run > 1 {
        packed.push((257 - run) as u8)?;
        packed.push(bytes[0])?;
        return Ok(run);
    }
    let len = copy_len(bytes);
    packed.push((len - 1) as u8)?;
    packed.extend_from_slice(&bytes[..len])?;
    Ok(len)
}

/// Returns packets that stand for `row`, which isn't empty. It isn't said which packets these are. Fails with `Memory`
/// alone.
///
/// ```
/// assert_eq!(pack_row(alloc, &[7, 7, 7, 1, 2])?.as_slice(), [0xfe, 7, 0x01, 1, 2]);
/// ```
pub fn pack_row(alloc: Global, row: &[u8]) -> Result<Vec<u8>, Memory>
    requires { 0 < length row.now }
    ensures { IfOk result (λ packed. Packs (length row.now) packed.items row.now) }
{
    let mut packed = Vec::new(alloc);
    let mut at = 0;
    while at < row.len() {
        at += push_packet(&mut packed, &row[at..])?;
    }
    Ok(packed)
}
