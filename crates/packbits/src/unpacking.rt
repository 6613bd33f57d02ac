//! How packed bytes are unpacked.
ghost use Rattle.std.specs.Prelude.{◌≡◌, ◌<◌, ◌≤◌, IfSome, IfNone, OnOk, IfErr, length, take, min, replicate};
ghost use Rattle.tiff_dir.specs.Packets.{Packs};
ghost use Rattle.tiff_dir.specs.declared.limits.TheConstants.{MAX_PACKET_BYTES};
ghost use Rattle.packbits.specs.Unpacking.{IsFirst, HasNoFirst, IsNotPacked};

use tiff_dir::limits::MAX_PACKET_BYTES;
use tiff_dir::{FileFault, law_one_text};

/// The first byte of a packet that stands for nothing. Below it a packet copies bytes, above it a packet repeats one.
const NO_OP: usize = 128;

/// The number of bytes that are written at once for a packet of at most as many. For a longer packet it is
/// `MAX_PACKET_BYTES`. Neither costs a call.
const AT_ONCE: usize = 16;

/// Writes `byte` to the front of `out`, `times` times. What follows in `out` may be overwritten.
#[inline(always)]
fn repeat(byte: u8, times: usize, out: &mut [u8])
    requires few { times ≤ MAX_PACKET_BYTES }
    requires room { MAX_PACKET_BYTES ≤ length out.old }
    ensures { take times out.new ≡ replicate times byte }
{
    if times <= AT_ONCE {
        out[..AT_ONCE].copy_from_slice(&[byte; AT_ONCE]);
    } else {
        out[..MAX_PACKET_BYTES].copy_from_slice(&[byte; MAX_PACKET_BYTES]);
    }
}

/// Copies the first `len` bytes to the front of `out`. What follows in `out` may be overwritten.
#[inline(always)]
fn copy(bytes: &[u8], len: usize, out: &mut [u8])
    requires few { len ≤ MAX_PACKET_BYTES }
    requires there { MAX_PACKET_BYTES ≤ length bytes.now }
    requires room { MAX_PACKET_BYTES ≤ length out.old }
    ensures { take len out.new ≡ take len bytes.now }
{
    if len <= AT_ONCE {
        out[..AT_ONCE].copy_from_slice(&bytes[..AT_ONCE]);
    } else {
        out[..MAX_PACKET_BYTES].copy_from_slice(&bytes[..MAX_PACKET_BYTES]);
    }
}

/// Writes `byte` to the front of `out`, `times` times, and nothing after that.
#[inline(always)]
fn repeat_last(byte: u8, times: usize, out: &mut [u8])
    requires { times ≤ length out.old }
    ensures { take times out.new ≡ replicate times byte }
{
    out[..times].fill(byte);
}

/// Copies the first `len` bytes to the front of `out`, and none after them.
#[inline(always)]
fn copy_last(bytes: &[u8], len: usize, out: &mut [u8])
    requires there { len ≤ length bytes.now }
    requires room { len ≤ length out.old }
    ensures { take len out.new ≡ take len bytes.now }
{
    out[..len].copy_from_slice(&bytes[..len]);
}

/// Writes what the first packet stands for, if its row has room for it. Returns how many bytes the packet has, and how
/// many it stands for. `bytes` is long enough for any packet, and `out` for what any packet stands for.
#[inline(always)]
fn unpack_next(bytes: &[u8], room: usize, out: &mut [u8]) -> Option<(usize, usize)>
    requires there { MAX_PACKET_BYTES < length bytes.now }
    requires fits { MAX_PACKET_BYTES ≤ length out.old }
    ensures first { IfSome result (λ n. (n.0 ≤ length bytes.now) × (n.1 ≤ room) × (n.1 ≤ length out.old)
        × IsFirst bytes.now n.0 (take n.1 out.new)) }
    ensures none { IfNone result (HasNoFirst bytes.now (min room (length out.old))) }
{
    let head = usize::from(bytes[0]);
    if head < NO_OP {
        let len = head + 1;
        if len > room {
            return None;
        }
        copy(&bytes[1..], len, out);
        Some((len + 1, len))
    } else if head > NO_OP {
        let times = 257 - head;
        if times > room {
            return None;
        }
        repeat(bytes[1], times, out);
        Some((2, times))
    } else {
        Some((1, 0))
    }
}

/// Does the same as `unpack_next` near the end, where `bytes` or `out` may be shorter. The packet also needs room in
/// `out`.
#[inline(always)]
fn unpack_last(bytes: &[u8], room: usize, out: &mut [u8]) -> Option<(usize, usize)>
    requires { 0 < length bytes.now }
    ensures first { IfSome result (λ n. (n.0 ≤ length bytes.now) × (n.1 ≤ room) × (n.1 ≤ length out.old)
        × IsFirst bytes.now n.0 (take n.1 out.new)) }
    ensures none { IfNone result (HasNoFirst bytes.now (min room (length out.old))) }
{
    let head = usize::from(bytes[0]);
    let room = room.min(out.len());
    if head < NO_OP {
        let len = head + 1;
        if len > room || len >= bytes.len() {
            return None;
        }
        copy_last(&bytes[1..], len, out);
        Some((len + 1, len))
    } else if head > NO_OP {
        let times = 257 - head;
        if times > room || bytes.len() < 2 {
            return None;
        }
        repeat_last(bytes[1], times, out);
        Some((2, times))
    } else {
        Some((1, 0))
    }
}

/// Writes what the first packet stands for, if its row and `out` have room for it. Returns how many bytes the packet
/// has, and how many it stands for.
#[inline(always)]
fn unpack_first(bytes: &[u8], room: usize, out: &mut [u8]) -> Option<(usize, usize)>
    requires { 0 < length bytes.now }
    ensures first { IfSome result (λ n. (n.0 ≤ length bytes.now) × (n.1 ≤ room) × (n.1 ≤ length out.old)
        × IsFirst bytes.now n.0 (take n.1 out.new)) }
    ensures none { IfNone result (HasNoFirst bytes.now (min room (length out.old))) }
{
    if MAX_PACKET_BYTES < bytes.len() && MAX_PACKET_BYTES <= out.len() {
        unpack_next(bytes, room, out)
    } else {
        unpack_last(bytes, room, out)
    }
}

/// Unpacks `seg`, the packed bytes of whole rows of `row` bytes each, into `out` (TIFF 6.0, section 9). Fails with
/// `Packet` where a packet crosses the end of its row. So it does where the packets stand for fewer or more bytes than
/// `out` has, or where `seg` ends within a packet. Then `out` may hold anything.
///
/// ```
/// let mut out = [0; 5];
/// unpack(&[0xfe, 7, 0x01, 1, 2], 5, &mut out)?;
/// assert_eq!(out, [7, 7, 7, 1, 2]);
/// ```
pub fn unpack(seg: &[u8], row: usize, out: &mut [u8]) -> Result<(), FileFault>
    requires { 0 < row }
    ensures ok { OnOk result (Packs row seg.now out.new) }
    ensures refused { IfErr result (λ fault. (fault ≡ FileFault.Packet) × IsNotPacked row seg.now (length out.old)) }
{
    law_one_text();
    let mut at = 0;
    let mut done = 0;
    let mut room = row;
    while at < seg.len() {
        let Some((len, count)) = unpack_first(&seg[at..], room, &mut out[done..]) else {
            return Err(FileFault::Packet);
        };
        at += len;
        done += count;
        room = if count < room { room - count } else { row };
    }
    if done < out.len() {
        return Err(FileFault::Packet);
    }
    Ok(())
}
