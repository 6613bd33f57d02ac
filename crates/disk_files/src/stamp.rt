//! What the disk says of a file without reading it, and when each later write of the file shows in that.
//!
//! A write is a call like write(2), which sets the times of the file. A change through a mapping (mmap) sets no time while the page is
//! changed already and isn't written back. So it may never show, and no stamp can find it.
ghost use Rattle.std.specs.Prelude.{◌≡◌, ◌↔◌, IfSome, IsSomeAnd, IsTrue, Some};
ghost use Rattle.std.specs.Duration.{as_nanos};
ghost use Rattle.std.specs.Fs.{metadata_len};
ghost use Rattle.disk_files.specs.Settled.{IsSettled, IsSettledSince, moment};

use std::fs::Metadata;
use std::os::unix::fs::MetadataExt;
use std::time::Duration;

/// Holds where a file is, its length in bytes, and when it was modified and changed. A time is in seconds and nanoseconds since 1970.
#[derive(Clone, Copy, PartialEq, Eq)]
pub struct Stamp {
    pub device: u64,
    pub inode: u64,
    pub length: u64,
    pub modified: (i64, i64),
    pub changed: (i64, i64),
}

/// Returns whether more than two seconds lie between `changed`, when a file was changed, and `now`. Both are since 1970.
fn is_settled(changed: Duration, now: Duration) -> bool
    ensures { IsTrue result ↔ IsSettled (as_nanos changed) (as_nanos now) }
{
    match changed.checked_add(Duration::from_secs(2)) {
        Some(limit) => limit.as_nanos() < now.as_nanos(),
        None => false,
    }
}

/// Returns a time in seconds and nanoseconds since 1970, or `None` where it lies before 1970.
fn moment(time: (i64, i64)) -> Option<Duration>
    ensures { IfSome result (λ d. moment time ≡ Some (as_nanos d)) }
{
    let seconds = u64::try_from(time.0).ok()?;
    let nanos = u64::try_from(time.1).ok()?;
    Duration::from_secs(seconds).checked_add(Duration::from_nanos(nanos))
}

/// Returns the stamp of a file that was looked at at `now` or later. Returns `None` where a later write of its bytes might not show in it.
fn settled(stamp: Stamp, now: Duration) -> Option<Stamp>
    ensures same { IfSome result (λ kept. kept ≡ stamp) }
    ensures settled { IfSome result (λ kept. IsSettledSince kept.changed (as_nanos now)) }
{
    if is_settled(moment(stamp.changed)?, now) {
        Some(stamp)
    } else {
        None
    }
}

impl Stamp {
    ghost use Rattle.std.specs.Prelude.{◌≡◌};
    ghost use Rattle.std.specs.Fs.{metadata_len};

    /// Makes the stamp of a file that was looked at.
    pub fn of(metadata: &Metadata) -> Stamp
        ensures { result.length ≡ metadata_len metadata.now }
    {
        Stamp {
            device: metadata.dev(),
            inode: metadata.ino(),
            length: metadata.size(),
            modified: (metadata.mtime(), metadata.mtime_nsec()),
            changed: (metadata.ctime(), metadata.ctime_nsec()),
        }
    }
}

/// Returns the stamp of a file that was looked at at `now` or later. Returns `None` where a later write of its bytes might not show in it.
/// `now` is since 1970.
pub fn stamp_of(metadata: &Metadata, now: Duration) -> Option<Stamp>
    ensures settled { IfSome result (λ stamp. IsSettledSince stamp.changed (as_nanos now)) }
    ensures length { IfSome result (λ stamp. stamp.length ≡ metadata_len metadata.now) }
{
    settled(Stamp::of(metadata), now)
}

/// Returns whether the disk says just the same of a file as before. It doesn't where either stamp is missing, since a write might not show
/// then.
pub fn is_unchanged(seen: Option<Stamp>, before: Option<Stamp>) -> bool
    ensures { IsTrue result ↔ IsSomeAnd seen (λ stamp. before ≡ Some stamp) }
{
    match (seen, before) {
        (Some(seen), Some(before)) => seen == before,
        _ => false,
    }
}
