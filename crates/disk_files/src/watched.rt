//! A file of the disk that a server publishes, and when to read it again.
ghost use Rattle.std.specs.Prelude.{◌≡◌, ◌<◌, ◌≤◌, ◌+◌, ◌-◌, ◌↔◌, ◌⊎◌, ℕ, List, IfErr, IfOk, IfSome, IsSome, IsSomeAnd, IsTrue, MatchOption, None, OnErr, OnOk, Some, false, length, take};
ghost use Rattle.std.specs.Duration.{as_nanos};
ghost use Rattle.std.specs.Fs.{file_type, metadata_len};
ghost use Rattle.std.specs.Fs.{IsFile as IsPlainFile};
ghost use Rattle.http_range.specs.Book.{published};
ghost use Rattle.http_range.specs.declared.publication.TheConstants.{FILE_LIMIT};
ghost use Rattle.cog_server.specs.Server.{IsRefusal, ServerState, refusal_of};
ghost use Rattle.disk_files.specs.Published.{HasOther, IsFileOf, IsOfFile, IsPublished};
ghost use Rattle.disk_files.specs.Settled.{IsSettledSince};
ghost use Rattle.disk_files.specs.Watching.{IsLookedAt, IsOfDisk, IsRefusedAs, IsRefusedBy, IsRefusedOf, IsUnread, MayPass, StaysButLooks, compared_of, odd_looks_of, seen_of, verify_of};
ghost use Rattle.disk_files.specs.declared.watched.WatchError.TheVariants.{NotAFile, Refused};

use crate::reading::{enough_of, other_bytes};
use crate::stamp::{Stamp, is_unchanged, stamp_of};
use cog_server::{PublishError, Server};
use http_range::{FILE_LIMIT, Tag, is_name, law_publications_replace};
use std::alloc::Global;
use std::fs::{self, File, Metadata, OpenFile};
use std::io;
use std::io::Read;
use std::rt::{Clock, Files};
use std::time::Duration;
use thiserror::Error;

/// Says why a file of the disk isn't published.
#[derive(Debug, Drop, Error)]
pub enum WatchError {
    /// The file can't be read.
    #[error("can't be read: {0}")]
    CantRead(io::Error),
    /// The path leads to no plain file, but to a folder or a pipe.
    #[error("is no file")]
    NotAFile,
    /// The server refuses the file.
    #[error("is refused: {0}")]
    Refused(PublishError),
}

/// Watches a file of the command line.
#[derive(Drop)]
pub struct Watched<'a> {
    pub name: &'a str,
    pub path: &'a str,
    seen: Option<Stamp>,
    /// The least number of milliseconds between two comparisons of its bytes, while the disk says the same of the file. `None` where there
    /// are no such comparisons.
    verify: Option<u64>,
    /// The moment of the last comparison, in milliseconds of one clock.
    compared: u64,
    /// Whether the file was looked at an odd number of times. It serves contracts alone: that it is turned over shows a look.
    odd_looks: bool,
}

/// Returns the stamp to remember, or `None` where a later write might not show in it, or `now` isn't known. Fails with `NotAFile` where the
/// path leads to no plain file.
fn remembered(metadata: &Metadata, now: Option<Duration>) -> Result<Option<Stamp>, WatchError>
    ensures settled { IfOk result (λ seen. IfSome seen (λ stamp. IsSomeAnd now (λ n. IsSettledSince stamp.changed (as_nanos n)))) }
    ensures length { IfOk result (λ seen. IfSome seen (λ stamp. stamp.length ≡ metadata_len metadata.now)) }
    ensures file { OnOk result (IsPlainFile (file_type metadata.now)) }
    ensures no_file { IfErr result (λ why. (why ≡ NotAFile) × ¬ IsPlainFile (file_type metadata.now)) }
    ensures refused { (s : ServerState) (name : List ℕ) → IfErr result (IsRefusedBy s name) }
    ensures disk { IfErr result IsOfDisk }
{
    if !metadata.is_file() {
        return Err(WatchError::NotAFile);
    }
    match now {
        Some(now) => Ok(stamp_of(metadata, now)),
        None => Ok(None),
    }
}

/// Looks at a path without opening it, since to open a pipe might wait for its writer. Returns the stamp to remember.
fn look<R: Files + Clock>(rt: &R, path: &str) -> Result<Option<Stamp>, WatchError>
    ensures refused { (s : ServerState) (name : List ℕ) → IfErr result (IsRefusedBy s name) }
    ensures disk { IfErr result IsOfDisk }
{
    let now = rt.since_1970().ok();
    let metadata = fs::metadata(rt, path).map_err(WatchError::CantRead)?;
    remembered(&metadata, now)
}

/// Opens the file at a path and looks at what is open, since the path may lead elsewhere by now. Returns the open file, the stamp to
/// remember, and the length in bytes.
fn open<R: Files + Clock>(rt: &R, path: &str) -> Result<(R::File, Option<Stamp>, u64), WatchError>
    ensures refused { (s : ServerState) (name : List ℕ) → IfErr result (IsRefusedBy s name) }
    ensures disk { IfErr result IsOfDisk }
{
    let now = rt.since_1970().ok();
    let file = File::open(rt, path).map_err(WatchError::CantRead)?;
    let metadata = file.metadata().map_err(WatchError::CantRead)?;
    let seen = remembered(&metadata, now)?;
    Ok((file, seen, metadata.len()))
}

/// Returns why a server refuses each file of `size` bytes under `name`, or `None` where such a file isn't too large. It reads no byte.
fn refusal_by_length(name: &[u8], size: u64) -> Option<PublishError>
    ensures small { result ≡ None ↔ (size ≤ FILE_LIMIT) }
    ensures large { IsSome result → FILE_LIMIT < size }
    ensures refused { (s : ServerState) (file : List ℕ) → length file ≡ size
        → IfSome result (λ refusal. refusal_of s.count s.catalogue name.now file ≡ Some refusal) }
    ensures lasting { IfSome result (λ refusal. ¬ MayPass (Refused refusal)) }
{
    if size <= FILE_LIMIT as u64 {
        return None;
    }
    if is_name(name) {
        Some(PublishError::TooLarge)
    } else {
        Some(PublishError::Name)
    }
}

/// Returns what an open file gives, at most `FILE_LIMIT + 1` bytes, or `None` where its publication has just these bytes. Without a
/// publication it returns the bytes.
fn unpublished_bytes<F: Read + Drop>(
    alloc: Global,
    published: Option<&[u8]>,
    file: F,
) -> io::Result<Option<Vec<u8>>>
    ensures given { IfOk result (λ bytes. (given : List ℕ) → F.remaining file ≡ Some given
        → MatchOption bytes (IsSomeAnd published.entry (λ old. given ≡ old.now)) (λ bytes. bytes.items ≡ take (FILE_LIMIT + 1) given)) }
    ensures first { published.entry ≡ None → IfOk result IsSome }
{
    match published {
        Some(published) => other_bytes(alloc, file, published),
        None => Ok(Some(enough_of(alloc, file)?)),
    }
}

/// Publishes a file, unless the one under its name has the same bytes. Returns the new ETag, or `None` then.
fn publish_other(
    server: &mut Server,
    name: &[u8],
    file: Vec<u8>,
) -> Result<Option<Tag>, PublishError>
    ensures ok { IfOk result (λ tag. IfSome tag (IsPublished name.now server.old server.new)) }
    ensures has { OnOk result (IsFileOf name.now file.items server.new) }
    ensures other { IfOk result (λ tag. IsSome tag → HasOther name.now server.old server.new) }
    ensures same { IfOk result (λ tag. tag ≡ None → server.new ≡ server.old) }
    ensures first { published name.now server.old.catalogue ≡ None → IfOk result IsSome }
    ensures err { OnErr result (server.new ≡ server.old) }
    ensures refused { IfErr result (IsRefusal (refusal_of server.old.count server.old.catalogue name.now file.items)) }
{
    law_publications_replace();
    if let Some(old) = server.file(name)
        && old == file.as_slice()
    {
        return Ok(None);
    }
    let tag = server.publish(name, file)?;
    Ok(Some(tag))
}

impl<'a> Watched<'a> {
    /// Makes a file that wasn't read yet. It is read again only where the disk says something else of it, or where a write might not show.
    pub fn new(name: &'a str, path: &'a str) -> Watched<'a>
        ensures name { result.name ≡ name.entry }
        ensures path { result.path ≡ path.entry }
        ensures verify { verify_of result ≡ None }
        // Nothing is remembered of it, and it was neither compared nor looked at.
        ensures unseen { seen_of result ≡ None }
        ensures uncompared { compared_of result ≡ 0 }
        ensures unlooked { odd_looks_of result ≡ false }
    {
        Watched::verified(name, path, None)
    }

    /// Makes a file that wasn't read yet. With `verify` its bytes are compared even where the disk says the same of it as before. That is
    /// once `verify` milliseconds have passed since the last comparison. So a change through a mapping, which sets no time, is seen.
    pub fn verified(name: &'a str, path: &'a str, verify: Option<u64>) -> Watched<'a>
        ensures name { result.name ≡ name.entry }
        ensures path { result.path ≡ path.entry }
        ensures verify { verify_of result ≡ verify }
        // Nothing is remembered of it, and it was neither compared nor looked at.
        ensures unseen { seen_of result ≡ None }
        ensures uncompared { compared_of result ≡ 0 }
        ensures unlooked { odd_looks_of result ≡ false }
    {
        Watched {
            name,
            path,
            seen: None,
            verify,
            compared: 0,
            odd_looks: false,
        }
    }

    /// Returns whether the bytes are to be compared at the moment `now`, though the disk says the same of the file as before.
    fn is_due(&self, now: u64) -> bool
        ensures { IsTrue result ↔ IsSomeAnd (verify_of self.now) (λ millis. millis ≤ now - compared_of self.now) }
    {
        match self.verify {
            Some(millis) => now.saturating_sub(self.compared) >= millis,
            None => false,
        }
    }

    /// Publishes what an open file gives, and remembers the stamp `seen`. Returns the new ETag.
    fn publish_all_of<F: Read + Drop>(
        &mut self,
        alloc: Global,
        server: &mut Server,
        file: F,
        seen: Option<Stamp>,
    ) -> Result<Tag, WatchError>
        ensures has { (whole : List ℕ) → F.remaining file ≡ Some whole → length whole ≤ FILE_LIMIT
            → OnOk result (IsFileOf self.old.name.now whole server.new) }
        ensures ok { IfOk result (IsPublished self.old.name.now server.old server.new) }
        ensures err { OnErr result (server.new ≡ server.old) }
        ensures refused { IfErr result (IsRefusedBy server.old self.old.name.now) }
        ensures refused_as { (whole : List ℕ) → F.remaining file ≡ Some whole
            → IfErr result (IsRefusedAs server.old self.old.name.now (take (FILE_LIMIT + 1) whole)) }
        ensures seen { OnOk result (seen_of self.new ≡ seen) }
        ensures name { self.new.name ≡ self.old.name }
        ensures path { self.new.path ≡ self.old.path }
        ensures verify { verify_of self.new ≡ verify_of self.old }
        ensures compared { compared_of self.new ≡ compared_of self.old }
        ensures looks { odd_looks_of self.new ≡ odd_looks_of self.old }
        ensures kept { OnErr result (self.new ≡ self.old) }
    {
        law_publications_replace();
        let bytes = enough_of(alloc, file).map_err(WatchError::CantRead)?;
        match server.publish(self.name.as_bytes(), bytes) {
            Ok(tag) => {
                self.seen = seen;
                Ok(tag)
            }
            Err(refusal) => Err(WatchError::Refused(refusal)),
        }
    }

    /// Publishes what an open file gives, unless its publication has the same bytes. It remembers the stamp `seen`, also where the server
    /// refuses the file, but not where the reason may pass.
    fn publish_other_of<F: Read + Drop>(
        &mut self,
        alloc: Global,
        server: &mut Server,
        file: F,
        seen: Option<Stamp>,
    ) -> Result<Option<Tag>, WatchError>
        ensures has { (whole : List ℕ) → F.remaining file ≡ Some whole → length whole ≤ FILE_LIMIT
            → OnOk result (IsFileOf self.old.name.now whole server.new) }
        ensures ok { IfOk result (λ tag. IfSome tag (IsPublished self.old.name.now server.old server.new)) }
        ensures other { IfOk result (λ tag. IsSome tag → HasOther self.old.name.now server.old server.new) }
        ensures same { IfOk result (λ tag. tag ≡ None → server.new ≡ server.old) }
        ensures first { published self.old.name.now server.old.catalogue ≡ None → IfOk result IsSome }
        ensures err { OnErr result (server.new ≡ server.old) }
        ensures refused { IfErr result (IsRefusedBy server.old self.old.name.now) }
        ensures refused_as { (whole : List ℕ) → F.remaining file ≡ Some whole
            → IfErr result (IsRefusedAs server.old self.old.name.now (take (FILE_LIMIT + 1) whole)) }
        ensures seen { OnOk result (seen_of self.new ≡ seen) }
        ensures again { IfErr result (λ why. MayPass why → seen_of self.new ≡ seen_of self.old) }
        ensures name { self.new.name ≡ self.old.name }
        ensures path { self.new.path ≡ self.old.path }
        ensures verify { verify_of self.new ≡ verify_of self.old }
        ensures compared { compared_of self.new ≡ compared_of self.old }
        ensures looks { odd_looks_of self.new ≡ odd_looks_of self.old }
    {
        let published = server.file(self.name.as_bytes());
        let bytes = unpublished_bytes(alloc, published, file).map_err(WatchError::CantRead)?;
        let Some(bytes) = bytes else {
            self.seen = seen;
            return Ok(None);
        };
        match publish_other(server, self.name.as_bytes(), bytes) {
            Ok(tag) => {
                self.seen = seen;
                Ok(tag)
            }
            Err(PublishError::Memory) => Err(WatchError::Refused(PublishError::Memory)),
            Err(refusal) => {
                self.seen = seen;
                Err(WatchError::Refused(refusal))
            }
        }
    }

    /// Reads the file and publishes what it read. Returns the ETag. Fails with `CantRead`, `NotAFile` or `Refused`, and then the server
    /// stays as it was. A file that is too large by its length is refused unread.
    pub fn publish<R: Files + Clock + AllocGlobal>(
        &mut self,
        rt: &R,
        server: &mut Server,
    ) -> Result<Tag, WatchError>
        ensures ok { IfOk result (IsPublished self.old.name.now server.old server.new) }
        ensures given { OnOk result (IsOfFile R.File.remaining self.old.name.now server.new) }
        ensures err { OnErr result (server.new ≡ server.old) }
        ensures refused { IfErr result (IsRefusedBy server.old self.old.name.now) }
        // The refusal is that of a file that is too large, or that of what an open file gave.
        ensures refused_of { IfErr result (IsRefusedOf R.File.remaining server.old self.old.name.now) }

        // Its name, its path and `verify` stay, and so does the moment of the last comparison. After an error all of it does, but for how
        // often it was looked at.
        ensures name { self.new.name ≡ self.old.name }
        ensures path { self.new.path ≡ self.old.path }
        ensures verify { verify_of self.new ≡ verify_of self.old }
        ensures compared { compared_of self.new ≡ compared_of self.old }
        ensures kept { OnErr result (StaysButLooks self.old self.new) }
        // The call counts as a look, whatever it returns.
        ensures looked { IsLookedAt self.old self.new }
    {
        self.odd_looks = !self.odd_looks;
        look(rt, self.path)?;
        let (file, seen, size) = open(rt, self.path)?;
        if let Some(refusal) = refusal_by_length(self.name.as_bytes(), size) {
            return Err(WatchError::Refused(refusal));
        }
        self.publish_all_of(rt.alloc(), server, file, seen)
    }

    /// Publishes the file if its bytes changed. Returns the new ETag, or `None` where they didn't. `now` is the moment in milliseconds. The
    /// file isn't read where the disk says the same of it as when it was last read, unless a comparison is due at `now`. Nor is it read
    /// where it is too large by its length. Fails with `CantRead`, `NotAFile` or `Refused`, and then the old publication stays.
    pub fn publish_changed<R: Files + Clock + AllocGlobal>(
        &mut self,
        rt: &R,
        server: &mut Server,
        now: u64,
    ) -> Result<Option<Tag>, WatchError>
        ensures ok { IfOk result (λ tag. IfSome tag (IsPublished self.old.name.now server.old server.new)) }
        ensures other { IfOk result (λ tag. IsSome tag → HasOther self.old.name.now server.old server.new) }
        ensures same { IfOk result (λ tag. tag ≡ None → server.new ≡ server.old) }
        ensures err { OnErr result (server.new ≡ server.old) }
        ensures refused { IfErr result (IsRefusedBy server.old self.old.name.now) }
        // The refusal is that of a file that is too large, or that of what an open file gave.
        ensures refused_of { IfErr result (IsRefusedOf R.File.remaining server.old self.old.name.now) }

        // Either the publication is what an open file gave, or no file was read and `None` is returned. A file is read where nothing is
        // remembered of it, and where a comparison is due.
        ensures given { IfOk result (λ tag. ((tag ≡ None) × IsUnread now self.old self.new)
            ⊎ IsOfFile R.File.remaining self.old.name.now server.new) }

        // `first`: a file of which nothing is remembered, and that has no publication, is published, or the call fails. `again`: where the
        // reason may pass, what is remembered stays.
        ensures first { seen_of self.old ≡ None → published self.old.name.now server.old.catalogue ≡ None → IfOk result IsSome }
        ensures again { IfErr result (λ why. MayPass why → seen_of self.new ≡ seen_of self.old) }
        ensures name { self.new.name ≡ self.old.name }
        ensures path { self.new.path ≡ self.old.path }
        ensures verify { verify_of self.new ≡ verify_of self.old }
        // All of it stays but for how often it was looked at, or this moment is that of the last comparison.
        ensures compared { StaysButLooks self.old self.new ⊎ (compared_of self.new ≡ now) }
        // The call counts as a look, whatever it returns.
        ensures looked { IsLookedAt self.old self.new }
    {
        self.odd_looks = !self.odd_looks;
        let seen = look(rt, self.path)?;
        if is_unchanged(seen, self.seen) && !self.is_due(now) {
            return Ok(None);
        }
        self.compared = now;
        // The stamp is of the file whose bytes are read, since the path may lead elsewhere by now.
        let (file, seen, size) = open(rt, self.path)?;
        if let Some(refusal) = refusal_by_length(self.name.as_bytes(), size) {
            self.seen = seen;
            return Err(WatchError::Refused(refusal));
        }
        self.publish_other_of(rt.alloc(), server, file, seen)
    }
}
