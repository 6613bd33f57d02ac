//! A file of the disk that is replaced as a whole, or not at all.
use std::fs::{File, OpenFile};
use std::io::Write;
use std::rt::Files;
use std::{fs, io};

/// Writes `head` and then `rest`, and nothing else, to what is at `path`.
fn write_both<R: Files>(rt: &R, path: &str, head: &[u8], rest: &[u8]) -> io::Result<()> {
    let mut file = File::create(rt, path)?;
    file.write_all(head)?;
    file.write_all(rest)
}

/// Writes `head` and then `rest` to a new file at `path`, and waits until the disk has them. Fails where something is at `path`, which is
/// neither written nor followed.
fn write_new<R: Files>(rt: &R, path: &str, head: &[u8], rest: &[u8]) -> io::Result<()> {
    let mut file = File::create_new(rt, path)?;
    file.write_all(head)?;
    file.write_all(rest)?;
    file.sync_all()
}

/// Writes a new file at `beside`, whatever was left there, and renames it to `path`.
fn write_beside<R: Files>(
    rt: &R,
    path: &str,
    beside: &str,
    head: &[u8],
    rest: &[u8],
) -> io::Result<()> {
    let _ = fs::remove_file(rt, beside);
    write_new(rt, beside, head, rest)?;
    fs::rename(rt, beside, path)
}

/// Returns whether something is at a path that is no plain file: a device, a pipe or a link, as `/dev/stdout` is.
fn is_special<R: Files>(rt: &R, path: &str) -> bool {
    match fs::symlink_metadata(rt, path) {
        Ok(metadata) => !metadata.is_file(),
        Err(_) => false,
    }
}

/// Replaces the plain file at `path` by one with `head` and then `rest`, once all of it stands in the new file `PATH.part`. After an error
/// the old file is as it was. A link, a device or a pipe is written in place instead, and after an error part of the bytes may be there.
pub fn replace_file<R: Files + AllocGlobal>(
    rt: &R,
    path: &str,
    head: &[u8],
    rest: &[u8],
) -> io::Result<()> {
    if is_special(rt, path) {
        return write_both(rt, path, head, rest);
    }
    let beside = format!(in rt.alloc(); "{path}.part")?;
    let written = write_beside(rt, path, beside.as_str(), head, rest);
    if written.is_err() {
        let _ = fs::remove_file(rt, beside.as_str());
    }
    written
}
