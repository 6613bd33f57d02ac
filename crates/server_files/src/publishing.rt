//! The files that are published, and those that are published anew.
ghost use Rattle.std.specs.Prelude.{◌≡◌, ◌↔◌, All, Contains, IfErr, IsTrue, OnOk};
ghost use Rattle.std.specs.List.{AllZip};
ghost use Rattle.disk_files.specs.Watching.{IsLookedAt, verify_of};
ghost use Rattle.server_files.specs.Publishing.{AreLookedAt, ArePublished, ArePublishedAnew, IsOfFiles, IsOfOne, IsPublishedOf, IsServed, KeepsOthers, KeepsOthersThan, MayBePublished, names, settings};

use crate::access_log::AccessLog;
use crate::clock::moment;
use crate::error::{NotPublished, ServeFilesError};
use cog_server::Server;
use disk_files::Watched;
use http_range::{Tag, law_publications_replace};
use std::io;
use std::rt::{Clock, Files};

/// Prints that a file is published, with its name and ETag.
fn print_published<R: Print>(rt: &R, name: &str, tag: &Tag) -> io::Result<()> {
    let tag = str::from_utf8(tag.as_bytes()).unwrap_or("");
    println!(rt; "published {name} {tag}")
}

/// Publishes a file, and prints a line of it.
fn publish_one<'a, R: Files + Clock + Print + Eprint + AllocGlobal>(
    log: &AccessLog<'_, R>,
    server: &mut Server,
    file: &mut Watched<'a>,
) -> Result<(), ServeFilesError<'a>>
    ensures served { OnOk result (IsServed server.new file.old.name.now) }
    ensures next { OnOk result (IsPublishedOf R.File.remaining file.old.name.now server.old server.new) }
    ensures others { KeepsOthers file.old.name.now server.old server.new }
    ensures err { IfErr result (IsOfOne log.now.is_kept file.old) }
    ensures name { file.new.name ≡ file.old.name }
    ensures path { file.new.path ≡ file.old.path }
    ensures verify { verify_of file.new ≡ verify_of file.old }
    ensures looked { IsLookedAt file.old file.new }
{
    law_publications_replace();
    match file.publish(log.rt, server) {
        Ok(tag) => log.written(print_published(log.rt, file.name, &tag)),
        Err(why) => Err(ServeFilesError::NotPublished(NotPublished::new(file, why))),
    }
}

/// Publishes the files in order, and prints a line for each. Stops at the first that isn't published.
pub fn publish_all<'a, R: Files + Clock + Print + Eprint + AllocGlobal>(
    log: &AccessLog<'_, R>,
    server: &mut Server,
    files: &mut [Watched<'a>],
) -> Result<(), ServeFilesError<'a>>
    ensures served { OnOk result (All (IsServed server.new) (names files.old)) }
    ensures each { OnOk result (ArePublished R.File.remaining (names files.old) server.old server.new) }
    ensures others { KeepsOthersThan (names files.old) server.old server.new }
    ensures err { IfErr result (IsOfFiles log.now.is_kept files.old) }
    ensures names { names files.new ≡ names files.old }
    ensures settings { settings files.new ≡ settings files.old }
    ensures looked { OnOk result (AllZip IsLookedAt files.old files.new) }
{
    for k in 0..files.len() {
        publish_one(log, server, &mut files[k])?;
    }
    Ok(())
}

/// Returns whether one of the files is named `name`.
fn is_name_of_one(name: &str, files: &[Watched<'_>]) -> bool
    ensures { IsTrue result ↔ Contains (names files.now) name.now }
{
    for file in files {
        if file.name == name {
            return true;
        }
    }
    false
}

/// Publishes a file if its bytes changed, and prints a line of it. A line that can't be written is lost.
fn look_at<R: Files + Clock + Print + Eprint + AllocGlobal>(
    log: &AccessLog<'_, R>,
    server: &mut Server,
    file: &mut Watched<'_>,
)
    ensures anew { MayBePublished R.File.remaining file.old.name.now server.old server.new }
    ensures others { KeepsOthers file.old.name.now server.old server.new }
    ensures name { file.new.name ≡ file.old.name }
    ensures path { file.new.path ≡ file.old.path }
    ensures verify { verify_of file.new ≡ verify_of file.old }
    ensures looked { IsLookedAt file.old file.new }
{
    law_publications_replace();
    match file.publish_changed(log.rt, server, moment(log.rt)) {
        Ok(Some(tag)) => {
            let _ = print_published(log.rt, file.name, &tag);
        }
        Ok(None) => {}
        Err(why) => log.print(NotPublished::new(file, why)),
    }
}

/// Publishes the files whose bytes changed. Of several files of one name, the last is looked at.
pub fn look_again<R: Files + Clock + Print + Eprint + AllocGlobal>(
    log: &AccessLog<'_, R>,
    server: &mut Server,
    files: &mut [Watched<'_>],
)
    ensures anew { ArePublishedAnew R.File.remaining (names files.old) server.old server.new }
    ensures others { KeepsOthersThan (names files.old) server.old server.new }
    ensures names { names files.new ≡ names files.old }
    ensures settings { settings files.new ≡ settings files.old }
    // Each file is looked at, but of several files of one name only the last.
    ensures looked { AreLookedAt files.old files.new }
{
    for k in 0..files.len() {
        if !is_name_of_one(files[k].name, &files[k + 1..]) {
            look_at(log, server, &mut files[k]);
        }
    }
}
