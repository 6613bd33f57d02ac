//! A path that leads elsewhere while its file is looked at.
use cog_server::Server;
use disk_files::Watched;
use std::alloc::Global;
use std::cell::Cell;
use std::fs::{Metadata, OpenOptions};
use std::rt::{Clock, Files};
use std::test::Fail;
use std::time::Duration;
use std::{fs, io};

const PATH: &str = "served_files_tests_elsewhere";

const OTHER: &str = "served_files_tests_elsewhere_other";

/// A runtime whose clock is ahead, so that files are older than two seconds. In it the path leads to another file after it was looked at.
#[derive(Drop)]
struct Turning<'r, R> {
    rt: &'r R,
    leads_elsewhere: Cell<bool>,
}

impl<R: Clock> Clock for Turning<'_, R> {
    fn monotonic(&self) -> io::Result<Duration> {
        self.rt.monotonic()
    }

    fn since_1970(&self) -> io::Result<Duration> {
        let now = self.rt.since_1970()?;
        now.checked_add(Duration::from_secs(10))
            .ok_or(io::Error::from(io::ErrorKind::Other))
    }
}

impl<R: AllocGlobal> Alloc for Turning<'_, R> {
    type A = Global;

    fn alloc(&self) -> Global {
        self.rt.alloc()
    }
}

impl<R: Files> Files for Turning<'_, R> {
    type File = R::File;

    type Dir = R::Dir;

    fn open_file(&self, how: &OpenOptions, path: &str) -> io::Result<R::File> {
        let path = if self.leads_elsewhere.get() {
            OTHER
        } else {
            path
        };
        self.rt.open_file(how, path)
    }

    fn open_dir(&self, path: &str) -> io::Result<R::Dir> {
        self.rt.open_dir(path)
    }

    fn metadata(&self, path: &str) -> io::Result<Metadata> {
        self.rt.metadata(path)
    }

    fn symlink_metadata(&self, path: &str) -> io::Result<Metadata> {
        self.rt.symlink_metadata(path)
    }

    fn copy(&self, from: &str, to: &str) -> io::Result<u64> {
        self.rt.copy(from, to)
    }

    fn rename(&self, from: &str, to: &str) -> io::Result<()> {
        self.rt.rename(from, to)
    }

    fn remove_file(&self, path: &str) -> io::Result<()> {
        self.rt.remove_file(path)
    }

    fn create_dir(&self, path: &str) -> io::Result<()> {
        self.rt.create_dir(path)
    }

    fn remove_dir(&self, path: &str) -> io::Result<()> {
        self.rt.remove_dir(path)
    }

    fn remove_dir_all<B: std::alloc::Allocator>(&self, alloc: B, path: &str) -> io::Result<()> {
        self.rt.remove_dir_all(alloc, path)
    }
}

/// Expects that the other file is published instead of the one that was looked at. After the path leads back, that one is published.
#[test]
fn remembers_the_file_that_it_read(rt: HostRuntime) -> Result<(), Fail> {
    fs::write(&rt, PATH, b"looked at")?;
    fs::write(&rt, OTHER, b"read")?;
    let turning = Turning {
        rt: &rt,
        leads_elsewhere: Cell::new(true),
    };
    let mut server = Server::new(rt.alloc(), 7);
    let mut watched = Watched::new("a", PATH);
    let first = watched.publish_changed(&turning, &mut server, 0);
    assert!(rt; matches!(first, Ok(Some(_))));
    assert!(rt; server.file(b"a") == Some(b"read"));
    turning.leads_elsewhere.set(false);
    let second = watched.publish_changed(&turning, &mut server, 0);
    assert!(rt; matches!(second, Ok(Some(_))));
    assert!(rt; server.file(b"a") == Some(b"looked at"));
    let third = watched.publish_changed(&turning, &mut server, 0);
    assert!(rt; matches!(third, Ok(None)));
    fs::remove_file(&rt, PATH)?;
    fs::remove_file(&rt, OTHER)?;
    Ok(())
}
